//! Laws of vectors over tapes: each an `ensures` of a function that does nothing.
ghost use Rattle.std.specs.Prelude.{◌≡◌, ◌<◌, [], ◌∷◌, ◌++◌, ℕ, List, IsTrue, length};
ghost use Rattle.line_names.specs.declared.choices.Choice.{Choice};
ghost use Rattle.line_names.specs.declared.choices.Choice.TheVariants.{Check as AtCheck, Now};
ghost use Rattle.line_names.specs.declared.messages.MsgName.{MsgName};
ghost use Rattle.line_names.specs.Lines.{choice_at};
ghost use Rattle.line_tape.specs.declared.events.Event.{Event};
ghost use Rattle.line_tape.specs.declared.events.Event.TheVariants.{Recv};
ghost use Rattle.line_tape.specs.History.{Process};
ghost use Rattle.line_tape.specs.Restart.{restarted_history, is_kept};
ghost use Rattle.line_vectors.specs.Reach.{reach_from, IsReach, nearest, reach_of, reach_before};
ghost use Rattle.line_vectors.specs.Vectors.{lanes_with_message};

/// A lane over events is one more than the greatest number that they receive from the process, or
/// 0.
pub fn lanes_are_greatest()
    ensures { (events : List Event) (p : ℕ) → IsReach events p (reach_from events p) }
{}

/// The vector of a tape with one more receipt is that of the tape with the message noted.
pub fn receipts_note()
    ensures { (n : ℕ) (tape : List Event) (message : MsgName) → message.from < n
        → reach_of n (tape ++ Recv message ∷ [])
        ≡ lanes_with_message (reach_of n tape) (nearest message) }
{}

/// A restart, at any line, leaves the vectors of the checks that it keeps as they were.
pub fn kept_vectors_stay()
    ensures { (history : List Process) (line : List Choice) → length line ≡ length history
        → (q c : ℕ)
        → IsTrue (is_kept (choice_at line q) c)
        → reach_before (restarted_history history line) q (AtCheck c)
        ≡ reach_before history q (AtCheck c) }
{}

/// After a restart, at any line, the vector of where a process stands is that of the choice that it
/// went on from.
pub fn present_vectors_are_the_choices()
    ensures { (history : List Process) (line : List Choice) → length line ≡ length history → (q : ℕ)
        → reach_before (restarted_history history line) q Now
        ≡ reach_before history q (choice_at line q) }
{}
