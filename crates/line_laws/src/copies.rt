//! The law of links that lose, repeat and overtake.
ghost use Rattle.std.specs.Prelude.{◌≡◌, ◌++◌, ◌<◌, ℕ, List, [], length, replicate, Contains};
ghost use Rattle.line_names.specs.declared.choices.Choice.{Choice};
ghost use Rattle.line_names.specs.declared.messages.MsgName.{MsgName};
ghost use Rattle.line_tape.specs.declared.events.Event.{Event};
ghost use Rattle.line_tape.specs.Copies.{IsUnordered, copies_put};
ghost use Rattle.line_tape.specs.Event.{Holds};
ghost use Rattle.line_tape.specs.Fit.{IsNextUnordered, IsSentTo};
ghost use Rattle.line_tape.specs.History.{Process, fresh, tape_at, with_event};
ghost use Rattle.line_tape.specs.Line.{IsConsistent};
ghost use Rattle.line_tape.specs.Restart.{restarted_history};
ghost use Rattle.line_tape.specs.Transit.{in_transit_between};

/// What links without an order can lead to stays so by each event that may come next, and by each
/// restart at a consistent line.
///
/// A send puts a copy at the end of its link, and a restart puts there one more copy of each
/// message that was in transit on it. A copy whose message the sender's tape holds stands on the
/// link to its addressee. The call does nothing: its contract is the law.
pub fn copies_hold()
    ensures start { (n : ℕ) (copies : ℕ → ℕ → List MsgName) → ((p q : ℕ) → copies p q ≡ [])
        → IsUnordered (replicate n fresh) copies }
    ensures event { (history : List Process) (at : ℕ) (event : Event)
        (old new : ℕ → ℕ → List MsgName)
        → IsUnordered history old → at < length history → IsNextUnordered history at event
        → ((p q : ℕ) → p < length history → q < length history
        → new p q ≡ old p q ++ copies_put history at event p q)
        → IsUnordered (with_event history at event) new }
    ensures restart { (history : List Process) (line : List Choice) (old new : ℕ → ℕ → List MsgName)
        → IsUnordered history old → IsConsistent history line → length line ≡ length history
        → ((p q : ℕ) → p < length history → q < length history
        → new p q ≡ old p q ++ in_transit_between history line p q)
        → IsUnordered (restarted_history history line) new }
    ensures addressed { (history : List Process) (copies : ℕ → ℕ → List MsgName) (p q : ℕ)
        (message : MsgName)
        → IsUnordered history copies → p < length history → q < length history
        → Contains (copies p q) message
        → Holds (tape_at history message.from) message.inc message.number
        → IsSentTo history q message }
{}
