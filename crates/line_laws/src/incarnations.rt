//! The law that no two messages have one name.
ghost use Rattle.std.specs.Prelude.{◌≡◌, ◌<◌, ◌≤◌, ℕ, List, length, replicate, Some};
ghost use Rattle.line_names.specs.declared.choices.Choice.{Choice};
ghost use Rattle.line_names.specs.declared.messages.MsgName.{MsgName};
ghost use Rattle.line_tape.specs.declared.events.Event.{Event};
ghost use Rattle.line_tape.specs.declared.events.Event.TheVariants.{Send};
ghost use Rattle.line_tape.specs.Event.{incarnation_of};
ghost use Rattle.line_tape.specs.History.{Process, fresh, incarnation_at, with_event};
ghost use Rattle.line_tape.specs.Restart.{restarted_history};
ghost use Rattle.line_tape.specs.Spent.{next_name, IsSpentName, HasNoLaterSend};

/// The next name of a process is none of those that were sent, and a name that was sent stays so by
/// every event and every restart.
///
/// A restart keeps a process's tape whole or raises its incarnation, so a message that takes an old
/// one's place has another name. The call does nothing: its contract is the law.
pub fn names_apart()
    ensures unspent { (history : List Process) (p : ℕ) → IsSpentName history (next_name history p)
        → ⊥ }
    ensures sent { (history : List Process) (at to : ℕ) (body : List ℕ) → at < length history
        → IsSpentName (with_event history at (Send to (incarnation_at history at) body))
        (next_name history at) }
    ensures event { (history : List Process) (at : ℕ) (event : Event) (message : MsgName)
        → at < length history → IsSpentName history message
        → IsSpentName (with_event history at event) message }
    ensures restart { (history : List Process) (line : List Choice) (message : MsgName)
        → HasNoLaterSend history → length line ≡ length history → IsSpentName history message
        → IsSpentName (restarted_history history line) message }
    ensures sends_event { (history : List Process) (at : ℕ) (event : Event) → HasNoLaterSend history
        → at < length history
        → ((inc : ℕ) → incarnation_of event ≡ Some inc → inc ≤ incarnation_at history at)
        → HasNoLaterSend (with_event history at event) }
    ensures sends_restart { (history : List Process) (line : List Choice) → HasNoLaterSend history
        → length line ≡ length history
        → HasNoLaterSend (restarted_history history line) }
    ensures sends_start { (n : ℕ) → HasNoLaterSend (replicate n fresh) }
{}
