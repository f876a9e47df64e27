//! Laws over the runs of the machine.
ghost use Rattle.std.specs.Prelude.{◌++◌, ℕ, List};
ghost use Rattle.line_world.specs.declared.replies.Answer.{Answer};
ghost use Rattle.line_tape.specs.declared.modes.Mode.{Mode};
ghost use Rattle.line_tape.specs.declared.steps.Step.{Step};
ghost use Rattle.line_world.specs.Machine.{Machine, start};
ghost use Rattle.line_world.specs.Runs.{AreNamedApart, IsParted, Run, Takes};
ghost use Rattle.line_world.specs.Sound.{CompletesLast, IsSound, ReachesRounds};

/// In a run from the empty state no two messages that were sent have one name, however often their
/// senders went back.
///
/// So a copy whose name the sender's tape holds is a copy of that send. The call does nothing: its
/// contract is the law.
pub fn runs_name_apart()
    ensures { (n : ℕ) (mode : Mode) (steps : List Step) (answers : List Answer) (machine : Machine)
        → Run (start n mode) steps answers machine → AreNamedApart answers }
{}

/// What holds of the rounds in each state that a run from the empty state comes through. The
/// history is one that its links can lead to, and each listed round is a snapshot of it (Chandy and
/// Lamport, ACM TOCS 3(1), 1985). At most the last round begun is open, and its number is the
/// greatest on the tapes; no step completes another. No recovery takes a process to before its
/// check of a listed round whose checks survive.
///
/// A run can be parted after any of its steps into two runs, so each state inside it is one that a
/// run leads to. The call does nothing: its contract is the law.
pub fn runs_keep_rounds()
    ensures sound { (n : ℕ) (mode : Mode) (steps : List Step) (answers : List Answer)
        (machine : Machine)
        → Run (start n mode) steps answers machine → IsSound machine }
    ensures last { (n : ℕ) (mode : Mode) (steps : List Step) (answers : List Answer) (old : Machine)
        (step : Step) (answer : Answer) (new : Machine)
        → Run (start n mode) steps answers old → Takes old step answer new → CompletesLast old new }
    ensures recovered { (n : ℕ) (mode : Mode) (steps : List Step) (answers : List Answer)
        (old : Machine) (step : Step) (answer : Answer) (new : Machine)
        → Run (start n mode) steps answers old → Takes old step answer new
        → ReachesRounds old step answer }
    ensures parts { (old : Machine) (steps more : List Step) (answers : List Answer) (new : Machine)
        → Run old (steps ++ more) answers new → IsParted old steps more answers new }
{}
