//! The laws of a machine that lets go.
ghost use Rattle.std.specs.Prelude.{◌≡◌, ℕ, List, None};
ghost use Rattle.line_tape.specs.declared.modes.Mode.{Mode};
ghost use Rattle.line_tape.specs.declared.steps.Step.{Step};
ghost use Rattle.line_world.specs.declared.replies.Answer.{Answer};
ghost use Rattle.line_world.specs.Machine.{Machine};
ghost use Rattle.line_live.specs.Lived.{IsLeftOf, IsLife, IsLifeOfWhole, IsLivedStep};
ghost use Rattle.line_live.specs.Lived.{IsToldByWhole, Lived};
ghost use Rattle.line_live.specs.Lives.{floor_refusal, start_live, IsAnsweredByKept, LiveMachine};
ghost use Rattle.line_live.specs.Lives.{TakesLive};

/// Where nothing that was let go refuses a step, the machine that lets go answers it as one that
/// keeps everything may, in the same names and numbers, if its tapes were never full; and what is
/// kept stays what is left of that one.
///
/// The call does nothing: its contract is the law.
pub fn live_steps_answer_as_whole()
    ensures { (live new : LiveMachine) (whole : Machine) (step : Step) (answer : Answer)
        → IsLeftOf live whole → floor_refusal live.floor step ≡ None
        → IsAnsweredByKept live step answer new → IsToldByWhole whole step answer new }
{}

/// Whatever a machine that lets go answers from the beginning, however often it forgets in between,
/// the machine that keeps everything may answer, in the same names and numbers, if its tapes were
/// never full. The steps that are refused for what was let go are left out there.
///
/// The call does nothing: its contract is the law.
pub fn lives_answer_as_whole()
    ensures whole { (n : ℕ) (mode : Mode) (lived : List Lived) (live : LiveMachine)
        → IsLife (start_live n mode) lived live → IsLifeOfWhole n mode lived live }
    ensures steps { (old new : LiveMachine) (step : Step) (answer : Answer)
        → TakesLive old step answer new → IsLivedStep old step answer new }
{}
