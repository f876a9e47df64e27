//! Laws of machines whose marks differ in their order alone, and of what is left of machines.
ghost use Rattle.std.specs.Prelude.{◌≡◌, ◌<◌, ◌≤◌, ℕ, false, All, None, length};
ghost use Rattle.line_cuts.specs.Cuts.{floor_check, whole_floor, Floor, FloorSurvives, IsFloor};
ghost use Rattle.line_moves.specs.Listed.{IsSnapshotOf};
ghost use Rattle.line_tape.specs.declared.steps.Step.{Step};
ghost use Rattle.line_world.specs.declared.replies.Answer.{Answer};
ghost use Rattle.line_world.specs.Machine.{Machine, is_open};
ghost use Rattle.line_world.specs.Runs.{Takes};
ghost use Rattle.line_world.specs.Sound.{IsSound};
ghost use Rattle.line_live.specs.CutMachines.{cut_machine, cut_step, IsBeside, MayForget};
ghost use Rattle.line_live.specs.CutMachines.{SparesFloor};
ghost use Rattle.line_live.specs.Forgets.{forget_refusal, idle_refusal, IsFloorOfRound};
ghost use Rattle.line_live.specs.Forgets.{IsFloorWhereAllFail};
ghost use Rattle.line_live.specs.Machines.{IsAnsweredAlike, IsAnsweredAsWhole, IsSameMachine};

/// What a machine answers to a step, and what it goes on to, does not depend on the order in which
/// marks were made.
///
/// The call does nothing: its contract is the law.
pub fn same_machines_answer_alike()
    ensures { (old other new : Machine) (step : Step) (answer : Answer)
        → IsSameMachine old other → Takes old step answer new
        → IsAnsweredAlike other step answer new }
{}

/// A machine that is what is left of another one, in whatever order its marks were made, answers as
/// the one that keeps everything may, in its own names and numbers; and it stays what is left.
///
/// So what `cut_world` makes answers as the whole would. The call does nothing: its contract is the
/// law.
pub fn kept_machines_answer_as_whole()
    ensures { (floor : Floor) (whole kept new : Machine) (step : Step) (answer : Answer)
        → IsBeside floor whole → SparesFloor floor step
        → IsSameMachine kept (cut_machine floor whole)
        → Takes kept (cut_step floor step) answer new
        → IsAnsweredAsWhole floor whole step answer new }
{}

/// Such a machine may let go again by what it keeps alone, wherever no round is open, at any floor
/// that survives and brings no process back to its initial state; and it stays what is left of the
/// one that keeps everything, which has let go at once what was let go first and then.
///
/// The call does nothing: its contract is the law.
pub fn kept_machines_let_go_further()
    ensures beside { (floor later : Floor) (whole kept : Machine)
        → IsBeside floor whole → IsSameMachine kept (cut_machine floor whole)
        → is_open kept ≡ false → later.round ≡ kept.last_round
        → IsFloor kept.history later → FloorSurvives kept.history kept.marks later
        → ((p : ℕ) → p < length whole.history → 1 ≤ floor_check floor p
        → 1 ≤ floor_check later p)
        → IsBeside (whole_floor floor later) whole }
    ensures left { (floor later : Floor) (whole kept : Machine)
        → IsBeside floor whole → IsSameMachine kept (cut_machine floor whole)
        → is_open kept ≡ false → later.round ≡ kept.last_round
        → IsFloor kept.history later → FloorSurvives kept.history kept.marks later
        → ((p : ℕ) → p < length whole.history → 1 ≤ floor_check floor p
        → 1 ≤ floor_check later p)
        → (new : Machine) → IsSameMachine new (cut_machine later kept)
        → length floor.sends ≡ length later.sends
        → length whole.marks.bars ≡ length whole.history
        → All (IsSnapshotOf whole.history) whole.rounds
        → IsSameMachine new (cut_machine (whole_floor floor later) whole) }
{}

/// Where nothing refuses a floor, a machine whose rounds are as every run leaves them may let go
/// what stands before the one that is found: so `lives_begin` holds of it.
///
/// The call does nothing: its contract is the law.
pub fn found_floors_may_be_taken()
    ensures round { (machine : Machine) (number : ℕ) (floor : Floor)
        → IsSound machine → length machine.marks.damaged ≡ length machine.history
        → forget_refusal machine number ≡ None → IsFloorOfRound machine number floor
        → MayForget floor machine }
    ensures live { (machine : Machine) (floor : Floor)
        → IsSound machine → length machine.marks.damaged ≡ length machine.history
        → idle_refusal machine.mode (is_open machine) None ≡ None
        → IsFloorWhereAllFail machine floor → MayForget floor machine }
{}
