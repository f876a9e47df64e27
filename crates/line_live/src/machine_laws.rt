//! A machine that lets go what is never needed again answers as one that keeps everything.
//!
//! The laws are of the machine of `line_world`, whose links keep their order, and of the floors of
//! `line_cuts`. `lives_begin`, `lives_go_on` and `lives_go_further` say when one may be taken,
//! `lives_as_whole` and `runs_as_whole` what is answered from then on, `forgets_as_one` that two
//! are as one, and `lives_stay_sound` that what is kept is as every run leaves a machine.
ghost use Rattle.std.specs.Prelude.{◌≡◌, ◌<◌, ◌≤◌, ℕ, false, All, List, length, map};
ghost use Rattle.line_moves.specs.Listed.{IsSnapshotOf};
ghost use Rattle.line_tape.specs.declared.steps.Step.{Step};
ghost use Rattle.line_world.specs.declared.replies.Answer.{Answer};
ghost use Rattle.line_world.specs.Machine.{Machine, is_open};
ghost use Rattle.line_world.specs.Runs.{Run, Takes};
ghost use Rattle.line_world.specs.Sound.{IsSound};
ghost use Rattle.line_cuts.specs.Cuts.{floor_check, whole_floor, Floor, FloorSurvives, IsFloor};
ghost use Rattle.line_live.specs.CutMachines.{cut_machine, cut_step};
ghost use Rattle.line_live.specs.CutMachines.{AnswersAlike, IsBeside, IsFurther, MayForget};
ghost use Rattle.line_live.specs.CutMachines.{RunsAlike, SparesFloor};

/// Where no round is open, a machine may let go what stands before any floor that survives.
///
/// Every run keeps true what `IsSound` says. The call does nothing: its contract is the law.
pub fn lives_begin()
    ensures { (floor : Floor) (machine : Machine)
        → MayForget floor machine → IsBeside floor machine }
{}

/// A machine that has let go before may do so again wherever no round is open, at any further floor
/// that survives.
///
/// The call does nothing: its contract is the law.
pub fn lives_go_on()
    ensures { (floor further : Floor) (machine : Machine)
        → IsBeside floor machine → is_open machine ≡ false
        → further.round ≡ machine.last_round → IsFloor machine.history further
        → FloorSurvives machine.history machine.marks further → IsBeside further machine }
{}

/// Whatever the machine answers that has let go what stands before the floor, the machine that
/// keeps everything may answer, in its own names and numbers, if its tapes were never full; and
/// what is kept then is what is left of it.
///
/// The call does nothing: its contract is the law.
pub fn lives_as_whole()
    ensures { (floor : Floor) (old : Machine) (step : Step) (answer : Answer) (cut : Machine)
        → IsBeside floor old → SparesFloor floor step
        → Takes (cut_machine floor old) (cut_step floor step) answer cut
        → AnswersAlike floor old step answer cut }
{}

/// The same of runs: whatever such a machine answers from a floor on, the machine that keeps
/// everything may answer.
///
/// The call does nothing: its contract is the law.
pub fn runs_as_whole()
    ensures { (floor : Floor) (old : Machine) (steps : List Step) (answers : List Answer)
        (cut : Machine)
        → IsBeside floor old → All (SparesFloor floor) steps
        → Run (cut_machine floor old) (map (cut_step floor) steps) answers cut
        → RunsAlike floor old steps answers cut }
{}

/// To let go once more is to let go once, further on.
///
/// The call does nothing: its contract is the law.
pub fn forgets_as_one()
    ensures { (floor later : Floor) (machine : Machine) → IsFurther floor later machine
        → cut_machine later (cut_machine floor machine)
        ≡ cut_machine (whole_floor floor later) machine }
{}

/// What is kept is as every run leaves a machine; so it may be all that there is from then on, and
/// each of its listed rounds is a snapshot of it.
///
/// `snapshots` says that at any time. The call does nothing: its contract is the law.
pub fn lives_stay_sound()
    ensures sound { (floor : Floor) (machine : Machine)
        → MayForget floor machine → IsSound (cut_machine floor machine) }
    ensures snapshots { (floor : Floor) (machine : Machine)
        → IsBeside floor machine → All (IsSnapshotOf machine.history) machine.rounds
        → All (IsSnapshotOf (cut_machine floor machine).history)
        (cut_machine floor machine).rounds }
{}

/// Whoever keeps only what is left may let go again by what is kept alone, where the machine that
/// is kept may: the machine that keeps everything stays beside it, and the floors are as one
/// (`forgets_as_one`).
///
/// No process that has left its initial state comes back to it; the latest line of what is kept has
/// none that does (`later_floors` of `line_cuts`). The call does nothing: its contract is the law.
pub fn lives_go_further()
    ensures beside { (floor later : Floor) (machine : Machine)
        → IsBeside floor machine → MayForget later (cut_machine floor machine)
        → ((p : ℕ) → p < length machine.history → 1 ≤ floor_check floor p
        → 1 ≤ floor_check later p)
        → IsBeside (whole_floor floor later) machine }
    ensures further { (floor later : Floor) (machine : Machine)
        → IsBeside floor machine → MayForget later (cut_machine floor machine)
        → ((p : ℕ) → p < length machine.history → 1 ≤ floor_check floor p
        → 1 ≤ floor_check later p)
        → length floor.sends ≡ length later.sends
        → length machine.marks.bars ≡ length machine.history
        → All (IsSnapshotOf machine.history) machine.rounds → IsFurther floor later machine }
{}
