//! Steps that are asked in the names and numbers of the whole, and answered by what is kept.
ghost use Rattle.std.specs.Prelude.{◌≡◌, ◌≢◌, ◌-◌, None, Some, IfErr, IfOk, IsErrOf, length};
ghost use Rattle.line_tape.specs.declared.modes.Mode.TheVariants.{Fifo};
ghost use Rattle.line_tape.specs.declared.steps.Step.TheVariants.{Bar, Damage};
ghost use Rattle.line_tape.specs.StepShown.{step_of_ref, HasShortBody};
ghost use Rattle.line_world.specs.declared.replies.Answer.TheVariants.{Done, Refused};
ghost use Rattle.line_world.specs.Refusals.{refusal_of};
ghost use Rattle.line_cuts.specs.Cuts.{lost_checks};
ghost use Rattle.line_cuts.specs.Floors.{HasNumbers};
ghost use Rattle.line_live.specs.CutMachines.{cut_step};
ghost use Rattle.line_live.specs.Lives.{floor_refusal, TakesLive};

use crate::whole_names::whole_reply;
use line_cuts::OwnedFloor;
use line_names::ProcId;
use line_tape::{Step, StepRef};
use line_world::{Reply, StepError, World};
use std::alloc::Global;

/// The index of a check that is to be damaged, in what is kept, or the refusal for what was let go.
fn damaged_check(floor: &OwnedFloor, at: ProcId, check: u32) -> Result<u32, StepError>
    ensures check { IfOk result (λ cut. cut ≡ check - lost_checks floor.now at) }
    ensures spared { IfOk result (λ _. floor_refusal floor.now (Damage at check) ≡ None) }
    ensures refused { IfErr result (λ e. floor_refusal floor.now (Damage at check) ≡ Some e) }
    ensures memory { IfErr result (λ e. e ≢ StepError.OutOfMemory) }
{
    let first = floor.check(at);
    if 1 <= first && check <= first {
        return Err(StepError::InitialDamage);
    }
    Ok(check.saturating_sub(floor.checks_lost(at)))
}

/// The index of a check that a process is to be barred at, in what is kept, or the refusal for what
/// was let go.
fn barred_check(floor: &OwnedFloor, at: ProcId, check: u32) -> Result<u32, StepError>
    ensures check { IfOk result (λ cut. cut ≡ check - lost_checks floor.now at) }
    ensures spared { IfOk result (λ _. floor_refusal floor.now (Bar at check) ≡ None) }
    ensures refused { IfErr result (λ e. floor_refusal floor.now (Bar at check) ≡ Some e) }
    ensures memory { IfErr result (λ e. e ≢ StepError.OutOfMemory) }
{
    if check < floor.check(at) {
        return Err(StepError::NoSuchCheck);
    }
    Ok(check.saturating_sub(floor.checks_lost(at)))
}

/// A step as what is kept is asked to do it, or its refusal for what was let go.
fn cut_step<'a>(floor: &OwnedFloor, step: &StepRef<'a>) -> Result<StepRef<'a>, StepError>
    requires short { HasShortBody step.now }
    ensures step { IfOk result (λ cut.
        step_of_ref cut ≡ cut_step floor.now (step_of_ref step.now)) }
    ensures short { IfOk result (λ cut. HasShortBody cut) }
    ensures spared { IfOk result (λ _. floor_refusal floor.now (step_of_ref step.now) ≡ None) }
    ensures refused { IfErr result
        (λ e. floor_refusal floor.now (step_of_ref step.now) ≡ Some e) }
    ensures memory { IfErr result (λ e. e ≢ StepError.OutOfMemory) }
{
    match step {
        StepRef::Send { from, to, body } => Ok(StepRef::Send {
            from: *from,
            to: *to,
            body,
        }),
        StepRef::Deliver {
            from,
            to,
            pick,
            state,
        } => Ok(StepRef::Deliver {
            from: *from,
            to: *to,
            pick: *pick,
            state,
        }),
        StepRef::Check { at, state } => Ok(StepRef::Check { at: *at, state }),
        StepRef::Begin { at, state } => Ok(StepRef::Begin { at: *at, state }),
        StepRef::Turn { at, state } => Ok(StepRef::Turn { at: *at, state }),
        StepRef::Damage { at, check } => match damaged_check(floor, *at, *check) {
            Ok(cut) => Ok(StepRef::Damage {
                at: *at,
                check: cut,
            }),
            Err(refusal) => Err(refusal),
        },
        StepRef::Bar { at, check } => match barred_check(floor, *at, *check) {
            Ok(cut) => Ok(StepRef::Bar {
                at: *at,
                check: cut,
            }),
            Err(refusal) => Err(refusal),
        },
        StepRef::Recover { failed } => Ok(StepRef::Recover { failed }),
    }
}

/// Has a world that is kept take a step, and brings its reply back.
#[inline(never)]
pub(crate) fn step_kept(
    alloc: Global,
    world: &mut World,
    floor: &OwnedFloor,
    step: &StepRef<'_>,
) -> Result<Reply, StepError>
    requires short { HasShortBody step.now }
    requires fifo { world.old.mode ≡ Fifo }
    requires numbers { HasNumbers floor.now }
    ensures done { IfOk result (λ reply.
        TakesLive (record { floor = floor.now; kept = world.old }) (step_of_ref step.now)
        (Done reply) (record { floor = floor.now; kept = world.new })) }
    ensures refused { IfErr result (λ e. e ≢ StepError.OutOfMemory
        → TakesLive (record { floor = floor.now; kept = world.old }) (step_of_ref step.now)
        (Refused e) (record { floor = floor.now; kept = world.new })) }
    ensures memory { IsErrOf result StepError.OutOfMemory → world.new ≡ world.old }
    ensures spared { IsErrOf result StepError.OutOfMemory
        → floor_refusal floor.now (step_of_ref step.now) ≡ None }
    ensures unrefused { IsErrOf result StepError.OutOfMemory
        → refusal_of world.old (cut_step floor.now (step_of_ref step.now)) ≡ None }
    ensures mode { world.new.mode ≡ world.old.mode }
    ensures count { length world.new.history ≡ length world.old.history }
{
    let history = world.history();
    let _n = history.n();
    match cut_step(floor, step) {
        Ok(cut) => match world.step_lent(alloc, &cut) {
            Ok(reply) => Ok(whole_reply(floor, reply)),
            Err(refusal) => Err(refusal),
        },
        Err(refusal) => Err(refusal),
    }
}

/// Has a world that is kept take what is left of a step, and brings its reply back.
fn step_cut(
    alloc: Global,
    world: &mut World,
    floor: &OwnedFloor,
    cut: &Step,
    _step: &Step,
) -> Result<Reply, StepError>
    requires fifo { world.old.mode ≡ Fifo }
    requires numbers { HasNumbers floor.now }
    requires cut { cut_step floor.now _step.now ≡ cut.now }
    requires spared { floor_refusal floor.now _step.now ≡ None }
    ensures done { IfOk result (λ reply.
        TakesLive (record { floor = floor.now; kept = world.old }) _step.now (Done reply)
        (record { floor = floor.now; kept = world.new })) }
    ensures refused { IfErr result (λ e. e ≢ StepError.OutOfMemory
        → TakesLive (record { floor = floor.now; kept = world.old }) _step.now (Refused e)
        (record { floor = floor.now; kept = world.new })) }
    ensures memory { IsErrOf result StepError.OutOfMemory → world.new ≡ world.old }
    ensures spared { IsErrOf result StepError.OutOfMemory
        → floor_refusal floor.now _step.now ≡ None }
    ensures unrefused { IsErrOf result StepError.OutOfMemory
        → refusal_of world.old (cut_step floor.now _step.now) ≡ None }
    ensures mode { world.new.mode ≡ world.old.mode }
    ensures count { length world.new.history ≡ length world.old.history }
{
    let history = world.history();
    let _n = history.n();
    match world.step(alloc, cut) {
        Ok(reply) => Ok(whole_reply(floor, reply)),
        Err(refusal) => Err(refusal),
    }
}

/// Has a world that is kept take a step, as `step_kept` does.
#[inline(never)]
pub(crate) fn step_of_kept(
    alloc: Global,
    world: &mut World,
    floor: &OwnedFloor,
    step: &Step,
) -> Result<Reply, StepError>
    requires fifo { world.old.mode ≡ Fifo }
    requires numbers { HasNumbers floor.now }
    ensures done { IfOk result (λ reply.
        TakesLive (record { floor = floor.now; kept = world.old }) step.now (Done reply)
        (record { floor = floor.now; kept = world.new })) }
    ensures refused { IfErr result (λ e. e ≢ StepError.OutOfMemory
        → TakesLive (record { floor = floor.now; kept = world.old }) step.now (Refused e)
        (record { floor = floor.now; kept = world.new })) }
    ensures memory { IsErrOf result StepError.OutOfMemory → world.new ≡ world.old }
    ensures spared { IsErrOf result StepError.OutOfMemory
        → floor_refusal floor.now step.now ≡ None }
    ensures unrefused { IsErrOf result StepError.OutOfMemory
        → refusal_of world.old (cut_step floor.now step.now) ≡ None }
    ensures mode { world.new.mode ≡ world.old.mode }
    ensures count { length world.new.history ≡ length world.old.history }
{
    match step {
        Step::Send { .. } => step_cut(alloc, world, floor, step, step),
        Step::Deliver { .. } => step_cut(alloc, world, floor, step, step),
        Step::Check { .. } => step_cut(alloc, world, floor, step, step),
        Step::Begin { .. } => step_cut(alloc, world, floor, step, step),
        Step::Turn { .. } => step_cut(alloc, world, floor, step, step),
        Step::Damage { at, check } => match damaged_check(floor, *at, *check) {
            Ok(check) => {
                let cut = Step::Damage { at: *at, check };
                step_cut(alloc, world, floor, &cut, step)
            }
            Err(refusal) => Err(refusal),
        },
        Step::Bar { at, check } => match barred_check(floor, *at, *check) {
            Ok(check) => {
                let cut = Step::Bar { at: *at, check };
                step_cut(alloc, world, floor, &cut, step)
            }
            Err(refusal) => Err(refusal),
        },
        Step::Recover { .. } => step_cut(alloc, world, floor, step, step),
    }
}
