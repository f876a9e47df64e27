//! Plans that change nothing: what a recovery would be answered.

ghost use Rattle.std.specs.Prelude.{◌≡◌, ◌≢◌, ◌≤◌, ◌↔◌, ◌⊎◌, IfErr, IfOk, IsErrOf, IsTrue, OnOk};
ghost use Rattle.line_text.specs.Answers as spec;
ghost use Rattle.line_devices.specs.Devices.{one_more};
ghost use Rattle.line_names.specs.declared.limits.TheConstants.{MOST_PROCESSES};
ghost use Rattle.line_tape.specs.declared.steps.Step.TheVariants.{Recover};
ghost use Rattle.line_world.specs.declared.replies.Answer.TheVariants.{Done, Refused};
ghost use Rattle.line_world.specs.declared.replies.Reply.TheVariants.{Recovered};
ghost use Rattle.line_world.specs.Refusals.{has_stranger};
ghost use Rattle.line_world.specs.Steps.{IsPlan};

use crate::halts::Halt;
use crate::replies::{put_recovery, put_refusal};
use crate::texts::put_judged;
use line_claims::ClaimRef;
use line_devices::Sink;
use line_fields::RecordWriter;
use line_live::Live;
use line_moves::{restarted_incarnations, restored_states};
use line_names::{MOST_PROCESSES, ProcId, ProcSet};
use line_plan::Plan;
use line_scripts::Command;
use line_tape::State;
use line_world::{StepError, World};
use std::alloc::{AllocError, Global};

// What a recovery would be answered.
#[derive(Drop)]
struct Recovery {
    plan: Box<Plan>,
    states: Vec<Option<State>>,
    incarnations: Vec<u16>,
}

// The plan for these failed processes, in memory of its own.
#[inline(never)]
fn boxed_plan(alloc: Global, world: &World, failed: &ProcSet) -> Result<Box<Plan>, StepError>
    ensures plan { IfOk result (λ plan. IsPlan world.now failed.now plan.value) }
    ensures stranger { IsErrOf result StepError.NoSuchProcess
        ↔ IsTrue (has_stranger world.now failed.now) }
    ensures others { IfErr result
        (λ e. (e ≡ StepError.NoSuchProcess) ⊎ (e ≡ StepError.OutOfMemory)) }
{
    let plan = world.plan_for(alloc, failed)?;
    let plan = Box::new(alloc, plan).map_err(AllocError::from)?;
    Ok(plan)
}

// The plan for these failed processes, where each that goes back has a further incarnation.
fn plan_to_recover(alloc: Global, world: &World, failed: &ProcSet) -> Result<Box<Plan>, StepError>
    ensures plan { IfOk result
        (λ plan. spec.IsPlanToRecover world.now failed.now plan.value) }
    ensures refused { IfErr result
        (λ e. e ≢ StepError.OutOfMemory
        → spec.MayAnswer world.now (Recover failed.now) (Refused e)) }
{
    let plan = boxed_plan(alloc, world, failed)?;
    if !world.history().has_further(&plan.line) {
        return Err(StepError::NoMoreIncarnations);
    }
    Ok(plan)
}

// What a recovery would be answered if these processes failed now.
fn recovery_for(alloc: Global, world: &World, failed: &ProcSet) -> Result<Recovery, StepError>
    ensures done { IfOk result
        (λ told. spec.MayAnswer world.now (Recover failed.now)
        (Done (Recovered told.plan told.states told.incarnations))) }
    ensures refused { IfErr result
        (λ e. e ≢ StepError.OutOfMemory
        → spec.MayAnswer world.now (Recover failed.now) (Refused e)) }
{
    let plan = plan_to_recover(alloc, world, failed)?;
    let history = world.history();
    let states = restored_states(alloc, history, &plan.line)?;
    let incarnations = restarted_incarnations(alloc, history, &plan.line)?;
    Ok(Recovery {
        plan,
        states,
        incarnations,
    })
}

// The same in names and numbers that are counted from the beginning.
fn whole_recovery(alloc: Global, live: &Live, failed: &ProcSet) -> Result<Recovery, StepError>
    ensures done { IfOk result
        (λ told. spec.LiveMayAnswer live.now (Recover failed.now)
        (Done (Recovered told.plan told.states told.incarnations))) }
    ensures refused { IfErr result
        (λ e. e ≢ StepError.OutOfMemory
        → spec.LiveMayAnswer live.now (Recover failed.now) (Refused e)) }
{
    let mut told = recovery_for(alloc, live.kept(), failed)?;
    live.bring_back(failed, &mut told.plan);
    Ok(told)
}

/// Writes what a recovery would be answered if these processes failed now, after what a writer
/// holds, and says whether it would be refused.
///
/// It costs a plan, and takes memory for the plan, the states and the incarnations.
#[inline(never)]
pub(crate) fn put_plan<K: Sink>(
    alloc: Global,
    live: &Live,
    sink: &mut K,
    writer: &mut RecordWriter,
    failed: &ProcSet,
) -> Result<bool, Halt>
    ensures ok { IfOk result
        (λ refused. spec.DoesCommand live.now (Command.Plan failed.now) live.now
        (K.taken sink.old)
        (K.taken sink.new) writer.old writer.new refused) }
    ensures memory { IfErr result
        (λ halt. halt ≡ Halt.Memory → (sink.new ≡ sink.old) × (writer.new ≡ writer.old)) }
    ensures write { IfErr result
        (λ halt. halt ≡ Halt.Write
        → spec.DoesFront live.now (Command.Plan failed.now) live.now (K.taken sink.old)
        (K.taken sink.new) writer.old) }
    ensures sound { OnOk result (K.faults sink.new ≡ K.faults sink.old) }
    ensures failed { IfErr result
        (λ halt. halt ≡ Halt.Write → K.faults sink.new ≡ one_more (K.faults sink.old)) }
{
    match whole_recovery(alloc, live, failed) {
        Ok(told) => {
            let states = &told.states;
            put_recovery(
                sink,
                writer,
                b"planned",
                &told.plan,
                &told.incarnations,
                states,
            )?;
            Ok(false)
        }
        Err(error) => {
            if error.is_out_of_memory() {
                return Err(Halt::Memory);
            }
            put_refusal(sink, writer, error.code())?;
            Ok(true)
        }
    }
}

/// Writes the check text of the machine's history, damage and bars, with all that a recovery would
/// be answered if these processes failed now, after what a writer holds, and says whether it would
/// be refused.
///
/// It costs a plan, and takes memory for the plan.
#[inline(never)]
pub(crate) fn put_whole_answer<K: Sink>(
    alloc: Global,
    live: &Live,
    sink: &mut K,
    writer: &mut RecordWriter,
    failed: &ProcSet,
) -> Result<bool, Halt>
    ensures ok { IfOk result
        (λ refused. spec.DoesCommand live.now (Command.Answer failed.now) live.now
        (K.taken sink.old)
        (K.taken sink.new) writer.old writer.new refused) }
    ensures memory { IfErr result
        (λ halt. halt ≡ Halt.Memory → (sink.new ≡ sink.old) × (writer.new ≡ writer.old)) }
    ensures write { IfErr result
        (λ halt. halt ≡ Halt.Write
        → spec.DoesFront live.now (Command.Answer failed.now) live.now (K.taken sink.old)
        (K.taken sink.new) writer.old) }
    ensures sound { OnOk result (K.faults sink.new ≡ K.faults sink.old) }
    ensures failed { IfErr result
        (λ halt. halt ≡ Halt.Write → K.faults sink.new ≡ one_more (K.faults sink.old)) }
{
    let world = live.kept();
    match plan_to_recover(alloc, world, failed) {
        Ok(plan) => {
            let claim = ClaimRef {
                marks: world.marks(),
                failed,
                line: &plan.line,
                certificate: plan.certificate.as_slice(),
            };
            put_judged(sink, writer, live, &claim)?;
            Ok(false)
        }
        Err(error) => {
            if error.is_out_of_memory() {
                return Err(Halt::Memory);
            }
            put_refusal(sink, writer, error.code())?;
            Ok(true)
        }
    }
}

/// All processes below `n`.
pub fn everybody(n: u32) -> ProcSet
    requires { n ≤ MOST_PROCESSES }
    ensures { spec.IsEverybody n result }
{
    let mut all = ProcSet::empty();
    for value in 0..n {
        let Ok(p) = ProcId::try_new(value, n) else {
            unreachable!()
        };
        all = all.with(p);
    }
    all
}

/// Writes what a recovery would be answered if every process failed now, as `put_plan` does.
#[inline(never)]
pub(crate) fn put_live<K: Sink>(
    alloc: Global,
    live: &Live,
    sink: &mut K,
    writer: &mut RecordWriter,
) -> Result<bool, Halt>
    ensures ok { IfOk result
        (λ refused. spec.DoesCommand live.now Command.Live live.now
        (K.taken sink.old)
        (K.taken sink.new) writer.old writer.new refused) }
    ensures memory { IfErr result
        (λ halt. halt ≡ Halt.Memory → (sink.new ≡ sink.old) × (writer.new ≡ writer.old)) }
    ensures write { IfErr result
        (λ halt. halt ≡ Halt.Write
        → spec.DoesFront live.now Command.Live live.now (K.taken sink.old)
        (K.taken sink.new) writer.old) }
    ensures sound { OnOk result (K.faults sink.new ≡ K.faults sink.old) }
    ensures failed { IfErr result
        (λ halt. halt ≡ Halt.Write → K.faults sink.new ≡ one_more (K.faults sink.old)) }
{
    let failed = everybody(live.kept().history().n());
    put_plan(alloc, live, sink, writer, &failed)
}
