//! One command: it is done, and what it is told is written.

ghost use Rattle.std.specs.Prelude.{◌≡◌, IfErr, IfOk, OnOk};
ghost use Rattle.line_text.specs.Answers as spec;
ghost use Rattle.line_devices.specs.Devices.{one_more};
ghost use Rattle.line_scripts.specs.Shown.{HasShortBodyInStep, command_of_ref};
ghost use Rattle.line_tape.specs.StepShown.{HasShortBody, step_of_ref};

use crate::forgets::put_forgot;
use crate::halts::Halt;
use crate::listings::put_rounds;
use crate::replies::{put_refusal, put_reply};
use crate::saves::put_saved_machine;
use crate::texts::{put_claimed, put_shown};
use crate::views::{put_live, put_plan, put_whole_answer};
use line_claims::ClaimRef;
use line_devices::Sink;
use line_fields::{Fault, RecordWriter};
use line_live::Live;
use line_names::ProcSet;
use line_scripts::{Command, CommandRef};
use line_tape::StepRef;
use std::alloc::Global;

// Writes the check text of the machine's history, damage and bars, with the plan for these failed
// processes. It is kept apart, since a plan has room for a whole line.
#[inline(never)]
fn bundle<K: Sink>(
    alloc: Global,
    live: &Live,
    sink: &mut K,
    writer: &mut RecordWriter,
    failed: &ProcSet,
) -> Result<bool, Halt>
    ensures ok { IfOk result
        (λ refused. spec.DoesCommand live.now (Command.Bundle failed.now) live.now
        (K.taken sink.old)
        (K.taken sink.new) writer.old writer.new refused) }
    ensures memory { IfErr result
        (λ halt. halt ≡ Halt.Memory → (sink.new ≡ sink.old) × (writer.new ≡ writer.old)) }
    ensures write { IfErr result
        (λ halt. halt ≡ Halt.Write
        → spec.DoesFront live.now (Command.Bundle failed.now) live.now (K.taken sink.old)
        (K.taken sink.new) writer.old) }
    ensures sound { OnOk result (K.faults sink.new ≡ K.faults sink.old) }
    ensures failed { IfErr result
        (λ halt. halt ≡ Halt.Write → K.faults sink.new ≡ one_more (K.faults sink.old)) }
{
    let world = live.kept();
    match world.plan_for(alloc, failed) {
        Ok(plan) => {
            let claim = ClaimRef {
                marks: world.marks(),
                failed,
                line: &plan.line,
                certificate: plan.certificate.as_slice(),
            };
            put_claimed(sink, writer, live, &claim)?;
            Ok(false)
        }
        Err(error) => {
            if error.is_out_of_memory() {
                return Err(Halt::Memory);
            }
            put_refusal(sink, writer, Fault::NoSuchProcess.code())?;
            Ok(true)
        }
    }
}

// Does a step, writes what it is told, and says whether it was refused.
//
// What comes of the step is lent to what writes it: it is a large value, and moving it takes as
// long as some steps do.
#[inline(always)]
fn do_step<K: Sink>(
    alloc: Global,
    live: &mut Live,
    sink: &mut K,
    writer: &mut RecordWriter,
    step: &StepRef<'_>,
) -> Result<bool, Halt>
    requires { HasShortBody step.now }
    ensures ok { IfOk result
        (λ refused. spec.DoesCommand live.old (Command.Do (step_of_ref step.now)) live.new
        (K.taken sink.old)
        (K.taken sink.new) writer.old writer.new refused) }
    ensures memory { IfErr result
        (λ halt. halt ≡ Halt.Memory
        → (live.new ≡ live.old) × (sink.new ≡ sink.old) × (writer.new ≡ writer.old)) }
    ensures write { IfErr result
        (λ halt. halt ≡ Halt.Write
        → spec.DoesFront live.old (Command.Do (step_of_ref step.now)) live.new
        (K.taken sink.old)
        (K.taken sink.new) writer.old) }
    ensures sound { OnOk result (K.faults sink.new ≡ K.faults sink.old) }
    ensures failed { IfErr result
        (λ halt. halt ≡ Halt.Write → K.faults sink.new ≡ one_more (K.faults sink.old)) }
{
    let told = live.step_lent(alloc, step);
    match &told {
        Ok(reply) => {
            put_reply(sink, writer, reply)?;
            Ok(false)
        }
        Err(error) => {
            if error.is_out_of_memory() {
                return Err(Halt::Memory);
            }
            put_refusal(sink, writer, error.code())?;
            Ok(true)
        }
    }
}

// Does a step as `do_step` does, where something was let go. It stands apart, so that a machine
// that keeps all does not pay for replies that are brought back.
#[inline(never)]
fn do_kept_step<K: Sink>(
    alloc: Global,
    live: &mut Live,
    sink: &mut K,
    writer: &mut RecordWriter,
    step: &StepRef<'_>,
) -> Result<bool, Halt>
    requires { HasShortBody step.now }
    ensures ok { IfOk result
        (λ refused. spec.DoesCommand live.old (Command.Do (step_of_ref step.now)) live.new
        (K.taken sink.old)
        (K.taken sink.new) writer.old writer.new refused) }
    ensures memory { IfErr result
        (λ halt. halt ≡ Halt.Memory
        → (live.new ≡ live.old) × (sink.new ≡ sink.old) × (writer.new ≡ writer.old)) }
    ensures write { IfErr result
        (λ halt. halt ≡ Halt.Write
        → spec.DoesFront live.old (Command.Do (step_of_ref step.now)) live.new
        (K.taken sink.old)
        (K.taken sink.new) writer.old) }
    ensures sound { OnOk result (K.faults sink.new ≡ K.faults sink.old) }
    ensures failed { IfErr result
        (λ halt. halt ≡ Halt.Write → K.faults sink.new ≡ one_more (K.faults sink.old)) }
{
    do_step(alloc, live, sink, writer, step)
}

/// Does a command, writes what it is told after what a writer holds, and says whether it was
/// refused.
///
/// Memory is asked for before the command is done and before anything is written: where it does not
/// suffice the machine, the sink and the writer are as they were. What a command that was done is
/// told is written without memory, and put where the writer has no room for it. Where the sink
/// fails, a prefix of what was held and of what the command was told is put.
#[inline(always)]
pub fn do_command<K: Sink>(
    alloc: Global,
    live: &mut Live,
    sink: &mut K,
    writer: &mut RecordWriter,
    command: &CommandRef<'_>,
) -> Result<bool, Halt>
    requires { HasShortBodyInStep command.now }
    ensures ok { IfOk result
        (λ refused. spec.DoesCommand live.old (command_of_ref command.now) live.new
        (K.taken sink.old)
        (K.taken sink.new) writer.old writer.new refused) }
    ensures memory { IfErr result
        (λ halt. halt ≡ Halt.Memory
        → (live.new ≡ live.old) × (sink.new ≡ sink.old) × (writer.new ≡ writer.old)) }
    ensures write { IfErr result
        (λ halt. halt ≡ Halt.Write
        → spec.DoesFront live.old (command_of_ref command.now) live.new (K.taken sink.old)
        (K.taken sink.new) writer.old) }
    ensures sound { OnOk result (K.faults sink.new ≡ K.faults sink.old) }
    ensures failed { IfErr result
        (λ halt. halt ≡ Halt.Write → K.faults sink.new ≡ one_more (K.faults sink.old)) }
{
    match command {
        CommandRef::Refused(code) => {
            put_refusal(sink, writer, *code)?;
            Ok(true)
        }
        CommandRef::Rounds => {
            let world = live.kept();
            put_rounds(
                sink,
                writer,
                live.floor(),
                world.history().n(),
                world.rounds(),
            )?;
            Ok(false)
        }
        CommandRef::History => {
            put_shown(sink, writer, live)?;
            Ok(false)
        }
        CommandRef::Bundle(failed) => bundle(alloc, live, sink, writer, failed),
        CommandRef::Do(step) => {
            if !live.keeps_all() {
                return do_kept_step(alloc, live, sink, writer, step);
            }
            do_step(alloc, live, sink, writer, step)
        }
        CommandRef::Plan(failed) => put_plan(alloc, live, sink, writer, failed),
        CommandRef::Live => put_live(alloc, live, sink, writer),
        CommandRef::Answer(failed) => put_whole_answer(alloc, live, sink, writer, failed),
        CommandRef::Forget(round) => put_forgot(alloc, live, sink, writer, *round),
        CommandRef::Save => put_saved_machine(live, sink, writer),
    }
}
