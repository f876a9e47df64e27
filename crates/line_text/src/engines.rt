//! Scripts that are run: a text in, the text of the replies out.

ghost use Rattle.std.specs.Prelude.{◌≡◌, ◌≢◌, ◌<◌, ◌≤◌, ◌+◌, ◌^◌, ◌⊎◌, ℕ, List, [], Err, Ok};
ghost use Rattle.std.specs.Prelude.{length, IfOk, IfErr, OnOk};
ghost use Rattle.line_devices.specs.Devices.{Puts, PutsButEnd, one_more};
ghost use Rattle.line_devices.specs.Reads.{GivesAll, IsTooLong};
ghost use Rattle.line_names.specs.declared.limits.TheConstants.{MOST_PROCESSES};
ghost use Rattle.line_claims.specs.Reads.{IsOfText, no_memory};
ghost use Rattle.line_text.specs.declared.ends.TheConstants.{READ_FAULT, WRITE_FAULT};
ghost use Rattle.line_live.specs.Lives.{start_live};
ghost use Rattle.line_scripts.specs.Reads.{IsKeptMachine, kept_script_view, machine_view};
ghost use Rattle.line_scripts.specs.RunScripts.{run_script_of_text};
ghost use Rattle.line_text.specs.Inputs.{HearsEnd};
ghost use Rattle.line_text.specs.Runs as spec;

use crate::commands::do_command;
use crate::ends::{WRITE_FAULT, fault_of_code, put};
use crate::halts::Halt;
use crate::openings::open_saved;
use crate::windows::read_lines;
use line_claims::{TextFault, told};
use line_devices::{Sink, Source};
use line_fields::RecordWriter;
use line_live::Live;
use line_scripts::{Commands, KeptMachine, KeptScript, ScriptReader};
use line_tape::{CountError, Mode};
use std::alloc::Global;

// Why commands were not done to their end.
#[derive(Clone, Copy)]
enum RunStop {
    // Memory did not suffice for the command after so many.
    Memory(u64),
    // The sink failed.
    Write,
}

/// A script that was run to its end.
#[derive(Clone, Copy, Debug, PartialEq, Eq)]
pub struct Done {
    /// How many commands were refused.
    pub refused: u64,
}

// Does the commands one after another, and puts the text of what they are told but for an end,
// which it leaves with the writer. It answers how many were refused.
fn do_commands<K: Sink>(
    alloc: Global,
    world: &mut Live,
    commands: &mut Commands,
    sink: &mut K,
    writer: &mut RecordWriter,
) -> Result<u64, RunStop>
    requires empty { writer.old ≡ [] }
    requires few { length commands.old < 2 ^ 64 }
    ensures ok { IfOk result
        (λ refused. spec.IsRunTo world.old commands.old (length commands.old) world.new refused
        (K.taken sink.old) (K.taken sink.new) writer.new) }
    ensures err { IfErr result
        (λ stop. spec.Stops stop world.old commands.old (K.taken sink.old) (K.taken sink.new)
        (PutsButEnd (K.taken sink.old) (K.taken sink.new) writer.new)) }
    ensures sound { OnOk result (K.faults sink.new ≡ K.faults sink.old) }
    ensures blamed { IfErr result
        (λ stop. spec.Blames stop (K.faults sink.old) (K.faults sink.new)) }
{
    let mut refused = 0u64;
    let mut done = 0u64;
    'commands: loop {
        let Some(command) = commands.first() else {
            return Ok(refused);
        };
        match do_command(alloc, world, sink, writer, &command) {
            Ok(told) => refused += told as u64,
            Err(Halt::Memory) => return Err(RunStop::Memory(done)),
            Err(Halt::Write) => return Err(RunStop::Write),
        }
        commands.drop_first();
        done += 1;
    }
}

// Does the commands one after another, and puts the text of what they are told. It answers how many
// were refused. The record of the first command has that number.
fn run_commands<K: Sink>(
    alloc: Global,
    world: &mut Live,
    first: u64,
    commands: &mut Commands,
    sink: &mut K,
    writer: &mut RecordWriter,
) -> Result<u64, TextFault>
    requires empty { writer.old ≡ [] }
    requires few { length commands.old + first < 2 ^ 64 }
    ensures ok { IfOk result
        (λ refused. spec.Runs world.old commands.old refused (K.taken sink.old)
        (K.taken sink.new)) }
    ensures write { IfErr result (λ fault. fault.code ≡ WRITE_FAULT
        → (fault.record_number ≡ 0) × (K.faults sink.new ≡ one_more (K.faults sink.old))
        × spec.RunsFront world.old commands.old (K.taken sink.old) (K.taken sink.new)) }
    ensures memory { IfErr result
        (λ fault. fault.code ≡ 0
        → (done : ℕ) × (fault.record_number ≡ first + done)
        × spec.StopsAt world.old commands.old done (Puts (K.taken sink.old) (K.taken sink.new))) }
    ensures codes { IfErr result (λ fault. (fault.code ≡ 0) ⊎ (fault.code ≡ WRITE_FAULT)) }
    ensures sound { OnOk result (K.faults sink.new ≡ K.faults sink.old) }
{
    match do_commands(alloc, world, commands, sink, writer) {
        Ok(refused) => match put(sink, writer.text()) {
            Ok(()) => Ok(refused),
            Err(_) => Err(fault_of_code(WRITE_FAULT)),
        },
        Err(RunStop::Memory(done)) => match put(sink, writer.text()) {
            Ok(()) => Err(TextFault {
                record_number: first + done,
                code: 0,
            }),
            Err(_) => Err(fault_of_code(WRITE_FAULT)),
        },
        Err(RunStop::Write) => Err(fault_of_code(WRITE_FAULT)),
    }
}

// Runs commands in a machine that has begun, and that ends with them.
fn run_begun<K: Sink>(
    alloc: Global,
    mut world: Live,
    first: u64,
    mut commands: Commands,
    sink: &mut K,
    mut writer: RecordWriter,
) -> Result<u64, TextFault>
    requires empty { writer ≡ [] }
    requires few { length commands + first < 2 ^ 64 }
    ensures ok { IfOk result
        (λ refused. spec.Runs world commands refused (K.taken sink.old) (K.taken sink.new)) }
    ensures write { IfErr result (λ fault. fault.code ≡ WRITE_FAULT
        → (fault.record_number ≡ 0) × (K.faults sink.new ≡ one_more (K.faults sink.old))
        × spec.RunsFront world commands (K.taken sink.old) (K.taken sink.new)) }
    ensures memory { IfErr result
        (λ fault. fault.code ≡ 0
        → (done : ℕ) × (fault.record_number ≡ first + done)
        × spec.StopsAt world commands done (Puts (K.taken sink.old) (K.taken sink.new))) }
    ensures codes { IfErr result (λ fault. (fault.code ≡ 0) ⊎ (fault.code ≡ WRITE_FAULT)) }
    ensures sound { OnOk result (K.faults sink.new ≡ K.faults sink.old) }
{
    run_commands(alloc, &mut world, first, &mut commands, sink, &mut writer)
}

// A new machine.
fn new_machine(alloc: Global, n: u32, mode: Mode) -> Result<Live, TextFault>
    requires { (1 ≤ n) × (n ≤ MOST_PROCESSES) }
    ensures ok { IfOk result (λ world. world ≡ start_live n mode) }
    ensures err { IfErr result (λ fault. fault ≡ no_memory) }
{
    match Live::new(alloc, n, mode) {
        Ok(world) => Ok(world),
        Err(CountError::OutOfMemory) => Err(fault_of_code(0)),
        Err(CountError::BadCount) => unreachable!(),
    }
}

// The machine that a script begins with, the record of whose first command has that number. Of the
// text of a saved one nothing is kept.
fn machine_of(alloc: Global, machine: KeptMachine, first: u64) -> Result<Live, TextFault>
    requires kept { IsKeptMachine machine }
    requires first { 2 ≤ first }
    ensures ok { IfOk result (λ world. world ≡ spec.begun_with (machine_view machine)) }
    ensures err { IfErr result
        (λ fault. (fault ≡ no_memory) ⊎ spec.IsUnbegun (machine_view machine) first fault) }
{
    match machine {
        KeptMachine::New { n, mode } => new_machine(alloc, n, mode),
        KeptMachine::Saved(text) => match open_saved(alloc, &text) {
            Ok(world) => Ok(world),
            Err(cause) => Err(told(cause.at(first - 1))),
        },
    }
}

// Runs a script from its start. It makes the machine and the room for the text of what its commands
// are told, and lends both to what does them.
fn run_script<K: Sink>(alloc: Global, script: KeptScript, sink: &mut K) -> Result<u64, TextFault>
    requires machine { IsKeptMachine script.machine }
    requires first { 2 ≤ script.first }
    requires few { length script.commands + script.first < 2 ^ 64 }
    ensures ok { IfOk result
        (λ refused. spec.Runs (spec.begun_with (machine_view script.machine)) script.commands
        refused (K.taken sink.old) (K.taken sink.new)) }
    ensures unbegun { IfErr result (λ fault. spec.IsOfRun fault
        → (sink.new ≡ sink.old) × spec.IsUnbegun (machine_view script.machine) script.first fault) }
    ensures write { IfErr result (λ fault. fault.code ≡ WRITE_FAULT
        → (fault.record_number ≡ 0) × (K.faults sink.new ≡ one_more (K.faults sink.old))
        × spec.RunsFront (spec.begun_with (machine_view script.machine)) script.commands
        (K.taken sink.old) (K.taken sink.new)) }
    ensures memory { IfErr result (λ fault. fault.code ≡ 0
        → ((fault.record_number ≡ 0) × (sink.new ≡ sink.old))
        ⊎ ((done : ℕ) × (fault.record_number ≡ script.first + done)
        × spec.StopsAt (spec.begun_with (machine_view script.machine)) script.commands done
        (Puts (K.taken sink.old) (K.taken sink.new)))) }
    ensures codes { IfErr result
        (λ fault. (fault.code ≡ 0) ⊎ (fault.code ≡ WRITE_FAULT) ⊎ spec.IsOfRun fault) }
    ensures sound { OnOk result (K.faults sink.new ≡ K.faults sink.old) }
{
    let Ok(writer) = RecordWriter::with_room(alloc) else {
        return Err(fault_of_code(0));
    };
    let KeptScript {
        machine,
        first,
        commands,
    } = script;
    let world = machine_of(alloc, machine, first)?;
    run_begun(alloc, world, first, commands, sink, writer)
}

// The script that the whole input spells. No text of the input is kept.
fn script_of<S: Source>(alloc: Global, source: &mut S) -> Result<KeptScript, TextFault>
    ensures spelt { IfOk result
        (λ script. (text : List ℕ)
        × GivesAll text (S.left source.old) (S.left source.new) (S.given source.old)
        (S.given source.new)
        × (run_script_of_text text ≡ Ok (kept_script_view script))) }
    ensures machine { IfOk result (λ script. IsKeptMachine script.machine) }
    ensures first { IfOk result (λ script. 2 ≤ script.first) }
    ensures few { IfOk result (λ script. length script.commands + script.first < 2 ^ 64) }
    ensures text { IfErr result (λ fault. IsOfText fault
        → (text : List ℕ)
        × GivesAll text (S.left source.old) (S.left source.new) (S.given source.old)
        (S.given source.new)
        × (run_script_of_text text ≡ Err fault)) }
    ensures read { IfErr result (λ fault. fault.code ≡ READ_FAULT
        → (S.faults source.new ≡ one_more (S.faults source.old))
        ⊎ IsTooLong (S.left source.old) (S.given source.old) (S.given source.new)) }
    ensures codes { IfErr result
        (λ fault. (fault ≡ no_memory)
        ⊎ (fault ≡ record { record_number = 0; code = READ_FAULT })
        ⊎ IsOfText fault) }
    ensures heard { OnOk result (S.faults source.new ≡ S.faults source.old) }
    ensures told { IfErr result
        (λ fault. fault.code ≢ READ_FAULT → S.faults source.new ≡ S.faults source.old) }
    ensures ended { HearsEnd result (S.ends source.old) (S.ends source.new) }
{
    let mut reader = ScriptReader::new(alloc);
    read_lines(alloc, source, &mut reader)?;
    reader.into_script()
}

/// Reads a script, runs it, and writes the replies.
///
/// It begins with `world`, or with the text of a saved machine, which is opened. The whole script
/// is read, and every fault of it found, before the machine is opened and the first command runs. A
/// fault of the text is the first one, with the number of its record. Where there is none, but no
/// machine has what was saved, the refusal of `open_saved` is of the last record of the saved text.
/// `ReadFault` says that the source failed or that the input is too long, and `WriteFault` that the
/// sink failed, both of record 0. Where memory does not suffice for a command, the fault 0 has the
/// number of its record, and elsewhere record 0. Among a given number of processes it takes memory
/// in proportion to the input, and beside that what the channels of all listed rounds hold: where
/// many messages stay in transit through many rounds that is the product of both. It puts the
/// replies in pieces of some 64 KiB, also within a history, a bundle or listed rounds, and holds no
/// more of them than such a piece and a record.
pub fn run_text<S: Source, K: Sink>(
    alloc: Global,
    source: &mut S,
    sink: &mut K,
) -> Result<Done, TextFault>
    // What the source gave, to its end and within the limit, is a script that was run.
    ensures done { IfOk result
        (λ done. (text : List ℕ)
        × GivesAll text (S.left source.old) (S.left source.new) (S.given source.old)
        (S.given source.new)
        × spec.RunsText text done.refused (K.taken sink.old) (K.taken sink.new)) }

    // A fault of the text is its first, or the refusal of the machine that was saved, and then
    // nothing is written.
    ensures text { IfErr result (λ fault. spec.IsOfRun fault
        → (sink.new ≡ sink.old)
        × ((text : List ℕ)
        × GivesAll text (S.left source.old) (S.left source.new) (S.given source.old)
        (S.given source.new)
        × spec.IsUnrunText text fault)) }

    // So it is where the source failed or the input is too long.
    ensures read { IfErr result (λ fault. fault.code ≡ READ_FAULT
        → (fault.record_number ≡ 0) × (sink.new ≡ sink.old)
        × ((S.faults source.new ≡ one_more (S.faults source.old))
        ⊎ IsTooLong (S.left source.old) (S.given source.old) (S.given source.new))) }

    // Where the sink failed, what it took is a prefix of the replies.
    ensures write { IfErr result (λ fault. fault.code ≡ WRITE_FAULT
        → (fault.record_number ≡ 0) × (K.faults sink.new ≡ one_more (K.faults sink.old))
        × ((text : List ℕ)
        × GivesAll text (S.left source.old) (S.left source.new) (S.given source.old)
        (S.given source.new)
        × spec.RunsTextFront text (K.taken sink.old) (K.taken sink.new))) }

    // Out of memory is of no record, and nothing is written, or it is of a command, and the replies
    // to those before it are written, and perhaps a prefix of its own.
    ensures memory { IfErr result (λ fault. fault.code ≡ 0
        → ((fault.record_number ≡ 0) × (sink.new ≡ sink.old))
        ⊎ ((text : List ℕ)
        × GivesAll text (S.left source.old) (S.left source.new) (S.given source.old)
        (S.given source.new)
        × spec.StopsText text fault.record_number (K.taken sink.old) (K.taken sink.new))) }

    // There are no other faults, a sound sink is not blamed, and no failure of the source is passed
    // over.
    ensures codes { IfErr result (λ fault. (fault.code ≡ 0) ⊎ (fault.code ≡ READ_FAULT)
        ⊎ (fault.code ≡ WRITE_FAULT) ⊎ spec.IsOfRun fault) }
    ensures sound { OnOk result (K.faults sink.new ≡ K.faults sink.old) }
    ensures heard { OnOk result (S.faults source.new ≡ S.faults source.old) }
    ensures told { IfErr result
        (λ fault. fault.code ≢ READ_FAULT → S.faults source.new ≡ S.faults source.old) }

    // Once the source said that nothing is left, it is asked no more.
    ensures ended { HearsEnd result (S.ends source.old) (S.ends source.new) }
{
    let script = script_of(alloc, source)?;
    match run_script(alloc, script, sink) {
        Ok(refused) => Ok(Done { refused }),
        Err(fault) => Err(fault),
    }
}
