//! Scripts: a whole text, and the commands that it spells.

ghost use Rattle.std.specs.Prelude.{◌≡◌, ◌+◌, ◌^◌, ◌≤◌, ◌<◌, ◌⊎◌, length, Err, IfErr, IfOk, Ok};
ghost use Rattle.std.specs.Prelude.{MatchBool};
ghost use Rattle.line_names.specs.declared.limits.TheConstants.{MOST_PROCESSES};
ghost use Rattle.line_fields.specs.declared.faults.Fault.TheVariants.{NoWorld};
ghost use Rattle.line_scripts.specs.Scripts as spec;
ghost use Rattle.line_claims.specs.Reads.{IsOfText, Reads, fault_of_record, no_memory};
ghost use Rattle.line_scripts.specs.Reads.{IsKeptMachine, IsOfScript, kept_script_view};
ghost use Rattle.line_scripts.specs.Reads.{script_view};
ghost use Rattle.line_scripts.specs.RunScripts.{read_as_run, run_script_of_text};
ghost use Rattle.line_tape.specs.StepShown as steps;

use crate::beginnings::KeptMachine;
use crate::blocks::Commands;
use crate::commands::{Command, CommandRef};
use crate::pieces::ScriptReader;
use line_claims::{TextError, TextFault, told};
use line_fields::{Fault, FieldRow, RecordReader, is_plain};
use line_names::Body;
use line_tape::{Mode, State, Step, StepRef};
use std::alloc::{AllocError, Global};

/// What a text asks of a machine.
#[derive(Debug, Drop)]
pub struct Script {
    /// How many processes the machine has: from 1 to 64 where the text is of version 1, and to
    /// `MOST_PROCESSES` where it is of version 2.
    pub n: u32,
    /// How its links deliver.
    pub mode: Mode,
    /// What it is asked to do, in this order. The command at place `i` is that of record `i + 2`.
    pub commands: Vec<Command>,
}

/// What a text asks of a machine, its commands in little memory.
#[derive(Drop)]
pub struct KeptScript {
    /// The machine that it begins with.
    pub machine: KeptMachine,
    /// The number of the record of its first command.
    pub first: u64,
    /// What the machine is asked to do, in this order.
    pub commands: Commands,
}

/// The script that a text spells for a run, in little memory: 16 bytes for a command, beside those
/// of its message or state. It begins with `world`, or with the text of a saved machine.
///
/// Refused with the first fault of the text, as `read_script` is. Whether there is a machine that
/// was saved so is not asked.
pub fn keep_script(alloc: Global, text: &[u8]) -> Result<KeptScript, TextFault>
    ensures exact { Reads kept_script_view result (run_script_of_text text.now) }
    ensures codes { IfErr result (λ fault. (fault ≡ no_memory) ⊎ IsOfText fault) }
    ensures machine { IfOk result (λ script. IsKeptMachine script.machine) }
    ensures first { IfOk result (λ script. 2 ≤ script.first) }
    ensures few { IfOk result (λ script. length script.commands + script.first < 2 ^ 64) }
{
    let mut reader = ScriptReader::new(alloc);
    match reader.take(text) {
        Ok(()) => reader.into_script(),
        Err(_) => Err(told(TextError::OutOfMemory)),
    }
}

// Whether a text begins with that of a saved machine, so that it is no script of `world`.
fn begins_saved(alloc: Global, text: &[u8]) -> Result<bool, AllocError>
    ensures { IfOk result (λ saved. MatchBool saved
        (spec.script_of_text text.now ≡ Err (fault_of_record 1 NoWorld))
        (run_script_of_text text.now ≡ read_as_run (spec.script_of_text text.now))) }
{
    if !is_plain(text) {
        return Ok(false);
    }
    let mut records = RecordReader::open(alloc, text);
    let mut row = FieldRow::new(alloc);
    if !records.next_row(&mut row)? {
        return Ok(false);
    }
    Ok(row.field(0) == b"history".as_slice())
}

// A state of its own.
fn own_state(alloc: Global, bytes: &[u8]) -> Result<State, AllocError>
    ensures { IfOk result (λ state. state ≡ bytes.now) }
{
    let own = Vec::from_slice(alloc, bytes)?;
    Ok(State::of(own))
}

// The step that is lent, with its own message, state or set.
fn own_step(alloc: Global, step: &StepRef<'_>) -> Result<Step, AllocError>
    requires { steps.HasShortBody step.now }
    ensures { IfOk result (λ own. own ≡ steps.step_of_ref step.now) }
{
    match step {
        StepRef::Send { from, to, body } => match Body::try_new(body) {
            Ok(body) => Ok(Step::Send {
                from: *from,
                to: *to,
                body,
            }),
            Err(_) => unreachable!(),
        },
        StepRef::Deliver {
            from,
            to,
            pick,
            state,
        } => Ok(Step::Deliver {
            from: *from,
            to: *to,
            pick: *pick,
            state: own_state(alloc, state)?,
        }),
        StepRef::Check { at, state } => Ok(Step::Check {
            at: *at,
            state: own_state(alloc, state)?,
        }),
        StepRef::Begin { at, state } => Ok(Step::Begin {
            at: *at,
            state: own_state(alloc, state)?,
        }),
        StepRef::Turn { at, state } => Ok(Step::Turn {
            at: *at,
            state: own_state(alloc, state)?,
        }),
        StepRef::Damage { at, check } => Ok(Step::Damage {
            at: *at,
            check: *check,
        }),
        StepRef::Bar { at, check } => Ok(Step::Bar {
            at: *at,
            check: *check,
        }),
        StepRef::Recover { failed } => Ok(Step::Recover { failed: **failed }),
    }
}

// All commands, each with its own message, state or set.
fn all_of(alloc: Global, mut commands: Commands) -> Result<Vec<Command>, AllocError>
    ensures { IfOk result (λ all. all.items ≡ commands) }
{
    let mut all = Vec::new(alloc);
    'commands: loop {
        let Some(command) = commands.first() else {
            return Ok(all);
        };
        let own = match command {
            CommandRef::Do(step) => Command::Do(own_step(alloc, &step)?),
            CommandRef::Rounds => Command::Rounds,
            CommandRef::History => Command::History,
            CommandRef::Bundle(failed) => Command::Bundle(*failed),
            CommandRef::Plan(failed) => Command::Plan(*failed),
            CommandRef::Live => Command::Live,
            CommandRef::Answer(failed) => Command::Answer(*failed),
            CommandRef::Forget(round) => Command::Forget(round),
            CommandRef::Save => Command::Save,
            CommandRef::Refused(code) => Command::Refused(code),
        };
        all.push(own)?;
        commands.drop_first();
    }
}

// The script that a text spells that does not begin with a saved machine.
fn read_new(alloc: Global, text: &[u8]) -> Result<Script, TextFault>
    requires { run_script_of_text text.now ≡ read_as_run (spec.script_of_text text.now) }
    ensures exact { Reads script_view result (spec.script_of_text text.now) }
    ensures few { IfOk result (λ script. length script.commands.items + 2 < 2 ^ 64) }
    ensures within { IfOk result (λ script. (1 ≤ script.n) × (script.n ≤ MOST_PROCESSES)) }
{
    let script = keep_script(alloc, text)?;
    let KeptMachine::New { n, mode } = script.machine else {
        unreachable!()
    };
    match all_of(alloc, script.commands) {
        Ok(commands) => Ok(Script { n, mode, commands }),
        Err(_) => Err(told(TextError::OutOfMemory)),
    }
}

/// The script that a text spells.
///
/// Refused with the first fault of the text, the records taken in their order, and the questions to
/// a record in the order in which its definition asks them. A byte that no text has is of record 0
/// and comes before all else; the first record of a text without records is missing, and so is
/// `world` in a text that begins with a saved machine, which `recline run` takes. Out of memory, at
/// any time, is the fault 0 of record 0. It takes time and memory in proportion to the text.
pub fn read_script(alloc: Global, text: &[u8]) -> Result<Script, TextFault>
    ensures exact { Reads script_view result (spec.script_of_text text.now) }
    ensures codes { IfErr result (λ fault. (fault ≡ no_memory) ⊎ IsOfScript fault) }
    ensures within { IfOk result (λ script. (1 ≤ script.n) × (script.n ≤ MOST_PROCESSES)) }
    ensures few { IfOk result (λ script. length script.commands.items + 2 < 2 ^ 64) }
{
    match begins_saved(alloc, text) {
        Ok(false) => read_new(alloc, text),
        Ok(true) => Err(TextFault {
            record_number: 1,
            code: Fault::NoWorld.code(),
        }),
        Err(_) => Err(told(TextError::OutOfMemory)),
    }
}
