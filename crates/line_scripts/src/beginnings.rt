//! What a script begins with: `world`, or the text of a saved machine, taken record by record.

ghost use Rattle.std.specs.Prelude.{◌≡◌, ◌+◌, ◌≤◌, List, [], IfNone, IfOk, IfSome, OnOk, codes};
ghost use Rattle.std.specs.Prelude.{false, true};
ghost use Rattle.line_names.specs.declared.limits.TheConstants.{MOST_PROCESSES};
ghost use Rattle.line_fields.specs.declared.faults.Fault.TheVariants.{BadRecord};
ghost use Rattle.line_claims.specs.Parts.{is_named};
ghost use Rattle.line_claims.specs.Reads.{fault_of_record};
ghost use Rattle.line_claims.specs.SavedReadings.{is_whole, saved_left};
ghost use Rattle.line_claims.specs.Stages.{Goes};
ghost use Rattle.line_fields.specs.Records.{Record};
ghost use Rattle.line_scripts.specs.Beginnings as spec;
ghost use Rattle.line_scripts.specs.Pieces.{script_left};
ghost use Rattle.line_scripts.specs.Reads.{IsKeptMachine, machine_view};
ghost use Rattle.line_scripts.specs.RunScripts.{Saved, processes_of};

use crate::commands::world_of;
use line_claims::{SavedReader, SavedText, TextError, TextFault, fault_at};
use line_fields::{Fault, FieldRow};
use line_tape::Mode;
use std::alloc::Global;
use std::mem;

/// The number of the last record that the text of a saved machine may have here. With the commands
/// after it, records are counted in 64 bits.
const LAST_OF_SAVED: u64 = 9_223_372_036_854_775_808;

/// The machine that a script begins with.
#[derive(Drop)]
pub enum KeptMachine {
    /// A new one.
    New {
        /// How many processes it has: from 1 to 64 where the text is of version 1, and to
        /// `MOST_PROCESSES` where it is of version 2.
        n: u32,
        /// How its links deliver.
        mode: Mode,
    },
    /// One that was saved. Whether there is such a machine is not asked.
    Saved(SavedText),
}

impl KeptMachine {
    // How many processes it has.
    fn n(&self) -> u32
        requires { IsKeptMachine self.now }
        ensures value { result ≡ processes_of (machine_view self.now) }
        ensures few { result ≤ MOST_PROCESSES }
    {
        match self {
            KeptMachine::New { n, .. } => *n,
            KeptMachine::Saved(text) => text.history.n(),
        }
    }
}

/// A saved machine, the first records of whose text were taken.
#[derive(Drop)]
pub(crate) struct TakenText {
    reader: SavedReader,
    // The number of its next record.
    number: u64,
}

impl TakenText {
    /// The fault that its next record is missing.
    pub(crate) fn unended(&self) -> TextFault
        ensures { result ≡ fault_of_record self.now.number BadRecord }
    {
        TextFault {
            record_number: self.number,
            code: Fault::BadRecord.code(),
        }
    }
}

/// The machine of a script.
#[derive(Drop)]
pub(crate) struct TakenMachine {
    pub machine: KeptMachine,
    /// The number of the record of its first command.
    pub first: u64,
}

/// What was taken of a script before its commands.
#[derive(Drop)]
pub(crate) enum Beginning {
    /// Nothing.
    Nothing,
    /// The first records of a saved machine.
    Text(TakenText),
    /// The machine.
    Machine(TakenMachine),
}

// Begins the text of a saved machine.
fn begin_text(alloc: Global, beginning: &mut Beginning, row: &FieldRow<'_>) -> Result<(), TextError>
    requires none { beginning.old ≡ Beginning.Nothing }
    requires named { is_named (codes "history") row.now ≡ true }
    ensures exact { Goes result (script_left (spec.taken_of beginning.old []))
        (λ _. script_left (spec.taken_of beginning.new [])) row.now }
    ensures kept { OnOk result (spec.IsBeginning beginning.new) }
{
    match SavedReader::begin(alloc, row) {
        Ok(reader) => {
            *beginning = Beginning::Text(TakenText { reader, number: 2 });
            Ok(())
        }
        Err(error) => Err(error),
    }
}

// Takes `world`.
fn begin_world(beginning: &mut Beginning, row: &FieldRow<'_>) -> Result<(), TextError>
    requires none { beginning.old ≡ Beginning.Nothing }
    requires other { is_named (codes "history") row.now ≡ false }
    ensures exact { Goes result (script_left (spec.taken_of beginning.old []))
        (λ _. script_left (spec.taken_of beginning.new [])) row.now }
    ensures kept { OnOk result (spec.IsBeginning beginning.new) }
{
    match world_of(row) {
        Ok((n, mode)) => {
            *beginning = Beginning::Machine(TakenMachine {
                machine: KeptMachine::New { n, mode },
                first: 2,
            });
            Ok(())
        }
        Err(fault) => Err(fault_at(1, fault)),
    }
}

// Takes the first record. It stands apart, and so does what ends a text: both move large values,
// and a text has many records between them.
#[inline(never)]
fn begin(alloc: Global, beginning: &mut Beginning, row: &FieldRow<'_>) -> Result<(), TextError>
    requires { beginning.old ≡ Beginning.Nothing }
    ensures exact { Goes result (script_left (spec.taken_of beginning.old []))
        (λ _. script_left (spec.taken_of beginning.new [])) row.now }
    ensures kept { OnOk result (spec.IsBeginning beginning.new) }
{
    if row.field(0) == b"history".as_slice() {
        return begin_text(alloc, beginning, row);
    }
    begin_world(beginning, row)
}

// Takes the next record of a text that has not ended, and says whether it was the last one.
fn take_row(text: &mut TakenText, row: &FieldRow<'_>) -> Result<bool, TextError>
    requires { is_whole text.old.reader ≡ false }
    ensures goes { Goes result (saved_left text.old.reader text.old.number)
        (λ _. saved_left text.new.reader text.new.number) row.now }
    ensures last { IfOk result (λ last. last ≡ is_whole text.new.reader) }
    ensures number { OnOk result (text.new.number ≡ text.old.number + 1) }
    ensures few { OnOk result (text.new.number ≤ LAST_OF_SAVED) }
{
    if text.number >= LAST_OF_SAVED {
        return Err(TextError::OutOfMemory);
    }
    match text.reader.take(text.number, row) {
        Ok(last) => {
            text.number += 1;
            Ok(last)
        }
        Err(error) => Err(error),
    }
}

// The machine that a text spells.
fn machine_of(text: TakenText) -> TakenMachine
    requires { is_whole text.reader ≡ true }
    ensures machine { machine_view result.machine ≡ Saved text.reader.parts }
    ensures first { result.first ≡ text.number }
    ensures kept { IsKeptMachine result.machine }
{
    let TakenText { reader, number } = text;
    match reader.into_saved(number) {
        Ok(saved) => TakenMachine {
            machine: KeptMachine::Saved(saved),
            first: number,
        },
        Err(_) => unreachable!(),
    }
}

// Ends a text whose last record was taken.
#[inline(never)]
fn end_text(beginning: &mut Beginning)
    requires { spec.IsAtEnd beginning.old }
    ensures same { (records : List Record)
        → script_left (spec.taken_of beginning.old []) records
        ≡ script_left (spec.taken_of beginning.new []) records }
    ensures kept { spec.IsBeginning beginning.new }
{
    match mem::replace(beginning, Beginning::Nothing) {
        Beginning::Text(text) => *beginning = Beginning::Machine(machine_of(text)),
        _ => unreachable!(),
    }
}

// Takes the next record of a text of a saved machine.
fn take_next(beginning: &mut Beginning, row: &FieldRow<'_>) -> Result<(), TextError>
    requires kept { spec.IsBeginning beginning.old }
    requires text { spec.IsInText beginning.old }
    ensures exact { Goes result (script_left (spec.taken_of beginning.old []))
        (λ _. script_left (spec.taken_of beginning.new [])) row.now }
    ensures kept { OnOk result (spec.IsBeginning beginning.new) }
{
    let Beginning::Text(text) = beginning else {
        unreachable!()
    };
    match take_row(text, row) {
        Ok(false) => Ok(()),
        Ok(true) => {
            end_text(beginning);
            Ok(())
        }
        Err(error) => Err(error),
    }
}

/// How many processes the machine has, and the number of the record of its first command, once
/// there is a machine.
pub(crate) fn found_in(beginning: &Beginning) -> Option<(u32, u64)>
    requires { spec.IsBeginning beginning.now }
    ensures some { IfSome result (spec.HasFound beginning.now) }
    ensures few { IfSome result
        (λ found. (found.0 ≤ MOST_PROCESSES) × (found.1 ≤ LAST_OF_SAVED)) }
    ensures none { IfNone result (spec.has_machine beginning.now ≡ false) }
{
    match beginning {
        Beginning::Machine(it) => Some((it.machine.n(), it.first)),
        Beginning::Text(_) => None,
        Beginning::Nothing => None,
    }
}

/// Takes a record before there is a machine. After a refusal what was taken is left open.
#[inline(never)]
pub(crate) fn take_before(
    alloc: Global,
    beginning: &mut Beginning,
    row: &FieldRow<'_>,
) -> Result<(), TextError>
    requires kept { spec.IsBeginning beginning.old }
    requires before { spec.has_machine beginning.old ≡ false }
    ensures exact { Goes result (script_left (spec.taken_of beginning.old []))
        (λ _. script_left (spec.taken_of beginning.new [])) row.now }
    ensures kept { OnOk result (spec.IsBeginning beginning.new) }
{
    match beginning {
        Beginning::Nothing => begin(alloc, beginning, row),
        Beginning::Text(_) => take_next(beginning, row),
        Beginning::Machine(_) => unreachable!(),
    }
}
