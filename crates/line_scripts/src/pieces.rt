//! Scripts whose texts come in pieces of whole lines.

ghost use Rattle.std.specs.Prelude.{◌≡◌, ◌+◌, ◌^◌, ◌≤◌, ◌<◌, ◌++◌, ℕ, List, [], false};
ghost use Rattle.std.specs.Prelude.{length, IfErr, IfOk, IsTrue, OnOk};
ghost use Rattle.line_names.specs.declared.limits.TheConstants.{MOST_PROCESSES};
ghost use Rattle.line_fields.specs.Bytes.{is_input_text};
ghost use Rattle.line_fields.specs.Records.{Record, records_of_text};
ghost use Rattle.line_claims.specs.Readings.{EndsBefore};
ghost use Rattle.line_claims.specs.Reads.{FailsText, IsOfText, Reads, Yields};
ghost use Rattle.line_scripts.specs.Beginnings.{AreKept, has_machine, taken_of};
ghost use Rattle.line_scripts.specs.Beginnings.{IsBeginning};
ghost use Rattle.line_scripts.specs.declared.beginnings.TheConstants.{LAST_OF_SAVED};
ghost use Rattle.line_scripts.specs.Pieces as spec;
ghost use Rattle.line_scripts.specs.Reads.{IsKeptMachine, kept_script_view};
ghost use Rattle.line_scripts.specs.RunScripts.{run_script_of_text};
ghost use Rattle.line_scripts.specs.Scripts.{commands_from};

use crate::beginnings::{Beginning, found_in, take_before};
use crate::blocks::{Blocks, Commands};
use crate::scripts::KeptScript;
use line_claims::{TextError, TextFault, error_at};
use line_fields::{Fault, FieldRow, RecordReader, is_plain};
use std::alloc::{AllocError, Global};
use std::marker::Model;

// Keeps the commands of the records that are left, after those that are kept. The record of the
// first command of a script has that number.
fn keep_all<'a>(
    alloc: Global,
    n: u32,
    first: u64,
    records: &mut RecordReader<'a>,
    row: &mut FieldRow<'a>,
    commands: &mut Blocks,
) -> Result<(), TextError>
    requires few { n ≤ MOST_PROCESSES }
    requires first { first ≤ LAST_OF_SAVED }
    ensures { Yields (λ _. commands.new) result (spec.with_commands commands.old
        (commands_from n (length commands.old + first) records.old)) }
{
    'records: loop {
        if !records.next_row(row)? {
            return Ok(());
        }
        match commands.keep(alloc, n, row) {
            Ok(()) => {}
            Err(error) => return Err(error_at(commands.count() + first, error)),
        }
    }
}

// Takes records before there is a machine, and keeps the commands of those after it.
fn begin<'a>(
    alloc: Global,
    records: &mut RecordReader<'a>,
    row: &mut FieldRow<'a>,
    beginning: &mut Beginning,
    commands: &mut Blocks,
) -> Result<(), TextError>
    requires kept { IsBeginning beginning.old }
    requires before { has_machine beginning.old ≡ false }
    requires none { commands.old ≡ [] }
    ensures ok { OnOk result ((rest : List Record)
        → spec.script_left (taken_of beginning.old commands.old) (records.old ++ rest)
        ≡ spec.script_left (taken_of beginning.new commands.new) rest) }
    ensures err { IfErr result (λ error. (rest : List Record)
        → FailsText error
        (spec.script_left (taken_of beginning.old commands.old) (records.old ++ rest))) }
    ensures kept { OnOk result (AreKept beginning.new commands.new) }
{
    'records: while records.next_row(row)? {
        take_before(alloc, beginning, row)?;
        if let Some((n, first)) = found_in(beginning) {
            return keep_all(alloc, n, first, records, row, commands);
        }
    }
    Ok(())
}

// Takes the records of a piece after those that were taken.
fn take_records(
    alloc: Global,
    piece: &[u8],
    beginning: &mut Beginning,
    commands: &mut Blocks,
) -> Result<(), TextError>
    requires input { IsTrue (is_input_text piece.now) }
    requires kept { AreKept beginning.old commands.old }
    ensures ok { OnOk result ((rest : List Record)
        → spec.script_left (taken_of beginning.old commands.old)
        (records_of_text piece.now ++ rest)
        ≡ spec.script_left (taken_of beginning.new commands.new) rest) }
    ensures err { IfErr result (λ error. (rest : List Record)
        → FailsText error
        (spec.script_left (taken_of beginning.old commands.old)
        (records_of_text piece.now ++ rest))) }
    ensures kept { OnOk result (AreKept beginning.new commands.new) }
{
    let mut records = RecordReader::open(alloc, piece);
    let mut row = FieldRow::new(alloc);
    let Some((n, first)) = found_in(beginning) else {
        return begin(alloc, &mut records, &mut row, beginning, commands);
    };
    keep_all(alloc, n, first, &mut records, &mut row, commands)
}

/// Reads a script whose text comes in pieces of whole lines, the last of which may lack its line
/// feed. It begins with `world`, or with the text of a saved machine.
///
/// It keeps the saved machine and the commands, and no text. Once a record has a fault it keeps
/// that alone, and only looks at the bytes of further pieces: a byte that no text has comes before
/// all else.
#[derive(Drop)]
pub struct ScriptReader {
    alloc: Global,
    beginning: Beginning,
    commands: Blocks,
    fault: Option<TextFault>,
}

impl Model for ScriptReader {
    ghost use Rattle.std.specs.Prelude.{IfSome};
    ghost use Rattle.line_claims.specs.Reads.{IsOfText};
    ghost use Rattle.line_scripts.specs.Beginnings.{AreKept, taken_of};
    ghost use Rattle.line_scripts.specs.Pieces.{ScriptPlace};

    ghost Value = { ScriptPlace };

    ghost view = { λ s. record { taken = taken_of s.beginning s.commands; fault = s.fault } };

    ghost invariant = { λ s. AreKept s.beginning s.commands × IfSome s.fault IsOfText };
}

impl ScriptReader {
    /// A reader that has taken nothing. It takes no memory.
    pub fn new(alloc: Global) -> ScriptReader
        ensures { (text : List ℕ) → spec.script_text_left result text ≡ run_script_of_text text }
    {
        ScriptReader {
            alloc,
            beginning: Beginning::Nothing,
            commands: Blocks::new(alloc),
            fault: None,
        }
    }

    /// Takes the next piece of the text.
    ///
    /// It takes time in proportion to the piece, and memory in proportion to the saved machine and
    /// the commands. Where memory is refused what was taken is gone.
    pub fn take(&mut self, piece: &[u8]) -> Result<(), AllocError>
        ensures { OnOk result ((rest : List ℕ) → EndsBefore piece.now rest
            → spec.script_text_left self.old (piece.now ++ rest)
            ≡ spec.script_text_left self.new rest) }
    {
        if !is_plain(piece) {
            self.fault = Some(TextFault {
                record_number: 0,
                code: Fault::BadRecord.code(),
            });
            return Ok(());
        }
        if self.fault.is_some() {
            return Ok(());
        }
        match take_records(self.alloc, piece, &mut self.beginning, &mut self.commands) {
            Ok(()) => Ok(()),
            Err(error) => {
                self.beginning = Beginning::Nothing;
                self.commands = Blocks::new(self.alloc);
                match error {
                    TextError::Fault(fault) => {
                        self.fault = Some(fault);
                        Ok(())
                    }
                    TextError::OutOfMemory => Err(AllocError),
                }
            }
        }
    }

    /// The script that all pieces spell, or its first fault. It takes no memory.
    pub fn into_script(self) -> Result<KeptScript, TextFault>
        ensures exact { Reads kept_script_view result (spec.script_text_left self []) }
        ensures codes { IfErr result IsOfText }
        ensures machine { IfOk result (λ script. IsKeptMachine script.machine) }
        ensures first { IfOk result (λ script. 2 ≤ script.first) }
        ensures few { IfOk result (λ script. length script.commands + script.first < 2 ^ 64) }
    {
        let ScriptReader {
            beginning,
            commands,
            fault,
            ..
        } = self;
        if let Some(fault) = fault {
            return Err(fault);
        }
        match beginning {
            Beginning::Machine(it) => Ok(KeptScript {
                machine: it.machine,
                first: it.first,
                commands: Commands::of(commands),
            }),
            Beginning::Text(text) => Err(text.unended()),
            Beginning::Nothing => Err(TextFault {
                record_number: 1,
                code: Fault::NoWorld.code(),
            }),
        }
    }
}
