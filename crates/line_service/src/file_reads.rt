//! The text of a saved machine, as far as its lines were read.

ghost use Rattle.std.specs.Prelude.{◌≡◌, ◌⊎◌, ◌∷◌, [], ℕ, List, Err, IfErr, IfOk, Ok, OnOk};
ghost use Rattle.line_text.specs.Openings.{opened, IsUnopened};
ghost use Rattle.line_claims.specs.Reads.{FailsText, no_memory};
ghost use Rattle.line_claims.specs.Saved.{SavedParts, saved_alone};
ghost use Rattle.line_claims.specs.SavedReadings.{saved_left};
ghost use Rattle.line_fields.specs.Records.{Record};
ghost use Rattle.line_service.specs.Files.{missed_line, spelt_with, IsUnopenedText, ReadsLine};
ghost use Rattle.line_service.specs.Files.{Taken};

use crate::texts::BegunText;
use line_claims::{SavedReader, TextError, TextFault, fault_at, told};
use line_devices::Sink;
use line_fields::{Fault, FieldRow, ReadError, RecordWriter};
use line_live::Live;
use line_text::{Answerer, Outcome, Stop, open_saved};
use std::alloc::Global;
use std::marker::Model;

/// How far the text of a saved machine was read.
#[derive(Drop)]
pub(crate) enum FileRead {
    /// Nothing of it was.
    Nothing,
    /// Some of its records were.
    Text(BegunText),
    /// No more of it is read, for this fault or since memory is out.
    Stopped(TextError),
}

/// Takes the next record of a text, after whose last one none may stand.
fn take_more(text: &mut BegunText, row: &FieldRow<'_>) -> Result<(), TextError>
    ensures ok { OnOk result ((rest : List Record)
        → saved_alone (saved_left text.old.reader text.old.number (row.now ∷ rest))
        ≡ saved_alone (saved_left text.new.reader text.new.number rest)) }
    ensures err { IfErr result (λ error. (rest : List Record)
        → FailsText error
        (saved_alone (saved_left text.old.reader text.old.number (row.now ∷ rest)))) }
{
    let Some(later) = text.number.checked_add(1) else {
        return Err(TextError::OutOfMemory);
    };
    match text.reader.take(text.number, row) {
        Ok(_) => {
            text.number = later;
            Ok(())
        }
        Err(error) => Err(error),
    }
}

/// What is read of a text whose first record this is.
fn first_read(alloc: Global, row: &FieldRow<'_>) -> FileRead
    ensures { ReadsLine FileRead.Nothing (Ok row.now) Taken result }
{
    match SavedReader::begin(alloc, row) {
        Ok(reader) => FileRead::Text(BegunText { reader, number: 2 }),
        Err(error) => FileRead::Stopped(error),
    }
}

/// Reads the record of a line.
fn read_line(alloc: Global, read: &mut FileRead, row: &FieldRow<'_>)
    ensures { ReadsLine read.old (Ok row.now) Taken read.new }
{
    match read {
        FileRead::Nothing => *read = first_read(alloc, row),
        FileRead::Text(text) => match take_more(text, row) {
            Ok(()) => {}
            Err(error) => *read = FileRead::Stopped(error),
        },
        FileRead::Stopped(_) => {}
    }
}

/// Reads no more of a text, a record of which was missed.
fn stop_reading(read: &mut FileRead, error: ReadError)
    ensures { read.new ≡ missed_line error read.old }
{
    match read {
        FileRead::Stopped(_) => {}
        FileRead::Nothing => {
            *read = FileRead::Stopped(match error {
                ReadError::OutOfMemory => TextError::OutOfMemory,
                ReadError::Fault(_) => fault_at(1, Fault::NoWorld),
            });
        }
        FileRead::Text(text) => {
            let number = text.number;
            *read = FileRead::Stopped(match error {
                ReadError::OutOfMemory => TextError::OutOfMemory,
                ReadError::Fault(_) => fault_at(number, Fault::BadRecord),
            });
        }
    }
}

/// Opens the machine that records spell which were taken, after which there are no more.
#[tactic(auto, using(crate::proofs::FileLemmas::refused_unopened))]
fn open_spelt(alloc: Global, text: BegunText) -> Result<Live, TextFault>
    ensures ok { IfOk result (λ live. (parts : SavedParts)
        × (saved_alone (saved_left text.reader text.number []) ≡ Ok parts)
        × (live ≡ opened parts)) }
    ensures err { IfErr result (λ fault. (fault ≡ no_memory)
        ⊎ IsUnopenedText (saved_alone (saved_left text.reader text.number [])) fault) }
{
    let BegunText { reader, number } = text;
    match reader.into_saved(number) {
        Ok(saved) => match open_saved(alloc, &saved) {
            Ok(live) => Ok(live),
            Err(cause) => Err(told(cause.at(number.saturating_sub(1)))),
        },
        Err(fault) => Err(fault),
    }
}

/// Opens the machine that a text spells, which has ended.
pub(crate) fn open_read(alloc: Global, read: FileRead) -> Result<Live, TextFault>
    ensures ok { IfOk result (λ live. (parts : SavedParts) × (spelt_with read [] ≡ Ok parts)
        × (live ≡ opened parts)) }
    ensures err { IfErr result (λ fault. (fault ≡ no_memory)
        ⊎ IsUnopenedText (spelt_with read []) fault) }
{
    match read {
        FileRead::Nothing => Err(TextFault {
            record_number: 1,
            code: Fault::NoWorld.code(),
        }),
        FileRead::Stopped(error) => Err(told(error)),
        FileRead::Text(text) => open_spelt(alloc, text),
    }
}

/// Reads the records of a text.
#[derive(Drop)]
pub(crate) struct FileReader {
    alloc: Global,
    read: FileRead,
}

impl Model for FileReader {
    ghost use Rattle.line_service.specs.declared.file_reads.FileRead.{FileRead};

    ghost Value = { FileRead };

    ghost view = { λ s. s.read };
}

impl FileReader {
    /// One that has read nothing.
    pub fn new(alloc: Global) -> FileReader
        ensures { result ≡ FileRead.Nothing }
    {
        FileReader {
            alloc,
            read: FileRead::Nothing,
        }
    }

    /// What was read.
    pub fn into_read(self) -> FileRead
        ensures { result ≡ self }
    {
        self.read
    }
}

impl Answerer for FileReader {
    ghost use Rattle.std.specs.Prelude.{refl};
    ghost use Rattle.line_service.specs.Files.{FileAnswer, Missed, file_rules, missed_line};
    ghost use Rattle.line_service.specs.FileLaws.{out_of_memory_in_file, no_record_in_file};

    ghost Answer = { FileAnswer };

    ghost rules = { file_rules };

    ghost faulted = { Missed };

    ghost missed = { missed_line };

    fn answer<K: Sink>(
        &mut self,
        row: &FieldRow<'_>,
        _sink: &mut K,
        _writer: &mut RecordWriter,
    ) -> Result<Outcome, Stop> {
        read_line(self.alloc, &mut self.read, row);
        Ok(Outcome::Done)
    }

    fn miss(&mut self, error: ReadError) {
        stop_reading(&mut self.read, error);
    }

    ghost bad_record = { no_record_in_file };

    ghost no_memory = { out_of_memory_in_file };

    ghost fault_records = { λ _. refl };

    ghost fault_outcome = { λ _. refl };
}
