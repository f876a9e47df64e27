//! The machine whose text a source gives whole, as a file does.

ghost use Rattle.std.specs.Prelude.{◌≡◌, ◌≤◌, ◌+◌, ◌-◌, ◌^◌, ◌⊎◌, ℕ, List, Err, Ok, IfErr, IfOk};
ghost use Rattle.std.specs.Prelude.{OnOk};
ghost use Rattle.line_text.specs.Openings.{opened};
ghost use Rattle.line_claims.specs.Reads.{no_memory};
ghost use Rattle.line_claims.specs.Saved.{SavedParts};
ghost use Rattle.line_text.specs.Conversations.{records_of};
ghost use Rattle.line_text.specs.Turns.{GivesText};
ghost use Rattle.line_text.specs.declared.faults.ServeError.TheVariants as errors;
ghost use Rattle.line_devices.specs.Devices.{one_more};
ghost use Rattle.line_service.specs.declared.files.TheConstants.{READ_FAULT};
ghost use Rattle.line_service.specs.Files.{saved_of_lines, IsReadOf, IsUnopenedText};

use crate::file_reads::{FileRead, FileReader, open_read};
use crate::nowhere::Nowhere;
use line_claims::TextFault;
use line_devices::Source;
use line_live::Live;
use line_text::{ServeError, hear_out};
use std::alloc::Global;

/// The number of the fault of a source that failed.
const READ_FAULT: u32 = 36;

/// A fault of no record.
fn fault_of_code(code: u32) -> TextFault
    ensures { result ≡ record { record_number = 0; code = code } }
{
    TextFault {
        record_number: 0,
        code,
    }
}

/// Reads the records of a text that a source gives, to its end.
fn read_file<S: Source>(alloc: Global, source: &mut S) -> Result<FileRead, ServeError>
    ensures done { IfOk result (λ read. (text : List ℕ)
        × GivesText text (S.left source.old) (S.left source.new) (S.given source.old)
        (S.given source.new)
        × IsReadOf (records_of text) read) }
    ensures cause { result ≡ Err errors.Read
        → (S.faults source.new ≡ one_more (S.faults source.old))
        ⊎ (S.given source.old + (2 ^ 64 - 1) ≤ S.given source.new) }
    ensures heard { OnOk result (S.faults source.new ≡ S.faults source.old) }
    ensures never { result ≡ Err errors.Write → ⊥ }
{
    let mut nowhere = Nowhere;
    match hear_out(alloc, FileReader::new(alloc), source, &mut nowhere) {
        Ok(reader) => Ok(reader.into_read()),
        Err(error) => Err(error),
    }
}

/// Opens the machine whose text a source gives, to its end. Nothing may stand after the text.
///
/// The text may be of any length: its records are taken as they come, and it is not kept. A fault
/// of the text is its first, with the number of its record: a line that is no record, as it is too
/// long or has a byte that no text has, is read as a record without fields. A text that no machine
/// has is refused at its last record. `ReadFault`, of record 0, says that the source failed. It
/// takes memory in proportion to the machine.
pub fn open_saved_text<S: Source>(alloc: Global, source: &mut S) -> Result<Live, TextFault>
    ensures ok { IfOk result (λ live. (text : List ℕ)
        × GivesText text (S.left source.old) (S.left source.new) (S.given source.old)
        (S.given source.new)
        × (parts : SavedParts) × (saved_of_lines (records_of text) ≡ Ok parts)
        × (live ≡ opened parts)) }
    ensures err { IfErr result (λ fault. (fault ≡ no_memory)
        ⊎ ((fault ≡ record { record_number = 0; code = READ_FAULT })
        × ((S.faults source.new ≡ one_more (S.faults source.old))
        ⊎ (S.given source.old + (2 ^ 64 - 1) ≤ S.given source.new)))
        ⊎ ((text : List ℕ)
        × GivesText text (S.left source.old) (S.left source.new) (S.given source.old)
        (S.given source.new)
        × IsUnopenedText (saved_of_lines (records_of text)) fault)) }
    ensures heard { OnOk result (S.faults source.new ≡ S.faults source.old) }
{
    match read_file(alloc, source) {
        Ok(read) => open_read(alloc, read),
        Err(ServeError::OutOfMemory) => Err(fault_of_code(0)),
        Err(ServeError::Read) => Err(fault_of_code(READ_FAULT)),
        Err(ServeError::Write) => unreachable!(),
    }
}
