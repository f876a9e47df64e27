//! The whole text of a saved machine.

ghost use Rattle.std.specs.Prelude.{◌≡◌, ◌<◌, ◌≤◌, ◌+◌, ◌^◌, ◌⊎◌, [], Err, IfErr, IfOk, Ok, length};
ghost use Rattle.line_claims.specs.Reads.{FailsText, no_memory};
ghost use Rattle.line_claims.specs.Saved.{saved_alone, saved_of_text};
ghost use Rattle.line_claims.specs.SavedReadings.{saved_left, saved_view};

use crate::faults::{TextError, TextFault, fault_at, told};
use crate::saved_readers::SavedReader;
use crate::saved_rounds::SavedText;
use crate::texts::open;
use line_fields::{Fault, FieldRow, RecordReader};
use std::alloc::Global;

// Takes the records of a saved machine after the first, and answers the number of the one that
// would come next.
fn take_left<'a>(
    reader: &mut SavedReader,
    records: &mut RecordReader<'a>,
    row: &mut FieldRow<'a>,
) -> Result<u64, TextError>
    requires { length records.old + 2 < 2 ^ 64 }
    ensures ok { IfOk result (λ number. saved_alone (saved_left reader.old 2 records.old)
        ≡ saved_alone (saved_left reader.new number [])) }
    ensures err { IfErr result
        (λ error. FailsText error (saved_alone (saved_left reader.old 2 records.old))) }
    ensures some { IfOk result (λ number. 2 ≤ number) }
{
    let mut number = 2u64;
    'records: while records.next_row(row)? {
        reader.take(number, row)?;
        number += 1;
    }
    Ok(number)
}

fn saved_in(alloc: Global, text: &[u8]) -> Result<(SavedText, u64), TextError>
    ensures ok { IfOk result (λ read. saved_of_text text.now ≡ Ok (saved_view read.0)) }
    ensures err { IfErr result (λ error. FailsText error (saved_of_text text.now)) }
    ensures marks { IfOk result
        (λ read. length read.0.marks.damaged ≡ length read.0.history.processes) }
{
    let mut records = open(alloc, text)?;
    let mut row = FieldRow::new(alloc);
    if !records.next_row(&mut row)? {
        return Err(fault_at(1, Fault::NoWorld));
    }
    let mut reader = SavedReader::begin(alloc, &row)?;
    let number = take_left(&mut reader, &mut records, &mut row)?;
    match reader.into_saved(number) {
        Ok(saved) => Ok((saved, number - 1)),
        Err(fault) => Err(TextError::Fault(fault)),
    }
}

/// The saved machine that a text spells, after which nothing stands, and the number of its last
/// record. Whether there is such a machine is not asked.
///
/// Refused with the first fault of the text, as `read_history` is: a byte that no text has is of
/// record 0 and comes before all else, and out of memory is the fault 0 of record 0. It takes time
/// and memory in proportion to the text.
pub fn read_saved(alloc: Global, text: &[u8]) -> Result<(SavedText, u64), TextFault>
    ensures ok { IfOk result (λ read. saved_of_text text.now ≡ Ok (saved_view read.0)) }
    ensures err { IfErr result
        (λ fault. (fault ≡ no_memory) ⊎ (saved_of_text text.now ≡ Err fault)) }
    ensures marks { IfOk result
        (λ read. length read.0.marks.damaged ≡ length read.0.history.processes) }
{
    match saved_in(alloc, text) {
        Ok(read) => Ok(read),
        Err(error) => Err(told(error)),
    }
}
