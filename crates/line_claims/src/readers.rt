//! Check texts that come in pieces of whole lines.

ghost use Rattle.std.specs.Prelude.{◌≡◌, ◌≤◌, ◌<◌, ◌+◌, ◌^◌, ◌++◌, ◌∷◌, ◌≢◌, ℕ, List};
ghost use Rattle.std.specs.Prelude.{length, IfErr, IfOk, IfSome, IsTrue, MatchBool, Ok, OnOk, []};
ghost use Rattle.std.specs.Prelude.{None, Some, false, true, ◌⊎◌};
ghost use Rattle.line_fields.specs.Bytes.{is_input_text};
ghost use Rattle.line_fields.specs.Records.{Record, records_of_text};
ghost use Rattle.line_claims.specs.Events.{is_event};
ghost use Rattle.line_claims.specs.Readings.{IsBegun};
ghost use Rattle.line_claims.specs.Readings as spec;
ghost use Rattle.line_claims.specs.Reads.{FailsText, Reads, Yields};
ghost use Rattle.line_claims.specs.Stages.{Goes};
ghost use Rattle.line_claims.specs.Texts.{check_of_text, check_view};

use crate::claims::{ClaimStage, begin_claim, close_claim, take_of_claim};
use crate::faults::{TextError, TextFault, fault_at, told};
use crate::histories::{
    begin_history, close_tapes, head_at, take_floor, take_next_tape, take_open_tape,
};
use crate::replays::take_replays;
use crate::texts::CheckText;
use line_fields::{Fault, FieldRow, RecordReader, is_plain};
use std::alloc::{AllocError, Global};
use std::marker::Model;

// Which part of a check text its next record may be of, if not of one that may follow that part.
#[derive(Clone, Copy)]
enum CheckStage {
    // What was let go of each process.
    Floors,
    // The tapes, or after them the claim.
    Tapes,
    // That part of the claim.
    Claim(ClaimStage),
}

// A check text, the first records of which were taken.
#[derive(Drop)]
struct BegunCheck {
    version: u32,
    // How many of its tapes were begun.
    tapes: u32,
    // Which part the next record may be of.
    stage: CheckStage,
    text: CheckText,
}

// The part of a check text of that version that follows its first record.
fn first_stage(version: u32) -> CheckStage
    ensures { result ≡ spec.first_stage version }
{
    if version >= 4 {
        CheckStage::Floors
    } else {
        CheckStage::Tapes
    }
}

// Begins a check text with its first record.
//
// It is a function of its own, since what is begun is a large value and is made once.
#[inline(never)]
fn begin_check(
    alloc: Global,
    begun: &mut Option<BegunCheck>,
    row: &FieldRow<'_>,
) -> Result<(), TextError>
    requires { begun.old ≡ None }
    ensures exact { Goes result (spec.left_of begun.old 1) (λ _. spec.left_of begun.new 2) row.now }
    ensures kept { IfSome begun.new IsBegun }
    ensures some { OnOk result (begun.new ≢ None) }
{
    let (version, n) = head_at(row)?;
    let history = begin_history(alloc, n)?;
    let claim = begin_claim(alloc, n)?;
    *begun = Some(BegunCheck {
        version,
        tapes: 0,
        stage: first_stage(version),
        text: CheckText {
            history,
            floors: Vec::new(alloc),
            claim,
        },
    });
    Ok(())
}

// Takes a record of the claim of a check text, which may be of that part or of one that may follow
// it.
fn take_in_claim(
    begun: &mut BegunCheck,
    stage: ClaimStage,
    number: u64,
    row: &FieldRow<'_>,
    bytes: &mut Vec<u8>,
) -> Result<(), TextError>
    requires { IsBegun begun.old }
    ensures exact { Goes result
        (spec.stage_left (CheckStage.Claim stage) begun.old.version
        (length begun.old.text.history.processes) begun.old.tapes (check_view begun.old.text)
        number)
        (λ _. spec.begun_left begun.new (number + 1)) row.now }
    ensures kept { IsBegun begun.new }
{
    let _n = begun.text.history.n();
    let claim = &mut begun.text.claim;
    let next = take_of_claim(begun.version, stage, claim, number, row, bytes)?;
    begun.stage = CheckStage::Claim(next);
    Ok(())
}

// Takes a record of a check text whose tapes go on that is no event.
fn take_in_tapes(
    begun: &mut BegunCheck,
    number: u64,
    row: &FieldRow<'_>,
    bytes: &mut Vec<u8>,
) -> Result<(), TextError>
    requires kept { IsBegun begun.old }
    requires stage { begun.old.stage ≡ CheckStage.Tapes }
    requires other { (begun.old.tapes ≡ 0) ⊎ (is_event row.now ≡ false) }
    ensures exact { Goes result (spec.begun_left begun.old number)
        (λ _. spec.begun_left begun.new (number + 1)) row.now }
    ensures kept { IsBegun begun.new }
{
    if take_next_tape(&mut begun.text.history, &mut begun.tapes, number, row)? {
        return Ok(());
    }
    take_in_claim(begun, ClaimStage::Damage, number, row, bytes)
}

// Takes what was let go of the next process of a check text, or what follows once that was taken
// of all.
fn take_in_floors(
    begun: &mut BegunCheck,
    number: u64,
    row: &FieldRow<'_>,
    bytes: &mut Vec<u8>,
) -> Result<(), TextError>
    requires kept { IsBegun begun.old }
    requires stage { begun.old.stage ≡ CheckStage.Floors }
    ensures exact { Goes result (spec.begun_left begun.old number)
        (λ _. spec.begun_left begun.new (number + 1)) row.now }
    ensures kept { IsBegun begun.new }
{
    let n = begun.text.history.n();
    if begun.text.floors.len() >= n as usize {
        begun.stage = CheckStage::Tapes;
        begun.tapes = 0;
        return take_in_tapes(begun, number, row, bytes);
    }
    take_floor(&mut begun.text.floors, number, row)?;
    Ok(())
}

// Takes a record of a check text that is no event.
fn take_row(
    alloc: Global,
    begun: &mut Option<BegunCheck>,
    number: u64,
    row: &FieldRow<'_>,
    bytes: &mut Vec<u8>,
) -> Result<(), TextError>
    requires kept { IfSome begun.old IsBegun }
    requires other { IfSome begun.old (λ begun. spec.IsBeyondTape begun row.now) }
    requires first { begun.old ≡ None → number ≡ 1 }
    ensures exact { Goes result (spec.left_of begun.old number)
        (λ _. spec.left_of begun.new (number + 1)) row.now }
    ensures kept { IfSome begun.new IsBegun }
    ensures some { OnOk result (begun.new ≢ None) }
    ensures none { begun.new ≡ None → begun.old ≡ None }
{
    let Some(begun) = begun else {
        return begin_check(alloc, begun, row);
    };
    match begun.stage {
        CheckStage::Claim(stage) => take_in_claim(begun, stage, number, row, bytes),
        CheckStage::Tapes => take_in_tapes(begun, number, row, bytes),
        CheckStage::Floors => take_in_floors(begun, number, row, bytes),
    }
}

// Takes the events of the tape that was begun last, while the tapes of a check text go on, or the
// messages that are sent again, from the record in the row on, and says whether the row then has a
// record that is none.
fn take_many_of<'a>(
    records: &mut RecordReader<'a>,
    begun: &mut Option<BegunCheck>,
    number: &mut u64,
    row: &mut FieldRow<'a>,
    bytes: &mut Vec<u8>,
) -> Result<bool, TextError>
    requires kept { IfSome begun.old IsBegun }
    requires room { number.old + length records.old + 1 < 2 ^ 64 }
    ensures ok { IfOk result (λ more. MatchBool more
        ((IfSome begun.new (λ begun. spec.IsBeyondTape begun row.new))
        × (number.new + length records.new ≤ number.old + length records.old)
        × ((rest : List Record)
        → spec.left_of begun.old number.old (row.old ∷ (records.old ++ rest))
        ≡ spec.left_of begun.new number.new (row.new ∷ (records.new ++ rest))))
        ((number.new ≤ number.old + length records.old + 1)
        × ((rest : List Record)
        → spec.left_of begun.old number.old (row.old ∷ (records.old ++ rest))
        ≡ spec.left_of begun.new number.new rest))) }
    ensures err { IfErr result (λ error. (rest : List Record)
        → FailsText error
        (spec.left_of begun.old number.old (row.old ∷ (records.old ++ rest)))) }
    ensures count { number.old ≤ number.new }
    ensures kept { IfSome begun.new IsBegun }
    ensures none { begun.new ≡ None → begun.old ≡ None }
    ensures first { begun.old ≡ None → (number.new ≡ number.old) × (result ≡ Ok true) }
{
    let Some(begun) = begun else {
        return Ok(true);
    };
    match begun.stage {
        CheckStage::Tapes => {
            let history = &mut begun.text.history;
            take_open_tape(records, history, begun.tapes, number, row, bytes)
        }
        CheckStage::Claim(ClaimStage::Replays) => {
            if begun.version < 3 {
                return Ok(true);
            }
            let n = begun.text.history.n();
            take_replays(n, &mut begun.text.claim, records, number, row, bytes)
        }
        _ => Ok(true),
    }
}

// Takes the records of a piece after those that were taken.
fn take_records(
    alloc: Global,
    piece: &[u8],
    begun: &mut Option<BegunCheck>,
    number: &mut u64,
    bytes: &mut Vec<u8>,
) -> Result<(), TextError>
    requires input { IsTrue (is_input_text piece.now) }
    requires kept { IfSome begun.old IsBegun }
    requires first { begun.old ≡ None → number.old ≡ 1 }
    requires room { number.old + length piece.now + 1 < 2 ^ 64 }
    ensures ok { OnOk result ((rest : List Record)
        → spec.left_of begun.old number.old (records_of_text piece.now ++ rest)
        ≡ spec.left_of begun.new number.new rest) }
    ensures err { IfErr result (λ error. (rest : List Record)
        → FailsText error
        (spec.left_of begun.old number.old (records_of_text piece.now ++ rest))) }
    ensures kept { IfSome begun.new IsBegun }
    ensures first { begun.new ≡ None → number.new ≡ 1 }
{
    let mut records = RecordReader::open(alloc, piece);
    let mut row = FieldRow::new(alloc);
    'records: while records.next_row(&mut row)? {
        if !take_many_of(&mut records, begun, number, &mut row, bytes)? {
            return Ok(());
        }
        take_row(alloc, begun, *number, &row, bytes)?;
        *number += 1;
    }
    Ok(())
}

// Refuses a check text that ends before its end; the record that is missing has that number.
fn close_check(begun: &BegunCheck, number: u64) -> Result<(), TextError>
    requires { IsBegun begun.now }
    ensures { Yields (λ _. check_view begun.now.text) result (spec.begun_left begun.now number []) }
{
    match begun.stage {
        CheckStage::Claim(stage) => close_claim(stage, number),
        CheckStage::Tapes => {
            close_tapes(&begun.text.history, begun.tapes, number)?;
            close_claim(ClaimStage::Damage, number)
        }
        CheckStage::Floors => Err(fault_at(number, Fault::BadRecord)),
    }
}

/// Reads a check text that comes in pieces of whole lines, the last of which may lack its line
/// feed.
///
/// It keeps the history and the claim, and no text. Once a record has a fault it keeps that alone,
/// and only looks at the bytes of further pieces: a byte that no text has comes before all else.
#[derive(Drop)]
pub struct CheckReader {
    alloc: Global,
    bytes: Vec<u8>,
    begun: Option<BegunCheck>,
    // The number of the record that would come next.
    number: u64,
    fault: Option<TextFault>,
}

impl Model for CheckReader {
    ghost use Rattle.std.specs.Prelude.{◌≡◌, IfSome, None};
    ghost use Rattle.line_claims.specs.Readings.{CheckPlace, IsBegun, begun_if_any};

    ghost Value = { CheckPlace };

    ghost view = { λ s. record
        { begun = begun_if_any s.begun; number = s.number; fault = s.fault } };

    ghost invariant = { λ s. (IfSome s.begun IsBegun)
        × (s.begun ≡ None → s.fault ≡ None → s.number ≡ 1) };
}

impl CheckReader {
    /// A reader that has taken nothing. It takes no memory.
    pub fn new(alloc: Global) -> CheckReader
        ensures { (text : List ℕ) → spec.text_left result text ≡ check_of_text text }
    {
        CheckReader {
            alloc,
            bytes: Vec::new(alloc),
            begun: None,
            number: 1,
            fault: None,
        }
    }

    // Keeps a fault alone.
    fn refuse(&mut self, fault: TextFault)
        ensures { self.new.fault ≡ Some fault }
    {
        self.begun = None;
        self.fault = Some(fault);
    }

    /// Takes the next piece of the text.
    ///
    /// It takes time in proportion to the piece, and memory in proportion to the history and the
    /// claim. Where memory is refused, or more records came than a number of 64 bits counts, what
    /// the reader reads from then on is left open.
    pub fn take(&mut self, piece: &[u8]) -> Result<(), AllocError>
        ensures { OnOk result ((rest : List ℕ) → spec.EndsBefore piece.now rest
            → spec.text_left self.old (piece.now ++ rest) ≡ spec.text_left self.new rest) }
    {
        if !is_plain(piece) {
            self.refuse(TextFault {
                record_number: 0,
                code: Fault::BadRecord.code(),
            });
            return Ok(());
        }
        if self.fault.is_some() {
            return Ok(());
        }
        if self.number >= u64::MAX - piece.len() as u64 {
            return Err(AllocError);
        }
        match take_records(
            self.alloc,
            piece,
            &mut self.begun,
            &mut self.number,
            &mut self.bytes,
        ) {
            Ok(()) => Ok(()),
            Err(TextError::Fault(fault)) => {
                self.refuse(fault);
                Ok(())
            }
            Err(TextError::OutOfMemory) => Err(AllocError),
        }
    }

    /// The history and the claim that all pieces spell, or their first fault. It takes no memory.
    pub fn into_check(self) -> Result<CheckText, TextFault>
        ensures { Reads check_view result (spec.text_left self []) }
    {
        let CheckReader {
            begun,
            number,
            fault,
            ..
        } = self;
        if let Some(fault) = fault {
            return Err(fault);
        }
        match begun {
            Some(begun) => match close_check(&begun, number) {
                Ok(()) => Ok(begun.text),
                Err(error) => Err(told(error)),
            },
            None => Err(TextFault {
                record_number: 1,
                code: Fault::NoWorld.code(),
            }),
        }
    }
}
