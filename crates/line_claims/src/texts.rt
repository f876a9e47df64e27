//! Texts: a history, a claim, or both.

ghost use Rattle.std.specs.Prelude.{◌≡◌, ◌≤◌, ◌<◌, ◌+◌, ◌^◌, ◌⊎◌, [], length, IfErr, IfOk};
ghost use Rattle.line_names.specs.declared.limits.TheConstants.{MOST_PROCESSES};
ghost use Rattle.line_claims.specs.Claims as claims;
ghost use Rattle.line_claims.specs.Reads.{IsOfText, Reads, Yields, no_memory};
ghost use Rattle.line_claims.specs.Stages.{claim_left, floors_left, part_end, tapes_left};
ghost use Rattle.line_claims.specs.Stages.{whole_front};
ghost use Rattle.line_claims.specs.Texts as spec;
ghost use Rattle.line_claims.specs.Versions.{IsCheckVersion};

use crate::claims::{Claim, ClaimStage, begin_claim, close_claim, take_of_claim};
use crate::faults::{TextError, TextFault, fault_at, told};
use crate::histories::{
    begin_history, close_tapes, head_at, take_floor, take_next_tape, take_open_tape,
};
use crate::readers::CheckReader;
use crate::versions::floors_in;
use line_fields::{Fault, FieldRow, RecordReader, is_plain};
use line_names::MOST_PROCESSES;
use line_tape::History;
use std::alloc::Global;

/// A history, and a claim on it.
#[derive(Drop)]
pub struct CheckText {
    /// The history.
    pub history: History,
    /// What was let go of each process before the history: the check that it begins with, 0 for the
    /// initial state, and how many of its first sends. It is empty before version 4.
    pub floors: Vec<(u32, u32)>,
    /// What is claimed of it.
    pub claim: Claim,
}

/// The records of a text.
pub(crate) fn open(alloc: Global, text: &[u8]) -> Result<RecordReader<'_>, TextError>
    ensures records { Yields (λ records. records) result (spec.records_in text.entry.now) }
    ensures few { IfOk result (λ records. length records + 2 < 2 ^ 64) }
{
    if !is_plain(text) {
        return Err(fault_at(0, Fault::BadRecord));
    }
    Ok(RecordReader::open(alloc, text))
}

// Takes what was let go of so many processes, and answers the number of the record after that.
fn take_floors<'a>(
    alloc: Global,
    records: &mut RecordReader<'a>,
    row: &mut FieldRow<'a>,
    count: u32,
) -> Result<u64, TextError>
    requires { length records.old + 2 < 2 ^ 64 }
    ensures exact { Yields (λ number. record { number = number; left = records.new }) result
        (part_end (floors_left count [] 2 records.old)) }
    ensures room { IfOk result (λ number. number + length records.new < 2 ^ 64) }
{
    let mut floors = Vec::new(alloc);
    let mut number = 2u64;
    'floors: while floors.len() < count as usize {
        if !records.next_row(row)? {
            return Err(fault_at(number, Fault::BadRecord));
        }
        take_floor(&mut floors, number, row)?;
        number += 1;
    }
    Ok(number)
}

// Takes the tapes of a history, which all records that are left are of, from that number on.
fn take_tapes<'a>(
    alloc: Global,
    records: &mut RecordReader<'a>,
    first: u64,
    row: &mut FieldRow<'a>,
    history: &mut History,
) -> Result<(), TextError>
    requires { first + length records.old < 2 ^ 64 }
    ensures { Yields (λ _. history.new.processes) result
        (whole_front
        (tapes_left (length history.old.processes) 0 history.old.processes first records.old)) }
{
    let mut bytes = Vec::new(alloc);
    let mut tapes = 0u32;
    let mut number = first;
    'records: while records.next_row(row)? {
        if !take_open_tape(records, history, tapes, &mut number, row, &mut bytes)? {
            return close_tapes(history, tapes, number);
        }
        if !take_next_tape(history, &mut tapes, number, row)? {
            return Err(fault_at(number, Fault::BadRecord));
        }
        number += 1;
    }
    close_tapes(history, tapes, number)
}

#[tactic(auto, unfolding(crate::specs::Texts::history_of))]
fn history_in(alloc: Global, text: &[u8]) -> Result<History, TextError>
    ensures { Yields (λ history. history.processes) result (spec.history_of_text text.now) }
{
    let mut records = open(alloc, text)?;
    let mut row = FieldRow::new(alloc);
    if !records.next_row(&mut row)? {
        return Err(fault_at(1, Fault::NoWorld));
    }
    let (version, n) = head_at(&row)?;
    let mut history = begin_history(alloc, n)?;
    let first = take_floors(alloc, &mut records, &mut row, floors_in(version, n))?;
    take_tapes(alloc, &mut records, first, &mut row, &mut history)?;
    Ok(history)
}

// Takes the claim that all records that are left are of.
fn take_claim<'a>(
    version: u32,
    n: u32,
    records: &mut RecordReader<'a>,
    row: &mut FieldRow<'a>,
    claim: &mut Claim,
) -> Result<(), TextError>
    requires few { n ≤ MOST_PROCESSES }
    requires room { length records.old + 2 < 2 ^ 64 }
    requires whole { length claim.old.marks.damaged ≡ n }
    ensures { Yields (λ _. claims.claim_view claim.new) result
        (claim_left ClaimStage.Damage version n (claims.claim_view claim.old) 1 records.old) }
{
    let mut bytes = Vec::new(*claim.replays.allocator());
    let mut stage = ClaimStage::Damage;
    let mut number = 1u64;
    'records: while records.next_row(row)? {
        stage = take_of_claim(version, stage, claim, number, row, &mut bytes)?;
        number += 1;
    }
    close_claim(stage, number)
}

#[tactic(auto, unfolding(crate::specs::Texts::certificate_of))]
fn certificate_in(alloc: Global, text: &[u8], n: u32, version: u32) -> Result<Claim, TextError>
    requires { n ≤ MOST_PROCESSES }
    ensures { Yields claims.claim_view result (spec.certificate_of_text version n text.now) }
{
    let mut records = open(alloc, text)?;
    let mut row = FieldRow::new(alloc);
    let mut claim = begin_claim(alloc, n)?;
    take_claim(version, n, &mut records, &mut row, &mut claim)?;
    Ok(claim)
}

/// The history that a text spells.
///
/// The first record tells the version, from 1 to 4, and how many processes there are: at most 64 in
/// version 1. In version 4 it is followed by what was let go of each, which is tested and not kept.
/// Their tapes follow in order, each with its events. The events need not fit together: it asks
/// only that each number keeps to its range, that the processes are there, and that bodies, states
/// and tapes keep to their limits.
///
/// Refused with the first fault of the text, the records taken in their order, and the questions to
/// a record in the order in which its definition asks them. A byte that no text has is of record 0
/// and comes before all else; the first record of a text without records is missing; a missing tape
/// is a fault of the record that stands in its place, or of the one that would. Out of memory, at
/// any time, is the fault 0 of record 0. It takes time and memory in proportion to the text.
pub fn read_history(alloc: Global, text: &[u8]) -> Result<History, TextFault>
    ensures exact { Reads (λ history. history.processes) result (spec.history_of_text text.now) }
    ensures codes { IfErr result (λ fault. (fault ≡ no_memory) ⊎ IsOfText fault) }
{
    match history_in(alloc, text) {
        Ok(history) => Ok(history),
        Err(error) => Err(told(error)),
    }
}

/// The claim among `n` processes that a text spells: the part of a check text of that version that
/// stands after its history, with its records numbered from 1. Version 1 knows no bars.
///
/// It asks nothing of a history: a mark, a bar or a choice may be of a check that isn't there, and
/// the line may have any number of choices up to the greatest number of processes of a text of that
/// version.
///
/// Refused as a history is; a missing end is a fault of the record that would follow the last. It
/// takes time and memory in proportion to the text, and for a mark of damage the logarithm of those
/// before it of its process.
pub fn read_certificate(
    alloc: Global,
    text: &[u8],
    n: u32,
    version: u32,
) -> Result<Claim, TextFault>
    requires few { n ≤ MOST_PROCESSES }
    requires version { IsCheckVersion version }
    ensures exact { Reads claims.claim_view result (spec.certificate_of_text version n text.now) }
    ensures codes { IfErr result (λ fault. (fault ≡ no_memory) ⊎ IsOfText fault) }
{
    match certificate_in(alloc, text, n, version) {
        Ok(claim) => Ok(claim),
        Err(error) => Err(told(error)),
    }
}

/// The history that a text spells, and the claim on it that follows.
///
/// Refused as a history and a claim are, the records numbered through. The text is read once.
pub fn read_check_text(alloc: Global, text: &[u8]) -> Result<CheckText, TextFault>
    ensures exact { Reads spec.check_view result (spec.check_of_text text.now) }
    ensures codes { IfErr result (λ fault. (fault ≡ no_memory) ⊎ IsOfText fault) }
{
    let mut reader = CheckReader::new(alloc);
    match reader.take(text) {
        Ok(()) => reader.into_check(),
        Err(_) => Err(told(TextError::OutOfMemory)),
    }
}
