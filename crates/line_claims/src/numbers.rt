//! The numbers of fields, in their ranges, and the processes and choices that they name.

ghost use Rattle.std.specs.Prelude.{◌≡◌, ◌≤◌};
ghost use Rattle.line_names.specs.declared.limits.TheConstants.{MOST_PROCESSES};
ghost use Rattle.line_fields.specs.Fields as fields;
ghost use Rattle.line_fields.specs.Records as records;
ghost use Rattle.line_claims.specs.Numbers as spec;

use line_fields::{Fault, FieldRow, ReadError, hex, number};
use line_names::{Choice, MOST_PROCESSES, ProcId};
use line_tape::{LAST_INCARNATION, LAST_ROUND, State};
use std::alloc::Global;

/// The greatest number in a field that has no range of its own.
pub(crate) const MOST_NUMBER: u32 = u32::MAX;

/// A fault unless a test holds.
pub fn want(holds: bool, fault: Fault) -> Result<(), Fault>
    ensures { result ≡ fields.want holds fault }
{
    if holds { Ok(()) } else { Err(fault) }
}

/// The number in a field, as `plain` has it, for a record that is frequent: it is put into the code
/// of its caller.
#[inline(always)]
pub(crate) fn plain_at(row: &FieldRow<'_>, place: usize) -> Result<u32, Fault>
    ensures { result ≡ spec.plain (records.field row.now place) }
{
    let value = number(row.field(place), 0, u64::from(MOST_NUMBER))?;
    Ok(value as u32)
}

/// The number in a field: from 0 to 4,294,967,295.
pub fn plain(row: &FieldRow<'_>, place: usize) -> Result<u32, Fault>
    ensures { result ≡ spec.plain (records.field row.now place) }
{
    plain_at(row, place)
}

/// The incarnation in a field.
pub(crate) fn incarnation(row: &FieldRow<'_>, place: usize) -> Result<u16, Fault>
    ensures { result ≡ spec.incarnation (records.field row.now place) }
{
    let value = number(row.field(place), 0, u64::from(LAST_INCARNATION))?;
    Ok(value as u16)
}

/// The round in a field: from 1 to 65,535.
pub fn round(row: &FieldRow<'_>, place: usize) -> Result<u32, Fault>
    ensures { result ≡ spec.round (records.field row.now place) }
{
    let value = number(row.field(place), 1, u64::from(LAST_ROUND))?;
    Ok(value as u32)
}

/// The round in a field, if there is one.
pub(crate) fn round_or_none(row: &FieldRow<'_>, place: usize) -> Result<Option<u32>, Fault>
    ensures { result ≡ spec.round_or_none (records.field row.now place) }
{
    if row.field(place) == b"-".as_slice() {
        return Ok(None);
    }
    let value = round(row, place)?;
    Ok(Some(value))
}

/// The state in a field, if there is one.
pub(crate) fn state_or_none(
    alloc: Global,
    row: &FieldRow<'_>,
    place: usize,
) -> Result<Option<State>, ReadError>
    ensures { fields.Gives (λ state. state) result
        (spec.state_or_none (records.field row.now place)) }
{
    if row.field(place) == b"-".as_slice() {
        return Ok(None);
    }
    let bytes = hex(alloc, row.field(place))?;
    Ok(Some(State::of(bytes)))
}

/// The choice in a field.
pub(crate) fn choice(row: &FieldRow<'_>, place: usize) -> Result<Choice, Fault>
    ensures { result ≡ spec.choice (records.field row.now place) }
{
    if row.field(place) == b"now".as_slice() {
        return Ok(Choice::Now);
    }
    let check = plain(row, place)?;
    Ok(Choice::Check(check))
}

/// The process of that number, among `n`.
pub(crate) fn process(n: u32, p: u32) -> Result<ProcId, Fault>
    requires { n ≤ MOST_PROCESSES }
    ensures { result ≡ spec.process n p }
{
    match ProcId::try_new(p, n) {
        Ok(p) => Ok(p),
        Err(_) => Err(Fault::NoSuchProcess),
    }
}
