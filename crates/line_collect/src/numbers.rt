//! Incarnations and rounds of fields, in their ranges.

ghost use Rattle.std.specs.Prelude.{◌≡◌};
ghost use Rattle.line_fields.specs.Records as records;
ghost use Rattle.line_claims.specs.Numbers as spec;

use line_fields::{Fault, FieldRow, number};
use line_tape::{LAST_INCARNATION, LAST_ROUND};

/// The incarnation in a field: from 0 to 65,535.
pub(crate) fn incarnation_in(row: &FieldRow<'_>, place: usize) -> Result<u16, Fault>
    ensures { result ≡ spec.incarnation (records.field row.now place) }
{
    let value = number(row.field(place), 0, u64::from(LAST_INCARNATION))?;
    Ok(value as u16)
}

/// The round in a field: from 1 to 65,535.
pub(crate) fn round_in(row: &FieldRow<'_>, place: usize) -> Result<u32, Fault>
    ensures { result ≡ spec.round (records.field row.now place) }
{
    let value = number(row.field(place), 1, u64::from(LAST_ROUND))?;
    Ok(value as u32)
}

/// The round in a field, or none, which is `-`.
pub(crate) fn round_or_none_in(row: &FieldRow<'_>, place: usize) -> Result<Option<u32>, Fault>
    ensures { result ≡ spec.round_or_none (records.field row.now place) }
{
    if row.field(place) == b"-".as_slice() {
        return Ok(None);
    }
    let round = round_in(row, place)?;
    Ok(Some(round))
}
