//! The messages of a claim that are sent again, which come one after the other.

ghost use Rattle.std.specs.Prelude.{◌≡◌, ◌≤◌, ◌<◌, ◌+◌, ◌^◌, ◌++◌, ◌∷◌, ℕ, List, length};
ghost use Rattle.std.specs.Prelude.{IfErr, IfOk, MatchBool};
ghost use Rattle.line_names.specs.declared.limits.TheConstants.{MOST_PROCESSES};
ghost use Rattle.line_fields.specs.Records.{Record};
ghost use Rattle.line_claims.specs.Claims.{claim_view};
ghost use Rattle.line_claims.specs.Reads.{FailsText};
ghost use Rattle.line_claims.specs.Stages.{replays_left};

use crate::claims::Claim;
use crate::entries::replay_of;
use crate::faults::{TextError, error_at};
use crate::parts::is_named;
use line_fields::{FieldRow, RecordReader};
use line_names::MOST_PROCESSES;

/// Takes the messages that are sent again of a claim of version 3 or a later one, from the record
/// in the row on, and says whether the row then has a record that is none. The bytes of a message
/// take the place of those of a list.
pub(crate) fn take_replays<'a>(
    n: u32,
    claim: &mut Claim,
    records: &mut RecordReader<'a>,
    number: &mut u64,
    row: &mut FieldRow<'a>,
    bytes: &mut Vec<u8>,
) -> Result<bool, TextError>
    requires few { n ≤ MOST_PROCESSES }
    requires room { number.old + length records.old + 1 < 2 ^ 64 }
    ensures ok { IfOk result (λ more. MatchBool more
        ((number.new + length records.new ≤ number.old + length records.old)
        × ((version : ℕ) (rest : List Record) → 3 ≤ version
        → replays_left version n (claim_view claim.old) number.old
        (row.old ∷ (records.old ++ rest))
        ≡ replays_left version n (claim_view claim.new) number.new
        (row.new ∷ (records.new ++ rest))))
        ((number.new ≤ number.old + length records.old + 1)
        × ((version : ℕ) (rest : List Record) → 3 ≤ version
        → replays_left version n (claim_view claim.old) number.old
        (row.old ∷ (records.old ++ rest))
        ≡ replays_left version n (claim_view claim.new) number.new rest))) }
    ensures err { IfErr result (λ error. (version : ℕ) (rest : List Record) → 3 ≤ version
        → FailsText error
        (replays_left version n (claim_view claim.old) number.old
        (row.old ∷ (records.old ++ rest)))) }
    ensures count { number.old ≤ number.new }
    ensures same { claim.new.marks ≡ claim.old.marks }
{
    'replays: while is_named(row, b"replay") {
        match replay_of(&mut claim.replays, n, row, bytes) {
            Ok(()) => {}
            Err(error) => return Err(error_at(*number, error)),
        }
        *number += 1;
        if !records.next_row(row)? {
            return Ok(false);
        }
    }
    Ok(true)
}
