//! Two floors as one.
ghost use Rattle.std.specs.Prelude.{◌≡◌, ◌≤◌, ◌<◌, ◌+◌, ◌-◌, ◌^◌, ℕ, IfOk, IfSome, None};
ghost use Rattle.std.specs.Prelude.{length, map, slice_index_or};
ghost use Rattle.std.specs.List.{range_with_len};
ghost use Rattle.std.specs.Option.{SomeIff};
ghost use Rattle.line_cuts.specs.Cuts.{whole_floor};
ghost use Rattle.line_cuts.specs.Floors.{IsTooGreat};

use crate::floors::OwnedFloor;
use std::alloc::{AllocError, Global};

/// A number of a list; 0 past its end.
fn number_in(numbers: &[u32], p: usize) -> u32
    ensures { result ≡ slice_index_or numbers.now p 0 }
{
    match numbers.get(p) {
        Some(number) => *number,
        None => 0,
    }
}

/// The sum of two numbers at the same place; none where it is too great to be kept.
fn sum_at(terms: &[u32], others: &[u32], p: usize) -> Option<u32>
    ensures { SomeIff result
        (slice_index_or terms.now p 0 + slice_index_or others.now p 0 < 2 ^ 32)
        (slice_index_or terms.now p 0 + slice_index_or others.now p 0) }
{
    let term = number_in(terms, p);
    term.checked_add(number_in(others, p))
}

/// The sums of the first `n` numbers of two lists; none where one is too great to be kept.
fn sums(
    alloc: Global,
    n: usize,
    terms: &[u32],
    others: &[u32],
) -> Result<Option<Vec<u32>>, AllocError>
    ensures sums { IfOk result (λ sums. IfSome sums (λ sums. sums.items
        ≡ map (λ p. slice_index_or terms.now p 0 + slice_index_or others.now p 0)
        (range_with_len 0 n))) }
    ensures none { IfOk result (λ sums. sums ≡ None → (p : ℕ) × ((p < n)
        × (2 ^ 32 ≤ slice_index_or terms.now p 0 + slice_index_or others.now p 0))) }
{
    let mut sums = Vec::new(alloc);
    for p in 0..n {
        match sum_at(terms, others, p) {
            Some(sum) => sums.push(sum)?,
            None => return Ok(None),
        }
    }
    Ok(Some(sums))
}

/// How many checks each process lets go that begins with these.
fn lost_of(alloc: Global, checks: &[u32]) -> Result<Vec<u32>, AllocError>
    ensures { IfOk result (λ lost. lost.items ≡ map (λ c. c - 1) checks.now) }
{
    checks
        .iter()
        .map(|check| check.saturating_sub(1))
        .collect(alloc)
}

/// The checks of a floor of what is left, in the whole.
fn whole_checks(
    alloc: Global,
    floor: &OwnedFloor,
    later: &OwnedFloor,
) -> Result<Option<Vec<u32>>, AllocError>
    ensures checks { IfOk result (λ checks. IfSome checks (λ checks.
        checks.items ≡ (whole_floor floor.now later.now).checks)) }
    ensures none { IfOk result (λ checks. checks ≡ None
        → IsTooGreat (whole_floor floor.now later.now)) }
{
    let lost = lost_of(alloc, floor.checks())?;
    let checks = later.checks();
    sums(alloc, checks.len(), checks, lost.as_slice())
}

/// How many first sends of each process two floors let go.
fn whole_sends(
    alloc: Global,
    floor: &OwnedFloor,
    later: &OwnedFloor,
) -> Result<Option<Vec<u32>>, AllocError>
    ensures sends { IfOk result (λ sends. IfSome sends (λ sends.
        sends.items ≡ (whole_floor floor.now later.now).sends)) }
    ensures none { IfOk result (λ sends. sends ≡ None
        → IsTooGreat (whole_floor floor.now later.now)) }
{
    let counts = later.counts();
    sums(alloc, counts.len(), floor.counts(), counts)
}

/// A floor of what another floor leaves, in the whole: what is let go first and then is let go at
/// once. None where a number of it is too great to be kept.
pub fn whole_floor(
    alloc: Global,
    floor: &OwnedFloor,
    later: &OwnedFloor,
) -> Result<Option<OwnedFloor>, AllocError>
    ensures value { IfOk result (λ whole. IfSome whole (λ whole.
        whole ≡ whole_floor floor.now later.now)) }
    ensures none { IfOk result (λ whole. whole ≡ None
        → IsTooGreat (whole_floor floor.now later.now)) }
{
    match whole_checks(alloc, floor, later)? {
        Some(checks) => match whole_sends(alloc, floor, later)? {
            Some(sends) => Ok(Some(OwnedFloor::of(checks, sends, later.round()))),
            None => Ok(None),
        },
        None => Ok(None),
    }
}
