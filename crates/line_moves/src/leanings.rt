//! Listed rounds of colours that hold together what they have in common (Lai and Yang, Information
//! Processing Letters 25(3), 1987).
//!
//! What is in transit at the checks of a round is mostly in transit at those of the next rounds
//! too. So an earlier round leans on a later one: it shows its messages in the later one's buffers.
//! Where some of them have been received by then, the later one is first joined with an earlier
//! one: it gets buffers that have the earlier one's messages too. No round has other channels than
//! before.
ghost use Rattle.std.specs.Prelude.{◌≡◌, ◌<◌, ◌≤◌, ℕ, All, IfOk, IfSome, length, true};
ghost use Rattle.std.specs.Prelude.{slice_index_or};
ghost use Rattle.line_tape.specs.Rounds.{check_line};
ghost use Rattle.line_tape.specs.Transit.{in_transit_between};
ghost use Rattle.line_rounds.specs.Tables.{between, IsTable};
ghost use Rattle.line_moves.specs.Listed.{channel_table, IsSnapshotOf, ListedRound};

use crate::counts::are_checks_between;
use crate::rounds::Round;
use line_names::{Choice, ProcId};
use line_rounds::SharedChannels;
use line_tape::History;
use std::alloc::{AllocError, Global};

/// Whether only checks stand between the checks of one round and those of a later one. It takes one
/// step for each process.
fn is_still_between(history: &History, earlier: &Round, later: &Round) -> bool
    requires earlier { IsSnapshotOf history.now.processes earlier.now }
    requires later { IsSnapshotOf history.now.processes later.now }
    ensures { result ≡ true → (p q : ℕ)
        → in_transit_between history.now.processes (check_line earlier.now.checks) p q
        ≡ in_transit_between history.now.processes (check_line later.now.checks) p q }
{
    let n = history.n();
    'each: for q in 0..n {
        let p = ProcId::try_new(q, n).unwrap();
        let before = earlier.check(p);
        let after = later.check(p);
        if !are_checks_between(history.tape(p), before, Choice::Check(after)) {
            return false;
        }
    }
    true
}

/// Whether both rounds hold their channels in one place. It takes constant time.
pub(crate) fn are_one(one: &Round, other: &Round) -> bool {
    match one.counted() {
        Some(ours) => match other.counted() {
            Some(theirs) => ours.is_one_with(theirs),
            None => false,
        },
        None => false,
    }
}

/// The channels of a round, if they can lean on those of a later one.
fn leaning(
    alloc: Global,
    round: &Round,
    later: &Round,
) -> Result<Option<SharedChannels>, AllocError>
    ensures shape { IfOk result (λ found. IfSome found (λ channels.
        IsTable (length round.now.checks) channels)) }
    ensures same { IfOk result (λ found. IfSome found (λ channels.
        round.now.channels ≡ channel_table (length round.now.checks) (between channels))) }
{
    match round.counted() {
        Some(channels) => match later.counted() {
            Some(other) => channels.lean_on(alloc, other),
            None => Ok(None),
        },
        None => Ok(None),
    }
}

/// The channels of a round for a later one, if that has the same.
///
/// It takes one step for each process if nothing was sent or received between the two. Else it
/// looks at no more messages than the smaller one has.
fn again(
    history: &History,
    earlier: &Round,
    later: &Round,
) -> Result<Option<SharedChannels>, AllocError>
    requires earlier { IsSnapshotOf history.now.processes earlier.now }
    requires later { IsSnapshotOf history.now.processes later.now }
    ensures shape { IfOk result (λ found. IfSome found (λ channels.
        IsTable (length later.now.checks) channels)) }
    ensures same { IfOk result (λ found. IfSome found (λ channels.
        later.now.channels ≡ channel_table (length later.now.checks) (between channels))) }
{
    match earlier.counted() {
        Some(channels) => match later.counted() {
            Some(own) => {
                if is_still_between(history, earlier, later) {
                    return Ok(Some(channels.share()?));
                }
                if own.is_same(channels.channels()) {
                    return Ok(Some(channels.share()?));
                }
                Ok(None)
            }
            None => Ok(None),
        },
        None => Ok(None),
    }
}

/// The channels of a round, joined with those of an earlier one, if they can be.
fn joined(
    alloc: Global,
    round: &Round,
    earlier: &Round,
) -> Result<Option<SharedChannels>, AllocError>
    ensures shape { IfOk result (λ found. IfSome found (λ channels.
        IsTable (length round.now.checks) channels)) }
    ensures same { IfOk result (λ found. IfSome found (λ channels.
        round.now.channels ≡ channel_table (length round.now.checks) (between channels))) }
{
    match round.counted() {
        Some(channels) => match earlier.counted() {
            Some(other) => channels.join(alloc, other),
            None => Ok(None),
        },
        None => Ok(None),
    }
}

/// Has a round hold the same channels in another place, and with it the rounds after it, up to a
/// limit, that hold their channels in one place with it.
///
/// If memory runs out, some of the rounds do, or none. No round is another one after it.
fn hold_from(
    history: &History,
    rounds: &mut [Round],
    first: usize,
    limit: usize,
    channels: SharedChannels,
) -> Result<(), AllocError>
    requires first { first < limit }
    requires limit { limit ≤ length rounds.old }
    requires rounds { All (IsSnapshotOf history.now.processes) rounds.old }
    requires shape { (round : ListedRound) → round ≡ slice_index_or rounds.old first round
        → IsTable (length round.checks) channels }
    requires same { (round : ListedRound) → round ≡ slice_index_or rounds.old first round
        → round.channels ≡ channel_table (length round.checks) (between channels) }
    ensures { rounds.new ≡ rounds.old }
{
    let mut end = first + 1;
    'one: while end < limit && are_one(&rounds[first], &rounds[end]) {
        end += 1;
    }
    rounds[first].hold(channels);
    let mut k = first + 1;
    'each: while k < end {
        let Some(channels) = again(history, &rounds[k - 1], &rounds[k])? else {
            return Ok(());
        };
        rounds[k].hold(channels);
        k += 1;
    }
    Ok(())
}

/// Has a round lean on a later one, if it can, and with it the rounds after it that hold their
/// channels in one place with it.
///
/// It takes memory for each process that something is in transit to, and for each sender. If memory
/// runs out, some of the rounds lean, or none. No round is another one after it.
fn lean(
    alloc: Global,
    history: &History,
    rounds: &mut [Round],
    first: usize,
    target: usize,
) -> Result<(), AllocError>
    requires { All (IsSnapshotOf history.now.processes) rounds.old }
    ensures { rounds.new ≡ rounds.old }
{
    if first >= target || target >= rounds.len() {
        return Ok(());
    }
    let Some(channels) = leaning(alloc, &rounds[first], &rounds[target])? else {
        return Ok(());
    };
    hold_from(history, rounds, first, target, channels)
}

/// Joins a round with an earlier one, if that can be and the earlier one can't lean on it as it is,
/// and has the rounds after it hold the same that hold their channels in one place with it.
///
/// It takes memory for what is in transit at the checks of both. If memory runs out, some of the
/// rounds hold it, or none. No round is another one after it.
fn join(
    alloc: Global,
    history: &History,
    rounds: &mut [Round],
    first: usize,
    target: usize,
) -> Result<(), AllocError>
    requires { All (IsSnapshotOf history.now.processes) rounds.old }
    ensures { rounds.new ≡ rounds.old }
{
    if first >= target || target >= rounds.len() {
        return Ok(());
    }
    let Some(channels) = joined(alloc, &rounds[target], &rounds[first])? else {
        return Ok(());
    };
    let limit = rounds.len();
    hold_from(history, rounds, target, limit, channels)
}

/// Has the round at a place of a block lean on the block's last one. Its first one is the first to
/// do so, and the last one is joined with it before.
///
/// It takes memory for each process that something is in transit to, and for each sender; for the
/// first round also for what is in transit at the checks of both. If memory runs out, some rounds
/// hold what they have in another place, or none. No round is another one after it.
pub(crate) fn lean_in_block(
    alloc: Global,
    history: &History,
    rounds: &mut [Round],
    round: usize,
    last: usize,
    place: usize,
) -> Result<(), AllocError>
    requires { All (IsSnapshotOf history.now.processes) rounds.old }
    ensures { rounds.new ≡ rounds.old }
{
    if place > 0 {
        return lean(alloc, history, rounds, round, last);
    }
    join(alloc, history, rounds, round, last)?;
    lean(alloc, history, rounds, round, last)
}
