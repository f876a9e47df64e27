//! What is left of listed rounds.
ghost use Rattle.std.specs.Prelude.{◌≡◌, ◌-◌, ◌≤◌, All, IfOk, IsTrue, filter, length, map};
ghost use Rattle.std.specs.List.{range_with_len};
ghost use Rattle.line_names.specs.declared.limits.TheConstants.{MOST_PROCESSES};
ghost use Rattle.line_tape.specs.Rounds.{check_line};
ghost use Rattle.line_cuts.specs.Cuts.{lost_checks};
ghost use Rattle.line_moves.specs.Listed.{ListedRound, check_in, IsSnapshotOf};
ghost use Rattle.line_live.specs.CutMachines.{cut_listed, is_listed_on};

use line_catalogue::Catalogue;
use line_cuts::OwnedFloor;
use line_moves::{Listing, Round};
use line_names::{Choice, Line, ProcId};
use line_rounds::{Channels, SharedChannels};
use std::alloc::{AllocError, Global};

/// Whether none of the checks of a round of `n` processes is before the floor.
fn is_listed_on(floor: &OwnedFloor, round: &Round, n: u32) -> bool
    requires few { n ≤ MOST_PROCESSES }
    requires floor { length floor.now.checks ≡ n }
    requires round { length round.now.checks ≡ n }
    ensures { result ≡ is_listed_on floor.now round.now }
{
    'each: for q in 0..n {
        let p = ProcId::try_new(q, n).unwrap();
        if floor.check(p) > round.check(p) {
            return false;
        }
    }
    true
}

/// The checks of a round of `n` processes, by their indices in what is left.
fn left_checks(
    alloc: Global,
    floor: &OwnedFloor,
    round: &Round,
    n: u32,
) -> Result<Vec<u32>, AllocError>
    requires few { n ≤ MOST_PROCESSES }
    requires round { length round.now.checks ≡ n }
    ensures { IfOk result (λ checks. checks.items
        ≡ map (λ p. check_in round.now p - lost_checks floor.now p) (range_with_len 0 n)) }
{
    let mut checks = Vec::with_capacity(alloc, n as usize)?;
    for q in 0..n {
        let p = ProcId::try_new(q, n).unwrap();
        let check = round.check(p);
        checks.push(check.saturating_sub(floor.checks_lost(p)))?;
    }
    Ok(checks)
}

/// The line of some checks, one of each process.
pub(crate) fn line_of_checks(checks: &[u32]) -> Line
    requires { length checks.now ≤ MOST_PROCESSES }
    ensures { result ≡ check_line checks.now }
{
    let mut line = Line::new();
    for check in checks {
        line.push(Choice::Check(*check));
    }
    line
}

/// What is left of a listed round, whose channels are counted anew in what is left.
fn cut_listed(
    alloc: Global,
    floor: &OwnedFloor,
    round: &Round,
    catalogue: &Catalogue,
) -> Result<Round, AllocError>
    requires count { length round.now.checks ≡ length catalogue.now.processes }
    requires snapshot { IsSnapshotOf catalogue.now.processes (cut_listed floor.now round.now) }
    ensures { IfOk result (λ cut. cut ≡ cut_listed floor.now round.now) }
{
    let _checks = round.checks();
    let checks = left_checks(alloc, floor, round, catalogue.n())?;
    let line = line_of_checks(&checks);
    let messages = catalogue.transit(alloc, &line)?;
    let channels = Channels::of(alloc, catalogue.history(), &messages)?;
    let shared = SharedChannels::new(alloc, channels)?;
    Ok(Round::of_channels(alloc, round.number(), checks, shared))
}

/// What is left of listed rounds: of those none of whose checks is before the floor.
///
/// `catalogue` is what is left of the tapes. For each round that stays it costs what
/// `Catalogue::transit` does.
pub(crate) fn cut_listing(
    alloc: Global,
    floor: &OwnedFloor,
    rounds: &[Round],
    catalogue: &Catalogue,
) -> Result<Listing, AllocError>
    requires floor { length floor.now.checks ≡ length catalogue.now.processes }
    requires counts { All (λ (round : ListedRound).
        length round.checks ≡ length catalogue.now.processes) rounds.now }
    requires snapshots { All (λ (round : ListedRound). IsTrue (is_listed_on floor.now round)
        → IsSnapshotOf catalogue.now.processes (cut_listed floor.now round)) rounds.now }
    ensures { IfOk result (λ cut. cut.items
        ≡ map (cut_listed floor.now) (filter (is_listed_on floor.now) rounds.now)) }
{
    let n = catalogue.n();
    let mut cut = Listing::new(alloc);
    for round in rounds {
        if is_listed_on(floor, round, n) {
            let left = cut_listed(alloc, floor, round, catalogue)?;
            cut.reserve()?;
            cut.push(left);
        }
    }
    Ok(cut)
}
