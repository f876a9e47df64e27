//! The parts that a machine is opened anew of, and what refuses them.
ghost use Rattle.std.specs.Prelude.{◌≡◌, ◌≢◌, ◌↔◌, ℕ, false, true, All, IfErr, IfOk, IsErrOf};
ghost use Rattle.std.specs.Prelude.{IsTrue, OnOk, length, map, slice_index_or};
ghost use Rattle.line_tape.specs.Line.{IsLine};
ghost use Rattle.line_tape.specs.Rounds.{check_line};
ghost use Rattle.line_tape.specs.declared.modes.Mode.TheVariants.{Fifo};
ghost use Rattle.line_moves.specs.Listed.{ListedRound};
ghost use Rattle.line_world.specs.Idle.{IsIdle};
ghost use Rattle.line_world.specs.Machine.{is_open};
ghost use Rattle.line_cuts.specs.Floors.{HasNumbers};
ghost use Rattle.line_live.specs.Lived.{LetsNothingGo};
ghost use Rattle.line_live.specs.Resumed.{checks_in_round, resumed_round, AreByNumber};
ghost use Rattle.line_live.specs.Resumed.{AreChecks, HasFloor, IsConsistentRound, IsFloorOfAll};
ghost use Rattle.line_live.specs.Resumed.{IsResumeRefused};

use crate::held::{has_floor, is_consistent_at};
use crate::listed::line_of_checks;
use crate::refusals::ResumeError;
use line_catalogue::Catalogue;
use line_cuts::OwnedFloor;
use line_moves::{Listing, Round};
use line_rounds::{Channels, SharedChannels};
use line_tape::is_line;
use line_world::{World, is_idle};
use std::alloc::{AllocError, Global};
use std::marker::Model;

/// A listed round by its number and its check of each process: what tells it from every other one
/// of a history.
#[derive(Debug, Drop)]
pub struct RoundChecks {
    number: u32,
    checks: Vec<u32>,
}

impl Model for RoundChecks {
    ghost use Rattle.line_live.specs.Resumed.{CheckedRound};

    ghost Value = { CheckedRound };

    ghost view = { λ r. record {
      number = r.number;
      checks = r.checks.items;
    } };
}

impl RoundChecks {
    /// The round of this number with these checks, by process.
    pub fn of(number: u32, checks: Vec<u32>) -> RoundChecks
        ensures number { result.number ≡ number }
        ensures checks { result.checks ≡ checks.items }
    {
        RoundChecks { number, checks }
    }
}

/// Whether all of some numbers are 0.
fn are_zero(numbers: &[u32]) -> bool
    ensures { result ≡ true → (p : ℕ) → slice_index_or numbers.now p 0 ≡ 0 }
{
    'each: for number in numbers {
        if *number > 0 {
            return false;
        }
    }
    true
}

/// Whether nothing stands before a floor.
pub(crate) fn lets_nothing_go(floor: &OwnedFloor) -> bool
    ensures { result ≡ true → LetsNothingGo floor.now }
{
    are_zero(floor.checks()) && are_zero(floor.counts())
}

/// Whether a floor is of `n` processes.
fn is_floor_of_all(floor: &OwnedFloor, n: u32) -> bool
    ensures { IsTrue result ↔ IsFloorOfAll n floor.now }
{
    floor.checks().len() == n as usize && floor.counts().len() == n as usize
}

/// Whether rounds stand in the order of their numbers, with none later than the last one begun.
fn are_by_number(last: u32, rounds: &[RoundChecks]) -> bool
    ensures { IsTrue result ↔ AreByNumber last rounds.now }
{
    'each: for i in 0..rounds.len() {
        let round = &rounds[i];
        if round.number > last {
            return false;
        }
        if i > 0 {
            let before = &rounds[i - 1];
            if before.number >= round.number {
                return false;
            }
        }
    }
    true
}

/// Whether none of some checks is an initial state.
fn are_checks(checks: &[u32]) -> bool
    ensures { IsTrue result ↔ AreChecks checks.now }
{
    'each: for check in checks {
        if *check == 0 {
            return false;
        }
    }
    true
}

/// Whether the checks of a round make a consistent line, and none is an initial state.
fn is_consistent_round(
    alloc: Global,
    catalogue: &Catalogue,
    round: &RoundChecks,
) -> Result<bool, AllocError>
    ensures { IfOk result (λ consistent.
        IsTrue consistent ↔ IsConsistentRound catalogue.now.processes round.now) }
{
    if round.checks.len() != catalogue.n() as usize {
        return Ok(false);
    }
    if !are_checks(&round.checks) {
        return Ok(false);
    }
    let line = line_of_checks(&round.checks);
    if !is_line(catalogue.history(), &line) {
        return Ok(false);
    }
    is_consistent_at(alloc, catalogue, &line)
}

/// The listed round of some checks. What is in transit there is kept, so that for a later round
/// nothing before it is looked at again.
fn resumed_round(
    alloc: Global,
    catalogue: &mut Catalogue,
    round: &RoundChecks,
) -> Result<Round, AllocError>
    requires { IsLine catalogue.old.processes (check_line round.now.checks) }
    ensures round { IfOk result
        (λ listed. listed ≡ resumed_round catalogue.old.processes round.now) }
    ensures same { catalogue.new ≡ catalogue.old }
{
    let _n = catalogue.n();
    let checks = Vec::from_slice(alloc, &round.checks)?;
    let line = line_of_checks(&checks);
    let messages = catalogue.transit(alloc, &line)?;
    let channels = Channels::of(alloc, catalogue.history(), &messages)?;
    let shared = SharedChannels::new(alloc, channels)?;
    catalogue.keep_transit(&line, messages);
    Ok(Round::of_channels(alloc, round.number, checks, shared))
}

/// The listed rounds of some checks, if these make consistent lines.
pub(crate) fn resumed_listing(
    alloc: Global,
    catalogue: &mut Catalogue,
    rounds: &[RoundChecks],
) -> Result<Listing, ResumeError>
    ensures rounds { IfOk result (λ listing.
        listing.items ≡ map (resumed_round catalogue.old.processes) rounds.now) }
    ensures consistent { OnOk result
        (All (IsConsistentRound catalogue.old.processes) rounds.now) }
    ensures refused { IfErr result (λ e. e ≢ ResumeError.OutOfMemory
        → (e ≡ ResumeError.NotConsistent)
        × (All (IsConsistentRound catalogue.old.processes) rounds.now → ⊥)) }
    ensures same { catalogue.new ≡ catalogue.old }
{
    let mut listing = Listing::new(alloc);
    for round in rounds {
        let consistent = is_consistent_round(alloc, catalogue, round)?;
        if !consistent {
            return Err(ResumeError::NotConsistent);
        }
        let listed = resumed_round(alloc, catalogue, round)?;
        listing.reserve()?;
        listing.push(listed);
    }
    Ok(listing)
}

/// Tests what a machine is to be opened of, but for the checks of its listed rounds.
pub(crate) fn test_parts(
    alloc: Global,
    catalogue: &Catalogue,
    floor: &OwnedFloor,
    last: u32,
    rounds: &[RoundChecks],
) -> Result<(), ResumeError>
    ensures floor { OnOk result (IsFloorOfAll (length catalogue.now.processes) floor.now) }
    ensures numbers { OnOk result (HasNumbers floor.now) }
    ensures order { OnOk result (AreByNumber last rounds.now) }
    ensures idle { OnOk result (IsIdle catalogue.now.processes last) }
    ensures held { OnOk result
        (HasFloor catalogue.now.processes catalogue.now.marks floor.now) }
    ensures refused { IfErr result (λ e. e ≢ ResumeError.OutOfMemory
        → IsResumeRefused catalogue.now.processes catalogue.now.marks floor.now last
        rounds.now e) }
    ensures memory { IsErrOf result ResumeError.OutOfMemory
        → IsFloorOfAll (length catalogue.now.processes) floor.now
        × HasNumbers floor.now × AreByNumber last rounds.now }
{
    if !is_floor_of_all(floor, catalogue.n()) {
        return Err(ResumeError::ForeignFloor);
    }
    if !floor.has_numbers() {
        return Err(ResumeError::NoMoreNumbers);
    }
    if !are_by_number(last, rounds) {
        return Err(ResumeError::RoundsDisordered);
    }
    if !is_idle(alloc, catalogue.history(), last)? {
        return Err(ResumeError::NotIdle);
    }
    if !has_floor(alloc, catalogue, floor)? {
        return Err(ResumeError::FloorLost);
    }
    Ok(())
}

/// Looks at each listed round of a world: its checks are what tells it. Where links keep their
/// order and no round is open, the world can be opened anew.
pub(crate) fn look_at_rounds(world: &World)
    requires checked { All (λ (round : ListedRound). AreChecks round.checks) world.now.rounds }
    ensures idle { world.now.mode ≡ Fifo → is_open world.now ≡ false
        → IsIdle world.now.history world.now.last_round }
    ensures order { AreByNumber world.now.last_round (map checks_in_round world.now.rounds) }
    ensures consistent { All (IsConsistentRound world.now.history)
        (map checks_in_round world.now.rounds) }
    ensures same { map (resumed_round world.now.history) (map checks_in_round world.now.rounds)
        ≡ world.now.rounds }
{
    let _last_round = world.last_round();
    let rounds = world.rounds();
    'each: for round in rounds {
        let _checks = round.checks();
    }
}
