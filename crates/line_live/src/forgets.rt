//! How a world lets go what stands before a listed round.
ghost use Rattle.std.specs.Prelude.{◌≡◌, ◌≢◌, ◌<◌, IfErr, IfOk, IsErrOf, OnOk, MatchOption};
ghost use Rattle.std.specs.Prelude.{None, Some, false, true, length, slice_index_or};
ghost use Rattle.line_tape.specs.declared.modes.Mode.TheVariants.{Fifo};
ghost use Rattle.line_tape.specs.Rounds.{check_line};
ghost use Rattle.line_moves.specs.Listed.{ListedRound, IsSnapshotOf};
ghost use Rattle.line_cuts.specs.Cuts.{IsFloor};
ghost use Rattle.line_cuts.specs.Floors.{floor_of_line};
ghost use Rattle.line_live.specs.CutMachines.{cut_machine};
ghost use Rattle.line_live.specs.Forgets.{forget_refusal, is_safe, listed_of, IsFloorAt};
ghost use Rattle.line_live.specs.Forgets.{IsFloorOfRound};
ghost use Rattle.line_live.specs.Machines.{IsSameMachine};

use crate::listed::line_of_checks;
use crate::refusals::ForgetError;
use crate::worlds::cut_world;
use line_cuts::{OwnedFloor, floor_at};
use line_moves::Round;
use line_names::{Choice, ProcId, ProcSet};
use line_tape::Mode;
use line_world::World;
use std::alloc::{AllocError, Global};

/// Where the round of a number stands among listed rounds, if it is one of them.
fn place_of(rounds: &[Round], number: u32) -> Option<usize>
    ensures { MatchOption result (listed_of rounds.now number ≡ None)
        (λ i. (i < length rounds.now) × ((d : ListedRound)
        → listed_of rounds.now number ≡ Some (slice_index_or rounds.now i d))) }
{
    'each: for i in 0..rounds.len() {
        let round = &rounds[i];
        if round.number() == number {
            return Some(i);
        }
    }
    None
}

/// Whether the checks of a round of a world all survive, whoever failed.
fn is_safe(world: &World, round: &Round) -> bool
    requires { length round.now.checks ≡ length world.now.history }
    ensures { result ≡ is_safe world.now round.now }
{
    let catalogue = world.catalogue();
    let nobody = ProcSet::empty();
    let n = catalogue.n();
    'each: for q in 0..n {
        let p = ProcId::try_new(q, n).unwrap();
        if !catalogue.survives(p, Choice::Check(round.check(p)), &nobody) {
            return false;
        }
    }
    true
}

/// The floor at the checks of a listed round of a world.
fn floor_of_round(alloc: Global, world: &World, round: &Round) -> Result<OwnedFloor, AllocError>
    requires { IsSnapshotOf world.now.history round.now }
    ensures value { IfOk result (λ floor. floor
        ≡ floor_of_line world.now.history (check_line round.now.checks) world.now.last_round) }
    ensures floor { IfOk result (λ floor. IsFloor world.now.history floor) }
{
    let catalogue = world.catalogue();
    let _n = catalogue.n();
    let line = line_of_checks(round.checks());
    match floor_at(alloc, catalogue, &line, world.last_round())? {
        Some(floor) => Ok(floor),
        None => unreachable!(),
    }
}

/// The floor at the checks of a listed round of a world, if they survive.
fn surviving_floor(alloc: Global, world: &World, round: &Round) -> Result<OwnedFloor, ForgetError>
    requires snapshot { IsSnapshotOf world.now.history round.now }
    ensures floor { IfOk result (λ floor. IsFloorAt world.now round.now floor) }
    ensures safe { OnOk result (is_safe world.now round.now ≡ true) }
    ensures refused { IfErr result (λ e. e ≢ ForgetError.OutOfMemory
        → (is_safe world.now round.now ≡ false) × (e ≡ ForgetError.RoundLost)) }
    ensures memory { IsErrOf result ForgetError.OutOfMemory
        → is_safe world.now round.now ≡ true }
{
    if !is_safe(world, round) {
        return Err(ForgetError::RoundLost);
    }
    let floor = floor_of_round(alloc, world, round)?;
    Ok(floor)
}

/// The floor at the checks of the listed round of this number, if a world lets go what stands
/// before it.
pub(crate) fn round_floor(
    alloc: Global,
    world: &World,
    number: u32,
) -> Result<OwnedFloor, ForgetError>
    ensures floor { IfOk result (λ floor. IsFloorOfRound world.now number floor) }
    ensures done { OnOk result (forget_refusal world.now number ≡ None) }
    ensures refused { IfErr result (λ e. e ≢ ForgetError.OutOfMemory
        → forget_refusal world.now number ≡ Some e) }
    ensures memory { IsErrOf result ForgetError.OutOfMemory
        → forget_refusal world.now number ≡ None }
{
    match world.mode() {
        Mode::Unordered => Err(ForgetError::WrongMode),
        Mode::Fifo => {
            if world.is_open() {
                return Err(ForgetError::RoundOpen);
            }
            let rounds = world.rounds();
            match place_of(rounds, number) {
                Some(i) => surviving_floor(alloc, world, &rounds[i]),
                None => Err(ForgetError::NoSuchRound),
            }
        }
    }
}

/// Lets go what stands before the checks of the listed round of this number, and the rounds before
/// it: tells the floor there, and what is left of the world, in memory of its own.
///
/// The world itself is only read: where something is refused, memory too, nothing has changed. It
/// looks at each listed round up to that one, and costs what `floor_at` and `cut_world` do.
pub fn forget_round(
    alloc: Global,
    world: &World,
    number: u32,
) -> Result<(OwnedFloor, World), ForgetError>
    ensures floor { IfOk result (λ left. IsFloorOfRound world.now number left.0) }
    ensures left { IfOk result (λ left. IsSameMachine left.1 (cut_machine left.0 world.now)) }
    ensures done { OnOk result (forget_refusal world.now number ≡ None) }

    // The refusals, in their order.
    ensures refused { IfErr result (λ e. e ≢ ForgetError.OutOfMemory
        → forget_refusal world.now number ≡ Some e) }
    ensures memory { IsErrOf result ForgetError.OutOfMemory
        → forget_refusal world.now number ≡ None }
{
    let floor = round_floor(alloc, world, number)?;
    let left = cut_world(alloc, world, &floor)?;
    Ok((floor, left))
}
