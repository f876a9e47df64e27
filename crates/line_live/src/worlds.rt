//! What is left of a world.
ghost use Rattle.std.specs.Prelude.{◌≡◌, IfOk};
ghost use Rattle.line_tape.specs.declared.modes.Mode.TheVariants.{Fifo};
ghost use Rattle.line_cuts.specs.Cuts.{IsFloor};
ghost use Rattle.line_live.specs.CutMachines.{cut_machine};
ghost use Rattle.line_live.specs.Machines.{IsSameMachine};

use crate::listed::cut_listing;
use line_cuts::{OwnedFloor, cut_catalogue};
use line_world::World;
use std::alloc::{AllocError, Global};

/// What is left of a world whose links keep their order, in memory of its own: its tapes and its
/// marks are cut at the floor, each link holds what it held, and of the listed rounds those stay
/// none of whose checks is before the floor.
///
/// The world itself is only read: where memory is refused it is as it was. It costs what
/// `cut_catalogue` does, a queue for each pair of processes, and for each round that stays what
/// `Catalogue::transit` does.
pub fn cut_world(alloc: Global, world: &World, floor: &OwnedFloor) -> Result<World, AllocError>
    requires fifo { world.now.mode ≡ Fifo }
    requires last { floor.now.round ≡ world.now.last_round }
    requires floor { IsFloor world.now.history floor.now }
    ensures { IfOk result (λ cut. IsSameMachine cut (cut_machine floor.now world.now)) }
{
    let _history = world.history();
    let _mode = world.mode();
    let last_round = world.last_round();
    let catalogue = cut_catalogue(alloc, world.catalogue(), floor)?;
    let rounds = cut_listing(alloc, floor, world.rounds(), &catalogue)?;
    World::resume(alloc, catalogue, last_round, rounds)
}
