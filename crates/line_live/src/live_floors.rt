//! How a world lets go what stands before the line where every process fails.
ghost use Rattle.std.specs.Prelude.{◌≡◌, ◌≢◌, ◌<◌, ◌≤◌, ℕ, IfErr, IfOk, IsErrOf, IsTrue, OnOk};
ghost use Rattle.std.specs.Prelude.{None, Some, true};
ghost use Rattle.line_names.specs.declared.limits.TheConstants.{MOST_PROCESSES};
ghost use Rattle.line_names.specs.Sets.{is_member};
ghost use Rattle.line_world.specs.Machine.{is_open};
ghost use Rattle.line_live.specs.CutMachines.{cut_machine};
ghost use Rattle.line_live.specs.Forgets.{idle_refusal, IsFloorWhereAllFail};
ghost use Rattle.line_live.specs.Machines.{IsSameMachine};

use crate::refusals::ForgetError;
use crate::worlds::cut_world;
use line_cuts::{OwnedFloor, floor_at};
use line_names::{ProcId, ProcSet};
use line_tape::Mode;
use line_world::World;
use std::alloc::{AllocError, Global};

/// All of `n` processes.
fn everyone(n: u32) -> ProcSet
    requires { n ≤ MOST_PROCESSES }
    ensures { (q : ℕ) → q < n → is_member result q ≡ true }
{
    let mut all = ProcSet::empty();
    for q in 0..n {
        all = all.with(ProcId::try_new(q, n).unwrap());
    }
    all
}

/// The floor at the latest line of a world where every process fails.
fn live_floor(alloc: Global, world: &World) -> Result<OwnedFloor, AllocError>
    ensures { IfOk result (λ floor. IsFloorWhereAllFail world.now floor) }
{
    let catalogue = world.catalogue();
    let failed = everyone(catalogue.n());
    match world.plan_for(alloc, &failed) {
        Ok(plan) => match floor_at(alloc, catalogue, &plan.line, world.last_round())? {
            Some(floor) => Ok(floor),
            None => unreachable!(),
        },
        // Each of the set is a process, so that nothing else than memory is refused.
        Err(_) => Err(AllocError),
    }
}

/// The floor at the latest line of a world where every process fails, if it lets go what stands
/// before it.
pub(crate) fn line_floor(alloc: Global, world: &World) -> Result<OwnedFloor, ForgetError>
    ensures floor { IfOk result (λ floor. IsFloorWhereAllFail world.now floor) }
    ensures done { OnOk result (idle_refusal world.now.mode (is_open world.now) None ≡ None) }
    ensures refused { IfErr result (λ e. e ≢ ForgetError.OutOfMemory
        → idle_refusal world.now.mode (is_open world.now) None ≡ Some e) }
    ensures memory { IsErrOf result ForgetError.OutOfMemory
        → idle_refusal world.now.mode (is_open world.now) None ≡ None }
{
    match world.mode() {
        Mode::Unordered => Err(ForgetError::WrongMode),
        Mode::Fifo => {
            if world.is_open() {
                return Err(ForgetError::RoundOpen);
            }
            let floor = live_floor(alloc, world)?;
            Ok(floor)
        }
    }
}

/// Lets go what stands before the line that a recovery would go back to if every process failed:
/// tells the floor there, and what is left of the world, in memory of its own. No recovery goes
/// back further, unless a check of that line is damaged or a process is barred before it.
///
/// It needs no round. The world itself is only read: where something is refused, memory too,
/// nothing has changed. It costs what `plan_for`, `floor_at` and `cut_world` do.
pub fn forget_live(alloc: Global, world: &World) -> Result<(OwnedFloor, World), ForgetError>
    ensures floor { IfOk result (λ left. IsFloorWhereAllFail world.now left.0) }
    ensures left { IfOk result (λ left. IsSameMachine left.1 (cut_machine left.0 world.now)) }
    ensures done { OnOk result (idle_refusal world.now.mode (is_open world.now) None ≡ None) }

    // The refusals, in their order.
    ensures refused { IfErr result (λ e. e ≢ ForgetError.OutOfMemory
        → idle_refusal world.now.mode (is_open world.now) None ≡ Some e) }
    ensures memory { IsErrOf result ForgetError.OutOfMemory
        → idle_refusal world.now.mode (is_open world.now) None ≡ None }
{
    let floor = line_floor(alloc, world)?;
    let left = cut_world(alloc, world, &floor)?;
    Ok((floor, left))
}
