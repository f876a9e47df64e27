//! Drive a world: messages, checkpoints, failures and recoveries on one thread.
ghost use Rattle.std.specs.Prelude.{IfOk};
ghost use Rattle.recline.specs.Machine.{start};
ghost use Rattle.recline.specs.Runs.{Run};

use anyhow::Result;
use recline::world::{Answer, Mode, Step, World};
use std::alloc::Global;

/// What a world of `n` processes answers to these steps, and the world that they lead to, which
/// takes further ones. A step that is refused is answered so, and the others are taken.
pub fn run_world(alloc: Global, n: u32, mode: Mode, steps: &[Step]) -> Result<(World, Vec<Answer>)>
    ensures { IfOk result (λ told. Run (start n mode) steps.now told.1.items told.0) }
{
    let mut world = World::new(alloc, n, mode)?;
    let answers = world.run(alloc, steps)?;
    Ok((world, answers))
}
