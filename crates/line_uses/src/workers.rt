//! Workers in threads, and the recovery line of what they did.
ghost use Rattle.std.specs.Prelude.{◌≡◌, length, IfOk};
ghost use Rattle.recline.specs.Sets.{nobody};
ghost use Rattle.recline.specs.Fit.{IsFitFifo};
ghost use Rattle.recline.specs.Survival.{IsLatest};

use anyhow::Result;
use recline::plan::Plan;
use recline::workers::{Exchange, Gathered, run};
use std::alloc::Global;
use std::sync::Wait;
use std::thread::Threads;

/// How many items a ring holds.
const CAPACITY: usize = 64;

/// So many workers, each in a thread of its own, exchange messages for so many turns; then all of
/// them are gathered, and a recovery line is planned: `Gathered::restart` would go on from it.
/// `Exchange` is what they do; write a `Work` of your own in its place.
pub fn plan_exchange<R: Threads + Wait + Sync>(
    rt: &R,
    alloc: Global,
    workers: u32,
    turns: u32,
) -> Result<(Gathered, Plan)>
    ensures count { IfOk result (λ told. length told.0.processes ≡ workers) }
    ensures failed { IfOk result (λ told. told.0.failed ≡ nobody) }
    ensures fit { IfOk result (λ told. IsFitFifo told.0.processes) }
    ensures latest { IfOk result (λ told.
        IsLatest told.0.processes told.0.marks told.0.failed told.1.line) }
{
    let gathered = run(rt, alloc, workers, CAPACITY, &Exchange::new(alloc, turns))?;
    let plan = gathered.plan()?;
    Ok((gathered, plan))
}
