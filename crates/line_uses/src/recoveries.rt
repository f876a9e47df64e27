//! Workers that fail, and go on from the recovery line of what all did.
ghost use Rattle.std.specs.Prelude.{◌≡◌, IfOk};
ghost use Rattle.recline.specs.Fit.{IsFitFifo};
ghost use Rattle.recline.specs.Generations.{AreLined, IsGeneration};
ghost use Rattle.recline.specs.Survival.{IsLatest};

use anyhow::Result;
use recline::ProcSet;
use recline::plan::Plan;
use recline::workers::{Collector, Gathered, Post, Work, fleet, gather, run_crew};
use std::alloc::Global;
use std::sync::Wait;
use std::thread::Threads;

/// How many items a ring holds.
const CAPACITY: usize = 64;

/// Workers of one generation do their work, each in a thread of its own; then these failed, and
/// what all did is gathered.
pub fn run_generation<W: Work, R: Threads + Wait + Sync>(
    rt: &R,
    work: &W,
    collector: Collector,
    posts: Vec<Post>,
    failed: ProcSet,
) -> Result<Gathered>
    requires generation { IsGeneration posts.items }
    requires lines { AreLined collector posts.items }
    ensures { IfOk result (λ gathered. gathered.failed ≡ failed) }
{
    let (collector, posts) = run_crew(rt, work, collector, posts)?;
    match gather(collector, posts, failed) {
        Ok(gathered) => Ok(gathered),
        Err(refused) => Err(refused.why.into()),
    }
}

/// The first generation: so many workers, of which these fail.
pub fn run_first<W: Work, R: Threads + Wait + Sync>(
    rt: &R,
    alloc: Global,
    workers: u32,
    work: &W,
    failed: ProcSet,
) -> Result<Gathered>
    ensures { IfOk result (λ gathered. gathered.failed ≡ failed) }
{
    let (collector, posts) = fleet(alloc, workers, CAPACITY)?;
    let gathered = run_generation(rt, work, collector, posts, failed)?;
    Ok(gathered)
}

/// The plan of the recovery line, and the next generation, which goes on from there. None of its
/// workers fails, so what all did in both is a history that links in order can lead to.
pub fn run_next<W: Work, R: Threads + Wait + Sync>(
    rt: &R,
    work: &W,
    gathered: Gathered,
) -> Result<(Plan, Gathered)>
    ensures latest { IfOk result (λ told.
        IsLatest gathered.processes gathered.marks gathered.failed told.0.line) }
    ensures fit { IfOk result (λ told. IsFitFifo told.1.processes) }
{
    match gathered.restart() {
        Ok((collector, posts, plan)) => {
            let next = run_generation(rt, work, collector, posts, ProcSet::empty())?;
            let _fit = next.history();
            Ok((plan, next))
        }
        Err(refused) => Err(refused.why.into()),
    }
}
