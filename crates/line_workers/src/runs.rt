//! A generation from its fleet to its gathering.
ghost use Rattle.std.specs.Prelude.{◌≡◌, ◌≢◌, ◌<◌, ◌≤◌, ◌⊎◌, ◌↔◌, ℕ, IfOk, IfErr, IsErrOf};
ghost use Rattle.std.specs.Prelude.{length};
ghost use Rattle.line_names.specs.Sets.{nobody};
ghost use Rattle.line_tape.specs.Fit.{IsFitFifo};
ghost use Rattle.line_tape.specs.History.{incarnation_at};
ghost use Rattle.line_tape.specs.Views.{no_marks};
ghost use Rattle.line_posts.specs.declared.refusals.GatherWhy.{GatherWhy};
ghost use Rattle.line_posts.specs.Extension.{Extends};
ghost use Rattle.line_posts.specs.Generations.{AreLined, AreWhole, IsGeneration};

use crate::crews::{NoThread, Work, run_crew};
use line_names::ProcSet;
use line_posts::{
    Collector, FleetError, GatherWhy, Gathered, MOST_CAPACITY, MOST_WORKERS, Post, fleet, gather,
};
use std::alloc::Global;
use std::sync::Wait;
use std::thread::Threads;
use thiserror::Error;

/// Why a run has no gathered history.
#[derive(Clone, Copy, Debug, PartialEq, Eq, Error)]
pub enum RunError {
    /// No fleet was opened.
    #[error(transparent)]
    Fleet(FleetError),
    /// A thread could not be started.
    #[error("a thread could not be started")]
    NoThread,
    /// What the workers did was not gathered.
    #[error(transparent)]
    Gather(GatherWhy),
}

impl From<FleetError> for RunError {
    ghost use Rattle.std.specs.Prelude.{◌≡◌};
    ghost use Rattle.line_workers.specs.declared.runs.RunError.TheVariants.{Fleet};

    ghost from_gives = { λ why e. e ≡ Fleet why };

    fn from(why: FleetError) -> RunError {
        RunError::Fleet(why)
    }
}

impl From<NoThread> for RunError {
    ghost use Rattle.std.specs.Prelude.{◌≡◌};
    ghost use Rattle.line_workers.specs.declared.runs.RunError.TheVariants as run_error;

    ghost from_gives = { λ no_thread e. e ≡ run_error.NoThread };

    fn from(_no_thread: NoThread) -> RunError {
        RunError::NoThread
    }
}

/// Gathers what a generation did in which no worker failed.
fn gather_all(collector: Collector, posts: Vec<Post>) -> Result<Gathered, GatherWhy>
    requires generation { IsGeneration posts.items }
    requires lines { AreLined collector posts.items }
    ensures fit { IfOk result (λ gathered. IsFitFifo gathered.processes) }
    ensures failed { IfOk result (λ gathered. gathered.failed ≡ nobody) }
    ensures onward { IfOk result (λ gathered. Extends gathered.processes collector.processes) }
    ensures marks { IfOk result (λ gathered. gathered.marks ≡ collector.marks) }
    ensures slots { IfOk result (λ gathered. gathered.capacity ≡ collector.capacity) }
    ensures why { IfErr result (λ why. AreWhole collector posts.items
        → why ≡ GatherWhy.OutOfMemory) }
{
    match gather(collector, posts, ProcSet::empty()) {
        Ok(gathered) => {
            let _fit = gathered.history();
            Ok(gathered)
        }
        Err(refused) => Err(refused.why),
    }
}

/// Opens a generation of `n` workers over rings of this capacity, has each do its work in a thread
/// of its own, and gathers what they did, no worker having failed.
pub fn run<W: Work, R: Threads + Wait + Sync>(
    rt: &R,
    alloc: Global,
    n: u32,
    capacity: usize,
    work: &W,
) -> Result<Gathered, RunError>
    ensures fit { IfOk result (λ gathered. IsFitFifo gathered.processes) }
    ensures failed { IfOk result (λ gathered. gathered.failed ≡ nobody) }
    ensures count { IfOk result (λ gathered. length gathered.processes ≡ n) }
    ensures incarnations { IfOk result (λ gathered.
        (q : ℕ) → incarnation_at gathered.processes q ≡ 0) }
    ensures marks { IfOk result (λ gathered. gathered.marks ≡ no_marks n) }
    ensures slots { IfOk result (λ gathered. gathered.capacity ≡ capacity) }

    // The refusals. A gathering is refused only where it is out of memory.
    ensures bad_count { IsErrOf result (RunError.Fleet FleetError.BadCount)
        ↔ ((n ≡ 0) ⊎ (MOST_WORKERS < n)) }
    ensures bad_capacity { IsErrOf result (RunError.Fleet FleetError.BadCapacity)
        ↔ ((n ≢ 0) × (n ≤ MOST_WORKERS) × ((capacity ≡ 0) ⊎ (MOST_CAPACITY < capacity))) }
    ensures gathering { IfErr result (λ e. (why : GatherWhy) → e ≡ RunError.Gather why
        → why ≡ GatherWhy.OutOfMemory) }
{
    let (collector, posts) = fleet(alloc, n, capacity)?;
    let (collector, posts) = run_crew(rt, work, collector, posts)?;
    match gather_all(collector, posts) {
        Ok(gathered) => Ok(gathered),
        Err(why) => Err(RunError::Gather(why)),
    }
}
