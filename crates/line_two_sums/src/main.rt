//! Two workers add up the numbers that the other sends, each in a thread of its own. One of them
//! fails in the middle; both go on from the recovery line, and end with the right sums.
//!
//! Worker 0 sends 1, 2, 3 and so on up to 100, worker 1 their squares. After each number that it
//! receives a worker takes a check, whose state is its sum so far. What it does next it reads off
//! its tape alone. So it goes on from a recovery line as it would have gone on there before: what
//! it sent after the line it sends again, and what it received after the line it receives again,
//! from the sender or as a replay. And so its tape is the same whatever the order in which the
//! threads take their turns.
#![tactic(auto)]

mod sums;

ghost use Rattle.std.specs.Prelude.{◌≡◌, IfOk};
ghost use Rattle.line_tape.specs.Fit.{IsFitFifo};
ghost use Rattle.line_posts.specs.Generations.{AreLined, IsGeneration};

use anyhow::Result;
use line_names::{Choice, ProcId, ProcSet};
use line_plan::Plan;
use line_posts::{Collector, Gathered, Post, fleet, gather};
use line_tape::History;
use line_workers::run_crew;
use std::alloc::Global;
use std::sync::Wait;
use std::thread::Threads;
use sums::{COUNT, Sums, sum_of};

/// How many numbers each worker has added when worker 1 fails.
const FAILURE: u64 = 57;

/// How many items a ring holds: more than a worker does in a run, so that nobody waits for a slot.
const CAPACITY: usize = 512;

/// All do their work, and what they did is gathered.
fn run<R: Threads + Wait + Sync>(
    rt: &R,
    sums: &Sums,
    collector: Collector,
    posts: Vec<Post>,
    failed: ProcSet,
) -> Result<Gathered>
    requires generation { IsGeneration posts.items }
    requires lines { AreLined collector posts.items }
    ensures { IfOk result (λ gathered. gathered.failed ≡ failed) }
{
    let (collector, posts) = run_crew(rt, sums, collector, posts)?;
    match gather(collector, posts, failed) {
        Ok(gathered) => Ok(gathered),
        Err(refused) => Err(refused.why.into()),
    }
}

/// The first run, in which worker 1 fails: what it did after its last report is lost.
fn first_run<R: Threads + Wait + Sync>(rt: &R, alloc: Global) -> Result<Gathered> {
    let (collector, posts) = fleet(alloc, 2, CAPACITY)?;
    let failed = ProcSet::empty().with(ProcId::try_new(1, 2)?);
    run(rt, &Sums::new(alloc, FAILURE), collector, posts, failed)
}

/// Tells where each worker goes on from, and which messages are replayed.
fn tell<R: Print>(rt: &R, plan: &Plan) -> Result<()> {
    for (p, choice) in plan.line.choices().iter().enumerate() {
        match choice {
            Choice::Check(check) => println!(rt; "worker {p} goes on from its check {check}")?,
            Choice::Now => println!(rt; "worker {p} goes on from where it stands")?,
        }
    }
    for message in &plan.replays {
        let (number, from) = (message.number, message.from.get());
        println!(rt; "message {number} of worker {from} is replayed")?;
    }
    Ok(())
}

/// Both go on from the recovery line to the end. What they did in all is a history that links in
/// order can lead to: each received what the other sent, none of it twice and none left out.
fn go_on<R: Threads + Wait + Sync + Print>(
    rt: &R,
    alloc: Global,
    gathered: Gathered,
) -> Result<Gathered>
    ensures { IfOk result (λ gathered. IsFitFifo gathered.processes) }
{
    match gathered.restart() {
        Ok((collector, posts, plan)) => {
            tell(rt, &plan)?;
            let sums = Sums::new(alloc, COUNT);
            let gathered = run(rt, &sums, collector, posts, ProcSet::empty())?;
            let _fit = gathered.history();
            Ok(gathered)
        }
        Err(refused) => Err(refused.why.into()),
    }
}

/// Tells what each worker added up.
fn tell_sums<R: Print>(rt: &R, history: &History) -> Result<()> {
    let n = history.n();
    for p in 0..n {
        let sum = sum_of(history.tape(ProcId::try_new(p, n)?));
        println!(rt; "worker {p} added up {sum}")?;
    }
    Ok(())
}

fn main(rt: HostRuntime) -> Result<()> {
    let gathered = first_run(&rt, rt.alloc())?;
    let gathered = go_on(&rt, rt.alloc(), gathered)?;
    tell_sums(&rt, gathered.history())
}
