//! The lines that a collector plans while its workers run.
ghost use Rattle.line_posts.specs.Collected.{HasCollectedMore};
ghost use Rattle.line_posts.specs.Generations.{IsSamePost};

use crate::tests::workers::seen::have_checks;
use line_check::check_consistent;
use line_names::Line;
use line_posts::{Collector, Gathered, Post};
use line_workers::{Routine, Work, run};
use std::alloc::Global;
use std::sync::OnceLock;
use std::test::Fail;
use std::thread::yield_now;

/// How many turns each worker does.
const TURNS: u32 = 100;

/// How many plans the collector makes.
const PLANS: u32 = 300;

/// Workers of a routine, and a collector that keeps each line that it plans.
#[derive(Drop)]
struct Keeping {
    alloc: Global,
    routine: Routine,
    lines: OnceLock<Vec<Line>>,
}

impl Keeping {
    /// No line yet.
    fn new(alloc: Global) -> Keeping {
        Keeping {
            alloc,
            routine: Routine::new(alloc, TURNS),
            lines: OnceLock::new(),
        }
    }

    /// How many lines were kept, and how many of them are consistent in what was gathered.
    fn counts(&self, gathered: &Gathered) -> (usize, usize) {
        match self.lines.get() {
            Some(lines) => (lines.len(), consistent_in(gathered, lines)),
            None => (0, 0),
        }
    }
}

/// How many of the lines are consistent in what was gathered.
fn consistent_in(gathered: &Gathered, lines: &[Line]) -> usize {
    lines
        .iter()
        .filter(|line| check_consistent(gathered.history(), line).is_ok())
        .count()
}

/// Takes reports, plans, and keeps the line.
fn look(collector: &mut Collector, lines: &mut Vec<Line>)
    ensures { HasCollectedMore collector.old collector.new }
{
    let _ = collector.take(64);
    if let Ok(plan) = collector.plan_live() {
        let _ = lines.push(plan.line);
    }
}

impl Work for Keeping {
    fn work(&self, post: Post) -> Post
        ensures { IsSamePost post result }
    {
        self.routine.work(post)
    }

    fn collect(&self, collector: Collector) -> Collector
        ensures { HasCollectedMore collector result }
    {
        let mut collector = collector;
        let mut lines = Vec::new(self.alloc);
        for _plan in 0..PLANS {
            look(&mut collector, &mut lines);
            yield_now();
        }
        let _ = self.lines.try_set(lines);
        collector
    }
}

#[test]
fn live_lines_stay_consistent(rt: HostRuntime) -> Result<(), Fail> {
    let keeping = Keeping::new(rt.alloc());
    let gathered = run(&rt, rt.alloc(), 3, 1, &keeping)?;
    assert_eq!(rt; keeping.counts(&gathered), (PLANS as usize, PLANS as usize));
    assert!(rt; have_checks(&gathered, 3, TURNS));
    Ok(())
}
