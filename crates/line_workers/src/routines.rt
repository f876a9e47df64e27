//! Workers that make the same few calls over and over.
ghost use Rattle.line_posts.specs.Collected.{HasCollectedMore};
ghost use Rattle.line_posts.specs.Generations.{IsSamePost};

use crate::crews::Work;
use line_names::{Body, ProcId};
use line_posts::{Collector, MOST_WORKERS, Post};
use line_tape::State;
use std::alloc::Global;
use std::thread::yield_now;

/// In each of `turns` turns a worker sends to the next one, receives from the one before it, takes
/// a check and reports. Meanwhile the collector takes reports and plans, as many times.
#[derive(Drop)]
pub struct Routine {
    alloc: Global,
    turns: u32,
}

impl Routine {
    /// A routine of `turns` turns.
    pub fn new(alloc: Global, turns: u32) -> Routine {
        Routine { alloc, turns }
    }
}

/// The worker after this one and the one before it; the first comes after the last.
fn neighbours(post: &Post) -> Option<(ProcId, ProcId)> {
    let n = post.n();
    if n == 0 || n > MOST_WORKERS {
        return None;
    }
    let n = n as u32;
    let me = post.number() % n;
    let next = ProcId::try_new((me + 1) % n, n).ok()?;
    let last = ProcId::try_new((me + n - 1) % n, n).ok()?;
    Some((next, last))
}

impl Work for Routine {
    fn work(&self, post: Post) -> Post
        ensures { IsSamePost post result }
    {
        let mut post = post;
        let Some((next, last)) = neighbours(&post) else {
            return post;
        };
        for _turn in 0..self.turns {
            let Ok(body) = Body::try_new(b"7") else {
                return post;
            };
            let _ = post.send(next, body);
            let _ = post.receive(last, State::of(Vec::new(self.alloc)));
            let _ = post.check(State::of(Vec::new(self.alloc)));
            let _ = post.report();
            yield_now();
        }
        post
    }

    fn collect(&self, collector: Collector) -> Collector
        ensures { HasCollectedMore collector result }
    {
        let mut collector = collector;
        for _turn in 0..self.turns {
            let _ = collector.take(64);
            let _ = collector.plan_live();
            yield_now();
        }
        collector
    }
}
