//! Workers that send and receive as fast as they can, beside an idle collector.
ghost use Rattle.std.specs.Prelude.{◌≤◌};
ghost use Rattle.line_posts.specs.Collected.{HasCollectedMore};
ghost use Rattle.line_posts.specs.Generations.{IsSamePost};

use crate::crews::Work;
use line_names::{Body, ProcId};
use line_posts::{Collector, MOST_WORKERS, Post, ReceiveWhy, SendWhy};
use line_tape::State;
use std::alloc::Global;
use std::thread::yield_now;

/// Sends as soon as the ring has a free slot. It answers `false` where the send is refused for any
/// other reason.
fn send_soon(post: &mut Post, to: ProcId, body: &Body) -> bool
    ensures { IsSamePost post.old post.new }
{
    for _turn in 0..u64::MAX {
        let Err(refused) = post.send(to, body.copy()) else {
            return true;
        };
        if refused.why != SendWhy::RingFull {
            return false;
        }
        yield_now();
    }
    false
}

/// Receives as soon as something has come. It answers `false` where the receive is refused for any
/// other reason.
fn receive_soon(alloc: Global, post: &mut Post, from: ProcId) -> bool
    ensures { IsSamePost post.old post.new }
{
    for _turn in 0..u64::MAX {
        let Err(why) = post.receive(from, State::of(Vec::new(alloc))) else {
            return true;
        };
        if why != ReceiveWhy::NothingThere {
            return false;
        }
        yield_now();
    }
    false
}

/// Worker 0 sends `count` messages to worker 1, which receives them.
#[derive(Drop)]
pub struct Stream {
    alloc: Global,
    count: u32,
}

impl Stream {
    /// A stream of `count` messages.
    pub fn new(alloc: Global, count: u32) -> Stream {
        Stream { alloc, count }
    }
}

impl Work for Stream {
    fn work(&self, post: Post) -> Post
        ensures { IsSamePost post result }
    {
        let mut post = post;
        let Ok(body) = Body::try_new(&[7; 40]) else {
            return post;
        };
        let Ok(other) = ProcId::try_new(u32::from(post.number() == 0), 2) else {
            return post;
        };
        let sends = post.number() == 0;
        for _message in 0..self.count {
            let is_done = if sends {
                send_soon(&mut post, other, &body)
            } else {
                receive_soon(self.alloc, &mut post, other)
            };
            if !is_done {
                return post;
            }
        }
        post
    }

    fn collect(&self, collector: Collector) -> Collector
        ensures { HasCollectedMore collector result }
    {
        collector
    }
}

/// In each of `turns` turns each worker sends a message to each other one, and then receives one
/// from each.
#[derive(Drop)]
pub struct Exchange {
    alloc: Global,
    turns: u32,
}

impl Exchange {
    /// An exchange of `turns` turns.
    pub fn new(alloc: Global, turns: u32) -> Exchange {
        Exchange { alloc, turns }
    }
}

/// Sends a message to each other one of `n` workers. It answers `false` where a send is refused.
fn send_each(post: &mut Post, n: u32, body: &Body) -> bool
    requires { n ≤ MOST_WORKERS }
    ensures { IsSamePost post.old post.new }
{
    for q in 0..n {
        if q != post.number() {
            let Ok(to) = ProcId::try_new(q, n) else {
                return false;
            };
            if !send_soon(post, to, body) {
                return false;
            }
        }
    }
    true
}

/// Receives a message from each other one of `n` workers. It answers `false` where a receive is
/// refused.
fn receive_each(alloc: Global, post: &mut Post, n: u32) -> bool
    requires { n ≤ MOST_WORKERS }
    ensures { IsSamePost post.old post.new }
{
    for p in 0..n {
        if p != post.number() {
            let Ok(from) = ProcId::try_new(p, n) else {
                return false;
            };
            if !receive_soon(alloc, post, from) {
                return false;
            }
        }
    }
    true
}

impl Work for Exchange {
    fn work(&self, post: Post) -> Post
        ensures { IsSamePost post result }
    {
        let mut post = post;
        let Ok(body) = Body::try_new(&[7; 40]) else {
            return post;
        };
        if post.n() > MOST_WORKERS {
            return post;
        }
        let n = post.n() as u32;
        for _turn in 0..self.turns {
            if !send_each(&mut post, n, &body) {
                return post;
            }
            if !receive_each(self.alloc, &mut post, n) {
                return post;
            }
        }
        post
    }

    fn collect(&self, collector: Collector) -> Collector
        ensures { HasCollectedMore collector result }
    {
        collector
    }
}
