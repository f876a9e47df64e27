//! What the two workers and the collector do.
ghost use Rattle.line_posts.specs.Collected.{HasCollectedMore};
ghost use Rattle.line_posts.specs.Generations.{IsSamePost};

use line_names::{Body, ProcId};
use line_posts::{Collector, Post, Received};
use line_tape::{State, Tape};
use line_workers::Work;
use std::alloc::Global;
use std::thread::yield_now;

/// How many numbers each worker sends.
pub const COUNT: u64 = 100;

/// How many numbers a worker sends at first; then it sends one for each that it has received.
const AHEAD: u64 = 3;

/// A worker reports after each so many numbers.
const REPORTED: u32 = 10;

/// How often each worker looks again, at most.
const TURNS: u32 = 1_000_000_000;

/// What the two workers and the collector do, until each worker has added so many numbers.
#[derive(Drop)]
pub struct Sums {
    alloc: Global,
    until: u64,
}

impl Sums {
    /// Until each worker has added so many numbers.
    pub fn new(alloc: Global, until: u64) -> Sums {
        Sums { alloc, until }
    }
}

/// The number that these bytes are.
fn number_of(bytes: &[u8]) -> u64 {
    let mut number = 0u64;
    for byte in bytes {
        number = number.wrapping_mul(256).wrapping_add(u64::from(*byte));
    }
    number
}

/// The sum that a worker's last check keeps.
pub fn sum_of(tape: &Tape) -> u64 {
    number_of(tape.state(tape.checks()))
}

/// Sends the number of that place, counted from 1, if the ring takes it.
fn send_next(post: &mut Post, to: ProcId, place: u64)
    ensures { IsSamePost post.old post.new }
{
    let power = if post.number() == 0 { 1 } else { place };
    let Ok(body) = Body::try_new(place.wrapping_mul(power).to_be_bytes().as_slice()) else {
        return;
    };
    let _ = post.send(to, body);
}

/// Takes a check with a sum, and after each so many reports; false where one of them is refused.
fn keep(alloc: Global, post: &mut Post, sum: u64) -> bool
    ensures { IsSamePost post.old post.new }
{
    let Ok(bytes) = Vec::from_slice(alloc, sum.to_be_bytes().as_slice()) else {
        return false;
    };
    let Ok(index) = post.check(State::of(bytes)) else {
        return false;
    };
    if index % REPORTED != 0 {
        return true;
    }
    post.report().is_ok()
}

/// Receives a number, if there is one, and keeps the sum with it; false where that is refused, so
/// that the worker has to stop.
fn add_next(alloc: Global, post: &mut Post, from: ProcId) -> bool
    ensures { IsSamePost post.old post.new }
{
    let sum = sum_of(post.tape());
    let Ok(Received::Message { body, .. }) = post.receive(from, State::of(Vec::new(alloc))) else {
        return true;
    };
    keep(alloc, post, sum.wrapping_add(number_of(body.bytes())))
}

/// Does what comes next by its tape: sends a number, or receives one. False where it has added so
/// many, or has to stop.
fn turn(alloc: Global, post: &mut Post, other: ProcId, until: u64) -> bool
    ensures { IsSamePost post.old post.new }
{
    let sent = u64::from(post.tape().sends());
    let added = u64::from(post.tape().checks());
    if added >= until {
        return false;
    }
    if sent < COUNT && sent < added + AHEAD {
        send_next(post, other, sent + 1);
        return true;
    }
    add_next(alloc, post, other)
}

impl Work for Sums {
    fn work(&self, post: Post) -> Post
        ensures { IsSamePost post result }
    {
        let mut post = post;
        let Ok(other) = ProcId::try_new(u32::from(post.number() == 0), 2) else {
            return post;
        };
        for _turn in 0..TURNS {
            if !turn(self.alloc, &mut post, other, self.until) {
                return post;
            }
            yield_now();
        }
        post
    }

    fn collect(&self, collector: Collector) -> Collector
        ensures { HasCollectedMore collector result }
    {
        let mut collector = collector;
        for _turn in 0..1_000 {
            let _ = collector.take(64);
            let _ = collector.plan_live();
            yield_now();
        }
        collector
    }
}
