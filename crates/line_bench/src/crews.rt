//! Workers of one generation and their collector, driven by one thread.
ghost use Rattle.std.specs.Prelude.{◌<◌, length};
ghost use Rattle.line_posts.specs.Generations.{AreLined, AreSamePosts, IsGeneration, IsSamePost};

use crate::dice::Dice;
use crate::digests::Digest;
use crate::worlds::{add_name, add_plan, random_state};
use anyhow::Result;
use line_names::{Body, ProcId, ProcSet};
use line_posts::{Collector, Gathered, Post, Received, fleet, gather};
use line_tape::State;
use std::alloc::Global;

/// A call of a worker.
#[derive(Clone, Copy)]
pub enum Call {
    /// Sends a message to a worker.
    Send { to: ProcId },
    /// Receives what comes next from a worker.
    Receive { from: ProcId },
    /// Takes a check.
    Check,
    /// Reports what it did.
    Report,
}

/// The workers of a generation, by number, and their collector.
#[derive(Drop)]
pub struct Crew {
    collector: Collector,
    posts: Vec<Post>,
    ghost generation: { IsGeneration posts.items },
    ghost lines: { AreLined collector posts.items },
}

/// Sends a message of eight random bytes; answers whether it went out.
fn send(digest: &mut Digest, dice: &mut Dice, post: &mut Post, to: ProcId) -> bool
    ensures { IsSamePost post.old post.new }
{
    let Ok(body) = Body::try_new(&dice.word().to_le_bytes()) else {
        return false;
    };
    match post.send(to, body) {
        Ok(name) => {
            add_name(digest, &name);
            true
        }
        Err(refused) => {
            digest.number(u64::from(refused.why.code()));
            false
        }
    }
}

/// Receives what comes next from another worker; answers whether something came.
fn receive(alloc: Global, digest: &mut Digest, post: &mut Post, from: ProcId) -> bool
    ensures { IsSamePost post.old post.new }
{
    match post.receive(from, State::of(Vec::new(alloc))) {
        Ok(Received::Message { name, body }) => {
            add_name(digest, &name);
            digest.bytes(body.bytes());
            true
        }
        Ok(Received::Marked { round, forced }) => {
            digest.number(u64::from(round));
            digest.number(u64::from(forced));
            true
        }
        Err(why) => {
            digest.number(u64::from(why.code()));
            false
        }
    }
}

/// Takes a check of eight random bytes; answers whether it was taken.
fn check(alloc: Global, digest: &mut Digest, dice: &mut Dice, post: &mut Post) -> bool
    ensures { IsSamePost post.old post.new }
{
    let Ok(state) = random_state(alloc, dice) else {
        return false;
    };
    match post.check(state) {
        Ok(index) => {
            digest.number(u64::from(index));
            true
        }
        Err(why) => {
            digest.number(u64::from(why.code()));
            false
        }
    }
}

/// Reports; answers whether memory sufficed.
fn report(digest: &mut Digest, post: &mut Post) -> bool
    ensures { IsSamePost post.old post.new }
{
    match post.report() {
        Ok(reported) => {
            digest.number(u64::from(reported.sent));
            digest.number(u64::from(reported.left));
            true
        }
        Err(why) => {
            digest.number(u64::from(why.code()));
            false
        }
    }
}

/// One of the workers makes a call.
fn call_one(
    alloc: Global,
    digest: &mut Digest,
    dice: &mut Dice,
    posts: &mut Vec<Post>,
    p: usize,
    call: Call,
) -> bool
    requires { p < length posts.old.items }
    ensures { AreSamePosts posts.old.items posts.new.items }
{
    let post = &mut posts[p];
    match call {
        Call::Send { to } => send(digest, dice, post, to),
        Call::Receive { from } => receive(alloc, digest, post, from),
        Call::Check => check(alloc, digest, dice, post),
        Call::Report => report(digest, post),
    }
}

impl Crew {
    /// A first generation of `n` workers.
    pub fn new(alloc: Global, n: u32, capacity: usize) -> Result<Crew> {
        let (collector, posts) = fleet(alloc, n, capacity)?;
        Ok(Crew { collector, posts })
    }

    /// A worker makes a call, whose answer is added; answers whether it was done.
    pub fn call(
        &mut self,
        alloc: Global,
        digest: &mut Digest,
        dice: &mut Dice,
        p: ProcId,
        call: Call,
    ) -> bool {
        let p = p.get() as usize;
        if p >= self.posts.len() {
            return false;
        }
        call_one(alloc, digest, dice, &mut self.posts, p, call)
    }

    /// The collector takes all reports.
    fn take(&mut self, digest: &mut Digest) {
        match self.collector.take(u32::MAX) {
            Ok(count) => digest.number(u64::from(count)),
            Err(why) => digest.number(u64::from(why.code())),
        }
    }

    /// The collector takes all reports, and plans.
    pub fn plan_live(&mut self, digest: &mut Digest) -> Result<()> {
        self.take(digest);
        let plan = self.collector.plan_live()?;
        add_plan(digest, &plan);
        Ok(())
    }

    /// What all did, where these failed.
    pub fn gather(self, failed: ProcSet) -> Result<Gathered> {
        match gather(self.collector, self.posts, failed) {
            Ok(gathered) => Ok(gathered),
            Err(refused) => Err(refused.why.into()),
        }
    }

    /// The next generation, which goes on from the planned line.
    pub fn next(digest: &mut Digest, gathered: Gathered) -> Result<Crew> {
        match gathered.restart() {
            Ok((collector, posts, plan)) => {
                add_plan(digest, &plan);
                Ok(Crew { collector, posts })
            }
            Err(refused) => Err(refused.why.into()),
        }
    }
}
