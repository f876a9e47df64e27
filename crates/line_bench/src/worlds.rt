//! Machines that a program of one's own drives, without texts.

use crate::dice::Dice;
use crate::digests::Digest;
use anyhow::Result;
use line_names::{Body, Choice, MOST_PROCESSES, MsgName, ProcId, ProcIdError, ProcSet};
use line_plan::Plan;
use line_tape::State;
use line_world::{Mode, Reply, Step, World};
use std::alloc::{AllocError, Global};

/// The process of this number, among `n`.
pub fn process(p: u32, n: u32) -> Result<ProcId> {
    if n as usize > MOST_PROCESSES {
        return Err(ProcIdError::NoSuchProcess.into());
    }
    Ok(ProcId::try_new(p, n)?)
}

/// A state of eight random bytes.
pub fn random_state(alloc: Global, dice: &mut Dice) -> Result<State, AllocError> {
    Ok(State::of(Vec::from_slice(alloc, &dice.word().to_le_bytes())?))
}

/// A message that is in transit, and where it stands on its link.
#[derive(Clone, Copy)]
struct Copy {
    from: u32,
    to: u32,
    place: u32,
}

/// A machine, and what its driver knows of it.
#[derive(Drop)]
pub struct Driver {
    alloc: Global,
    n: u32,
    mode: Mode,
    world: World,
    /// How many copies each link has, where links keep no order.
    counts: Vec<u32>,
    waiting: Vec<Copy>,
}

/// Adds the name of a message.
pub fn add_name(digest: &mut Digest, message: &MsgName) {
    let from = u64::from(message.from.get());
    digest.number((from << 48) ^ (u64::from(message.inc) << 32) ^ u64::from(message.number));
}

/// Adds where a process goes on from. Checks have numbers of 32 bits.
fn add_choice(digest: &mut Digest, choice: &Choice) {
    match choice {
        Choice::Check(check) => digest.number(u64::from(*check)),
        Choice::Now => digest.number(u64::MAX),
    }
}

/// Adds a plan.
pub fn add_plan(digest: &mut Digest, plan: &Plan) {
    digest.number(u64::from(plan.sweeps));
    for choice in plan.line.choices() {
        add_choice(digest, choice);
    }
    for passed in &plan.certificate {
        digest.number(u64::from(passed.at.get()));
        add_choice(digest, &passed.choice);
        add_name(digest, &passed.message);
    }
    for replay in &plan.replays {
        add_name(digest, replay);
    }
    digest.number(u64::from(plan.line.len()));
    digest.number(plan.certificate.len() as u64);
    digest.number(plan.replays.len() as u64);
}

/// The number of a kind of reply.
fn kind_of(reply: &Reply) -> u64 {
    match reply {
        Reply::Sent { .. } => 0,
        Reply::Took { .. } => 1,
        Reply::Marked { .. } => 2,
        Reply::Stale { .. } => 3,
        Reply::Repeated { .. } => 4,
        Reply::Checked { .. } => 5,
        Reply::Begun { .. } => 6,
        Reply::Turned { .. } => 7,
        Reply::Damaged { .. } => 8,
        Reply::Barred { .. } => 9,
        Reply::Recovered { .. } => 10,
    }
}

/// Adds what a step told.
fn add_reply(digest: &mut Digest, reply: &Reply) {
    digest.number(kind_of(reply));
    match reply {
        Reply::Sent { message } | Reply::Stale { message } | Reply::Repeated { message } => {
            add_name(digest, message)
        }
        Reply::Took { message, forced } => {
            add_name(digest, message);
            // Rounds have numbers of 32 bits.
            match forced {
                Some(round) => digest.number(u64::from(*round)),
                None => digest.number(u64::MAX),
            }
        }
        Reply::Marked { round, forced } => {
            digest.number(u64::from(*round));
            digest.number(u64::from(*forced));
        }
        Reply::Checked { at, check } | Reply::Damaged { at, check } | Reply::Barred { at, check } =>
            {
                digest.number(u64::from(at.get()));
                digest.number(u64::from(*check));
            }
        Reply::Begun { at, check, round } | Reply::Turned { at, check, round } => {
            digest.number(u64::from(at.get()));
            digest.number(u64::from(*check));
            digest.number(u64::from(*round));
        }
        Reply::Recovered {
            plan,
            states,
            incarnations,
        } => {
            add_plan(digest, plan);
            for state in states {
                digest.number(u64::from(state.is_some()));
                if let Some(state) = state {
                    digest.bytes(state.bytes());
                }
            }
            for incarnation in incarnations {
                digest.number(u64::from(*incarnation));
            }
        }
    }
}

impl Driver {
    /// A machine of `n` processes that have done nothing.
    pub fn new(alloc: Global, n: u32, mode: Mode) -> Result<Driver> {
        let mut counts = Vec::new(alloc);
        for _link in 0..n.wrapping_mul(n) {
            counts.push(0)?;
        }
        Ok(Driver {
            alloc,
            n,
            mode,
            world: World::new(alloc, n, mode)?,
            counts,
            waiting: Vec::new(alloc),
        })
    }

    /// The machine.
    pub fn world(&self) -> &World {
        &self.world
    }

    /// Takes a step, and adds what it tells.
    pub fn step(&mut self, digest: &mut Digest, step: &Step) {
        match self.world.step(self.alloc, step) {
            Ok(reply) => add_reply(digest, &reply),
            Err(error) => {
                digest.number(u64::MAX);
                digest.number(u64::from(error.code()));
            }
        }
    }

    /// The place of the next copy on a link; 0 where links keep their order.
    fn next_place(&mut self, from: u32, to: u32) -> u32 {
        if self.mode == Mode::Fifo {
            return 0;
        }
        let link = from.wrapping_mul(self.n).wrapping_add(to) as usize;
        match self.counts.get_mut(link) {
            Some(count) => {
                *count = count.wrapping_add(1);
                count.wrapping_sub(1)
            }
            None => 0,
        }
    }

    /// A process sends a message to another.
    fn send(&mut self, digest: &mut Digest, dice: &mut Dice) -> Result<(), AllocError> {
        let from = dice.below(self.n.max(1));
        let to = dice.other(from, self.n);
        let place = self.next_place(from, to);
        self.waiting.push(Copy { from, to, place })?;
        if let (Some(from), Some(to)) = (self.process(from), self.process(to)) {
            if let Ok(body) = Body::try_new(&dice.word().to_le_bytes()) {
                self.step(digest, &Step::Send { from, to, body });
            }
        }
        Ok(())
    }

    /// One of the messages in transit is delivered.
    fn deliver(&mut self, digest: &mut Digest, dice: &mut Dice) {
        let count = self.waiting.len();
        if count == 0 || count >= 1_000_000_000 {
            return;
        }
        let copy = self.waiting.swap_remove(dice.below(count as u32) as usize);
        if let (Some(from), Some(to)) = (self.process(copy.from), self.process(copy.to)) {
            let pick = u64::from(copy.place);
            let state = State::of(Vec::new(self.alloc));
            self.step(
                digest,
                &Step::Deliver {
                    from,
                    to,
                    pick,
                    state,
                },
            );
        }
    }

    /// A process takes a check.
    fn check(&mut self, digest: &mut Digest, dice: &mut Dice) -> Result<(), AllocError> {
        if let Some(at) = self.process(dice.below(self.n.max(1))) {
            let state = random_state(self.alloc, dice)?;
            self.step(digest, &Step::Check { at, state });
        }
        Ok(())
    }

    /// A check that a process may have is found to be damaged.
    pub fn damage(&mut self, digest: &mut Digest, dice: &mut Dice) -> Result<()> {
        let at = process(dice.below(self.n.max(1)), self.n)?;
        let check = dice.below(1_000);
        self.step(digest, &Step::Damage { at, check });
        Ok(())
    }

    /// All go on from the latest line, where these failed.
    pub fn recover(&mut self, digest: &mut Digest, failed: ProcSet) {
        self.step(digest, &Step::Recover { failed });
    }

    /// Two processes, or one twice.
    pub fn failed(&self, dice: &mut Dice) -> Result<ProcSet> {
        let one = process(dice.below(self.n.max(1)), self.n)?;
        let two = process(dice.below(self.n.max(1)), self.n)?;
        Ok(ProcSet::empty().with(one).with(two))
    }

    /// The process of this number, if there is one.
    fn process(&self, p: u32) -> Option<ProcId> {
        if self.n as usize > MOST_PROCESSES {
            return None;
        }
        ProcId::try_new(p, self.n).ok()
    }

    /// Takes so many steps, most of them messages.
    pub fn work(
        &mut self,
        digest: &mut Digest,
        dice: &mut Dice,
        steps: u32,
    ) -> Result<(), AllocError> {
        for _step in 0..steps {
            let kind = dice.below(100);
            if kind < 48 {
                self.send(digest, dice)?;
            } else if kind < 96 {
                self.deliver(digest, dice);
            } else {
                self.check(digest, dice)?;
            }
        }
        Ok(())
    }
}
