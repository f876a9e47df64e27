//! A fleet that works, fails and goes on, generation after generation.

use crate::crews::{Call, Crew};
use crate::dice::Dice;
use crate::digests::Digest;
use crate::worlds::{add_plan, process};
use anyhow::Result;
use line_names::{ProcId, ProcSet};
use line_posts::Gathered;
use std::alloc::{AllocError, Global};

/// How many workers there are.
const WORKERS: u32 = 48;

/// How many items a ring holds.
const CAPACITY: usize = 256;

/// How many generations there are.
const GENERATIONS: u32 = 4;

/// How many calls the workers make before the collector plans.
const PLANNED: u32 = 2_000;

/// How many turns of a worker make about so many calls.
const TURNS: u32 = 163;

/// A worker receives at most so many messages in a turn, and sends fewer.
const MESSAGES: u32 = 12;

/// The messages that were not received yet: of each worker the senders of those to it.
#[derive(Drop)]
struct Mail {
    senders: Vec<Vec<ProcId>>,
}

impl Mail {
    /// No messages to so many workers.
    fn new(alloc: Global, n: u32) -> Result<Mail, AllocError> {
        let mut senders = Vec::new(alloc);
        for _worker in 0..n {
            senders.push(Vec::new(alloc))?;
        }
        Ok(Mail { senders })
    }

    /// A message went out.
    fn put(&mut self, from: ProcId, to: ProcId) -> Result<(), AllocError> {
        if let Some(senders) = self.senders.get_mut(to.get() as usize) {
            senders.push(from)?;
        }
        Ok(())
    }

    /// The sender of one of the messages to a worker, which is received now.
    fn take(&mut self, dice: &mut Dice, to: ProcId) -> Option<ProcId> {
        let senders = self.senders.get_mut(to.get() as usize)?;
        let count = senders.len();
        if count == 0 || count >= 1_000_000_000 {
            return None;
        }
        Some(senders.swap_remove(dice.below(count as u32) as usize))
    }
}

/// A crew at work, and its mail.
#[derive(Drop)]
struct Shift {
    alloc: Global,
    crew: Crew,
    mail: Mail,
}

impl Shift {
    /// A worker receives what waits for it, up to so many messages.
    fn receive(&mut self, digest: &mut Digest, dice: &mut Dice, p: ProcId) {
        for _message in 0..MESSAGES {
            let Some(from) = self.mail.take(dice, p) else {
                return;
            };
            self.crew
                .call(self.alloc, digest, dice, p, Call::Receive { from });
        }
    }

    /// A worker sends a message to another one.
    fn send(&mut self, digest: &mut Digest, dice: &mut Dice, p: ProcId) -> Result<()> {
        let to = process(dice.other(p.get(), WORKERS), WORKERS)?;
        if self
            .crew
            .call(self.alloc, digest, dice, p, Call::Send { to })
        {
            self.mail.put(p, to)?;
        }
        Ok(())
    }

    /// A turn of a worker: it receives, sends, takes a check, and now and then reports.
    fn turn(&mut self, digest: &mut Digest, dice: &mut Dice) -> Result<()> {
        let p = process(dice.below(WORKERS), WORKERS)?;
        self.receive(digest, dice, p);
        for _message in 0..dice.below(MESSAGES) {
            self.send(digest, dice, p)?;
        }
        self.crew.call(self.alloc, digest, dice, p, Call::Check);
        if dice.below(4) == 0 {
            self.crew.call(self.alloc, digest, dice, p, Call::Report);
        }
        Ok(())
    }

    /// All work for about so many calls, and the collector plans meanwhile.
    fn work(&mut self, digest: &mut Digest, dice: &mut Dice, calls: u32) -> Result<()> {
        for _plan in 0..calls / PLANNED {
            for _turn in 0..TURNS {
                self.turn(digest, dice)?;
            }
            self.crew.plan_live(digest)?;
        }
        Ok(())
    }
}

/// Two workers.
fn failed(dice: &mut Dice) -> Result<ProcSet> {
    let one = dice.below(WORKERS);
    let two = dice.other(one, WORKERS);
    Ok(
        ProcSet::empty()
            .with(process(one, WORKERS)?)
            .with(process(two, WORKERS)?),
    )
}

/// One of the last checks of a worker is found to be damaged.
fn damage(digest: &mut Digest, dice: &mut Dice, gathered: &mut Gathered) -> Result<()> {
    let p = ProcId::try_new(dice.below(WORKERS), gathered.history().n())?;
    let checks = gathered.history().tape(p).checks();
    let check = checks.saturating_sub(dice.below(8));
    digest.number(u64::from(check));
    match gathered.damage(p, check) {
        Ok(()) => digest.number(u64::MAX),
        Err(why) => digest.number(u64::from(why.code())),
    }
    Ok(())
}

/// Two workers fail, and a check is found to be damaged; all go on from the latest line, and what
/// was in transit there is received again.
fn fail(digest: &mut Digest, dice: &mut Dice, shift: Shift) -> Result<Shift> {
    let alloc = shift.alloc;
    let mut gathered = shift.crew.gather(failed(dice)?)?;
    damage(digest, dice, &mut gathered)?;
    let plan = gathered.plan()?;
    add_plan(digest, &plan);
    let mut mail = Mail::new(alloc, gathered.history().n())?;
    for replay in &plan.replays {
        if let Some(to) = gathered.history().addressee(replay) {
            mail.put(replay.from, to)?;
        }
    }
    let crew = Crew::next(digest, gathered)?;
    Ok(Shift { alloc, crew, mail })
}

/// The generations of a fleet: workers send messages of eight bytes and receive them, take checks,
/// and now and then report; the collector plans after each two thousand calls. At the end of each
/// generation two workers fail.
pub fn generations(alloc: Global, digest: &mut Digest, dice: &mut Dice, calls: u32) -> Result<()> {
    let mut shift = Shift {
        alloc,
        crew: Crew::new(alloc, WORKERS, CAPACITY)?,
        mail: Mail::new(alloc, WORKERS)?,
    };
    for _generation in 0..GENERATIONS {
        shift.work(digest, dice, calls / GENERATIONS)?;
        shift = fail(digest, dice, shift)?;
    }
    shift.crew.plan_live(digest)
}
