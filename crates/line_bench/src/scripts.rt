//! Scripts of computations as users have them, each of about so many records.

use crate::dice::Dice;
use crate::texts::Text;
use std::alloc::{AllocError, Global};

/// Eight processes work in turns: each sends a message, and receives one. After each eighth turn
/// all take checks, and now and then a process fails.
pub fn ring(text: &mut Text, dice: &mut Dice, records: u32) -> Result<(), AllocError> {
    text.world(8, "fifo")?;
    for turn in 0..records / 17 {
        let places = 1 + dice.below(7);
        for p in 0..8u32 {
            text.send(dice, p, (p + places) % 8, 2)?;
        }
        for p in 0..8u32 {
            text.deliver(dice, p, (p + places) % 8, 0, 0)?;
        }
        if turn % 8 == 7 {
            for p in 0..8u32 {
                text.state("check", dice, p, 8)?;
            }
        }
        if turn % 1_000 == 999 {
            text.record("recover", &[dice.below(8)])?;
        }
    }
    text.record("recover", &[3])
}

/// How many processes there are where links keep no order.
const MANY: u32 = 64;

/// A message that is in transit, and where it stands on its link.
#[derive(Clone, Copy)]
struct Copy {
    from: u32,
    to: u32,
    place: u32,
}

/// The messages of a computation whose links keep no order.
#[derive(Drop)]
struct UnorderedLinks {
    /// How many copies each link has.
    counts: Vec<u32>,
    /// The copies that were not received yet.
    waiting: Vec<Copy>,
}

impl UnorderedLinks {
    fn new(alloc: Global) -> Result<UnorderedLinks, AllocError> {
        let mut counts = Vec::new(alloc);
        for _link in 0..MANY * MANY {
            counts.push(0)?;
        }
        Ok(UnorderedLinks {
            counts,
            waiting: Vec::new(alloc),
        })
    }

    /// How many copies were put on a link.
    fn count(&self, from: u32, to: u32) -> u32 {
        let link = from.wrapping_mul(MANY).wrapping_add(to) as usize;
        match self.counts.get(link) {
            Some(count) => *count,
            None => 0,
        }
    }

    /// Puts a copy on a link.
    fn put(&mut self, from: u32, to: u32) -> Result<(), AllocError> {
        let place = self.count(from, to);
        let link = from.wrapping_mul(MANY).wrapping_add(to) as usize;
        if let Some(count) = self.counts.get_mut(link) {
            *count = place.wrapping_add(1);
        }
        self.waiting.push(Copy { from, to, place })?;
        Ok(())
    }

    /// One of the copies that wait, which then waits no more.
    fn take(&mut self, dice: &mut Dice) -> Option<Copy> {
        let count = self.waiting.len();
        if count == 0 || count >= 1_000_000_000 {
            return None;
        }
        let place = dice.below(count as u32) as usize;
        Some(self.waiting.swap_remove(place))
    }
}

/// A delivery of a copy, often of one that waits.
fn deliver_any(
    text: &mut Text,
    dice: &mut Dice,
    links: &mut UnorderedLinks,
) -> Result<(), AllocError> {
    if dice.below(10) > 0 {
        if let Some(copy) = links.take(dice) {
            return text.deliver(dice, copy.from, copy.to, copy.place, 0);
        }
    }
    let from = dice.below(MANY);
    let to = dice.other(from, MANY);
    let count = links.count(from, to);
    let place = if count > 0 { dice.below(count) } else { 0 };
    text.deliver(dice, from, to, place, 1)
}

/// 64 processes whose messages overtake each other and come more than once, with rounds of colours,
/// checks, and now and then a failure.
pub fn unordered(
    alloc: Global,
    text: &mut Text,
    dice: &mut Dice,
    records: u32,
) -> Result<(), AllocError> {
    text.world(MANY, "unordered")?;
    let mut links = UnorderedLinks::new(alloc)?;
    for record in 0..records {
        let p = dice.below(MANY);
        let kind = dice.below(1_000);
        if kind < 450 {
            let q = dice.other(p, MANY);
            text.send(dice, p, q, 2)?;
            links.put(p, q)?;
        } else if kind < 950 {
            deliver_any(text, dice, &mut links)?;
        } else if kind < 980 {
            text.state("check", dice, p, 4)?;
        } else if kind < 981 {
            text.state("begin", dice, p, 1)?;
        } else {
            text.state("turn", dice, p, 1)?;
        }
        if record % 50_000 == 49_999 {
            text.record("recover", &[p])?;
        }
    }
    text.record("recover", &[0])
}

/// How many processes take part in rounds of markers.
const SOME: u32 = 16;

/// A round of markers: each process sends two messages before it, and all are delivered by and by.
fn marker_round(text: &mut Text, dice: &mut Dice) -> Result<(), AllocError> {
    let mut queued = [[0u32; 16]; 16];
    for p in 0..SOME {
        for _message in 0..2u32 {
            let q = dice.other(p, SOME);
            text.send(dice, p, q, 1)?;
            if let Some(count) = queued[p as usize].get_mut(q as usize) {
                *count = count.wrapping_add(1);
            }
        }
    }
    let first = dice.below(SOME);
    text.state("begin", dice, first, 1)?;
    for place in 0..SOME {
        let p = (first + place) % SOME;
        for q in 0..SOME {
            if q != p {
                for _message in 0..queued[p as usize][q as usize] {
                    text.deliver(dice, p, q, 0, 1)?;
                }
                text.deliver(dice, p, q, 0, 1)?;
            }
        }
    }
    Ok(())
}

/// Rounds of markers among 16 processes; they are listed, the history is written, and so is the
/// check text of a plan, before a process fails.
pub fn rounds(text: &mut Text, dice: &mut Dice, records: u32) -> Result<(), AllocError> {
    text.world(SOME, "fifo")?;
    for _round in 0..records / 305 {
        marker_round(text, dice)?;
    }
    let failed = dice.below(SOME);
    text.record("rounds", &[])?;
    text.record("history", &[])?;
    text.record("bundle", &[failed])?;
    text.record("recover", &[failed])
}

/// Long dominoes among 64 processes and many short ones, each ended by a failure. Each process
/// sends on what it has received, with a check after each receipt but the last, so that the failure
/// has all go back to their beginnings.
pub fn dominoes(text: &mut Text, dice: &mut Dice, records: u32) -> Result<(), AllocError> {
    text.world(MANY, "fifo")?;
    for failure in 0..records / 1_200 {
        let steps = if failure % 100 == 50 {
            20_000
        } else {
            65 + dice.below(70)
        };
        for step in 0..steps {
            let p = step % MANY;
            let q = (p + 1) % MANY;
            text.send(dice, p, q, 1)?;
            text.deliver(dice, p, q, 0, 0)?;
            if step < steps.saturating_sub(1) {
                text.state("check", dice, q, 1)?;
            }
        }
        let failed = steps % MANY;
        if failure % 100 == 50 {
            text.record("bundle", &[failed])?;
        }
        text.record("recover", &[failed])?;
    }
    Ok(())
}
