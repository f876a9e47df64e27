//! Drills: workers in threads that each send to the next one, receive from the one before and take
//! a check, again and again.
ghost use Rattle.std.specs.Prelude.{◌≡◌, ◌≤◌, ◌<◌, IfOk, IfErr};
ghost use Rattle.line_workers.specs.Faults.{HasFilledRing, IsFault};
ghost use Rattle.line_workers.specs.Scripts as drills;
ghost use Rattle.line_workers.specs.MadeDrills.{IsDrillText, drill_scripts, orders_of};

use crate::drills::drill;
use crate::gates::Gate;
use crate::orders::Order;
use crate::refusals::{DrillError, DrillWhy};
use line_claims::write_history;
use line_names::{Body, ProcId};
use line_posts::{MOST_WORKERS, Post};
use line_tape::State;
use std::alloc::{AllocError, Global};
use std::sync::Wait;
use std::thread::Threads;

/// How many messages lie on their way from one worker to another, at most.
const CAPACITY: usize = 1;

/// How often a worker tries to send or to receive a message, at most.
const TURNS: u64 = 10_000_000;

/// Memory was out before the workers began, or after they ended.
const OUT_OF_MEMORY: DrillError = DrillError {
    worker: None,
    order: None,
    why: DrillWhy::OutOfMemory,
};

/// A gate that always lets a worker go on.
struct Open;

impl Gate for Open {
    fn pass(&self, _p: u32, _k: u32, _post: &Post) -> bool {
        true
    }
}

/// What worker `p` does in so many rounds.
fn orders_of(alloc: Global, workers: u32, rounds: u32, p: u32) -> Result<Vec<Order>, AllocError>
    requires worker { p < workers }
    requires count { workers ≤ MOST_WORKERS }
    ensures { IfOk result (λ orders. orders.items ≡ orders_of workers p rounds) }
{
    let after = if p + 1 == workers { 0 } else { p + 1 };
    let before = if p == 0 { workers - 1 } else { p - 1 };
    let to = ProcId::try_new(after, workers).unwrap();
    let from = ProcId::try_new(before, workers).unwrap();
    let number = [p as u8];
    let mut orders = Vec::new(alloc);
    for _round in 0..rounds {
        let body = Body::try_new(&number).unwrap();
        let state = State::of(Vec::from_slice(alloc, &number)?);
        orders.push(Order::Send { to, body })?;
        orders.push(Order::Receive { from })?;
        orders.push(Order::Check { state })?;
    }
    Ok(orders)
}

/// The scripts of a drill, one for each worker.
fn scripts_of(alloc: Global, workers: u32, rounds: u32) -> Result<Vec<Vec<Order>>, AllocError>
    requires { workers ≤ MOST_WORKERS }
    ensures { IfOk result (λ scripts. drills.scripts_of scripts.items
        ≡ drill_scripts workers rounds) }
{
    let mut scripts = Vec::new(alloc);
    for p in 0..workers {
        let orders = orders_of(alloc, workers, rounds, p)?;
        scripts.push(orders)?;
    }
    Ok(scripts)
}

/// The text of the history that is gathered of a drill with so many workers and rounds.
///
/// It waits until all workers have ended. The orders of a worker are counted from 0, three to a
/// round.
pub fn drill_text<R: Threads + Wait + Sync>(
    rt: &R,
    alloc: Global,
    workers: u32,
    rounds: u32,
) -> Result<Vec<u8>, DrillError>
    requires { workers ≤ MOST_WORKERS }
    ensures ok { IfOk result (λ text. IsDrillText workers rounds text.items) }
    ensures err { IfErr result (λ error. IsFault (drill_scripts workers rounds) error) }
    ensures filled { IfErr result (λ error.
        HasFilledRing (drill_scripts workers rounds) CAPACITY error) }
{
    let Ok(scripts) = scripts_of(alloc, workers, rounds) else {
        return Err(OUT_OF_MEMORY);
    };
    let gathered = drill(rt, alloc, CAPACITY, TURNS, &scripts, &Open)?;
    match write_history(alloc, gathered.history()) {
        Ok(text) => Ok(text),
        Err(_) => Err(OUT_OF_MEMORY),
    }
}
