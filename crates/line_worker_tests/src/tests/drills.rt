//! Drills, and what stops them.
ghost use Rattle.std.specs.Prelude.{◌≤◌};

use crate::tests::drills::gates::{Fixed, Meeting};
use crate::tests::drills::scripts::{
    both_waiting, check, crowded, idle, receive, ring, second, send, waiting,
};
use crate::tests::reads;
use line_names::ProcId;
use line_posts::{Gathered, MOST_WORKERS};
use line_tape::{EventRef, Tape};
use line_workers::{DrillError, DrillWhy, Order, drill};
use std::alloc::{AllocError, Global};
use std::sync::Wait;
use std::thread::Threads;

mod gates;
mod scripts;

/// What a drill answers.
type Drilled = Result<Gathered, DrillError>;

/// Scripts for which there was memory.
type Scripts = Result<Vec<Vec<Order>>, AllocError>;

/// Nobody is held back.
const OPEN: Fixed = Fixed { is_open: true };

/// All are held back.
const SHUT: Fixed = Fixed { is_open: false };

/// Whether it was stopped there, for that reason.
fn is_stopped(drilled: &Drilled, worker: u32, order: u32, why: DrillWhy) -> bool {
    match drilled {
        Ok(_) => false,
        Err(e) => e.worker == Some(worker) && e.order == Some(order) && e.why == why,
    }
}

/// Whether it was stopped for that reason, and no order is named.
fn is_refused(drilled: &Drilled, why: DrillWhy) -> bool {
    match drilled {
        Ok(_) => false,
        Err(e) => e.worker.is_none() && e.order.is_none() && e.why == why,
    }
}

/// Whether a drill of these scripts, where nobody is held back, is stopped there for that reason.
fn stops<R: Threads + Wait + Sync>(
    rt: &R,
    alloc: Global,
    scripts: &[Vec<Order>],
    worker: u32,
    order: u32,
    why: DrillWhy,
) -> bool {
    is_stopped(
        &drill(rt, alloc, 1, 1_000, scripts, &OPEN),
        worker,
        order,
        why,
    )
}

/// Whether a drill of these scripts is stopped there, where somebody waits in vain.
fn stops_in_vain<R: Threads + Wait + Sync>(
    rt: &R,
    alloc: Global,
    scripts: &Scripts,
    order: u32,
) -> bool {
    match scripts {
        Ok(scripts) => stops(rt, alloc, scripts, 0, order, DrillWhy::WaitedOut),
        Err(_) => false,
    }
}

/// Whether a drill, where the second worker has this order after a check, is stopped there for that
/// reason.
fn stops_second<R: Threads + Wait + Sync>(
    rt: &R,
    alloc: Global,
    order: Order,
    why: DrillWhy,
) -> bool {
    match second(alloc, order) {
        Ok(scripts) => stops(rt, alloc, &scripts, 1, 1, why),
        Err(_) => false,
    }
}

/// Whether that event is the first message to this process, with this body.
fn is_send(event: &EventRef<'_>, to: u32, body: &[u8]) -> bool {
    match event {
        EventRef::Send {
            to: addressee,
            inc,
            body: sent,
        } => addressee.get() == to && *inc == 0 && *sent == body,
        _ => false,
    }
}

/// Whether that event takes the first message of this process.
fn is_recv(event: &EventRef<'_>, from: u32) -> bool {
    match event {
        EventRef::Recv { message } => {
            message.from.get() == from && message.inc == 0 && message.number == 0
        }
        _ => false,
    }
}

/// Whether that event is a check of no round with these bytes.
fn is_check(event: &EventRef<'_>, bytes: &[u8]) -> bool {
    match event {
        EventRef::Check { state, round } => *state == bytes && round.is_none(),
        _ => false,
    }
}

/// Whether a tape is a Send to one process, the Recv of what another sent, and a Check.
fn is_exchange(tape: &Tape, to: u32, from: u32, byte: u8) -> bool {
    tape.len() == 3
        && is_send(&tape.event(0), to, &[byte])
        && is_recv(&tape.event(1), from)
        && is_check(&tape.event(2), &[0])
}

/// Whether each process exchanged with its neighbours, round in a circle of `n`.
fn is_ring(drilled: &Drilled, n: usize) -> bool {
    let Ok(gathered) = drilled else {
        return false;
    };
    if n > MOST_WORKERS {
        return false;
    }
    let history = gathered.history();
    let n = n as u32;
    history.n() == n
        && (0..n).all(|p| match ProcId::try_new(p, n) {
            Ok(at) => is_exchange(
                history.tape(at),
                (p + 1) % n,
                (p + n - 1) % n,
                b'a' + p as u8,
            ),
            Err(_) => false,
        })
}

/// Whether these workers round a circle were drilled, and whether workers 0 and 1 met at its gate.
fn meet_in<R: Threads + Wait + Sync>(
    rt: &R,
    alloc: Global,
    scripts: &[Vec<Order>],
    turns: u64,
) -> bool {
    let gate = Meeting::new();
    let drilled = drill(rt, alloc, 1, turns, scripts, &gate);
    is_ring(&drilled, scripts.len()) && gate.have_met()
}

/// Whether a circle of `n` was drilled, and whether workers 0 and 1 met at its gate.
fn is_met<R: Threads + Wait + Sync>(rt: &R, alloc: Global, n: u32, turns: u64) -> bool
    requires { n ≤ MOST_WORKERS }
{
    match ring(alloc, n) {
        Ok(scripts) => scripts.len() == n as usize && meet_in(rt, alloc, &scripts, turns),
        Err(_) => false,
    }
}

#[test]
fn meeting_gate(rt: HostRuntime) {
    assert!(rt; is_met(&rt, rt.alloc(), 2, 1_000));
}

#[test]
fn drill_needs_two_threads(rt: HostRuntime) {
    assert!(rt; is_met(&rt, rt.alloc(), 3, 1_000_000));
}

/// Whether a gate that lets nobody go on holds out the first of two workers.
fn is_held_out<R: Threads + Wait + Sync>(rt: &R, alloc: Global) -> bool {
    match ring(alloc, 2) {
        Ok(scripts) => {
            let drilled = drill(rt, alloc, 1, 1_000, &scripts, &SHUT);
            is_stopped(&drilled, 0, 0, DrillWhy::HeldOut)
        }
        Err(_) => false,
    }
}

#[test]
fn drill_asks_the_gate(rt: HostRuntime) {
    assert!(rt; is_held_out(&rt, rt.alloc()));
}

/// Whether three workers exchange messages round a circle, where nobody is held back.
fn goes_round<R: Threads + Wait + Sync>(rt: &R, alloc: Global) -> bool {
    match ring(alloc, 3) {
        Ok(scripts) => is_ring(&drill(rt, alloc, 1, 10_000_000, &scripts, &OPEN), 3),
        Err(_) => false,
    }
}

#[test]
fn three_round_a_circle(rt: HostRuntime) {
    assert!(rt; goes_round(&rt, rt.alloc()));
}

#[test]
fn nothing_to_receive(rt: HostRuntime) {
    assert!(rt; stops_in_vain(&rt, rt.alloc(), &waiting(rt.alloc()), 0));
}

#[test]
fn no_slot_to_send(rt: HostRuntime) {
    assert!(rt; stops_in_vain(&rt, rt.alloc(), &crowded(rt.alloc()), 1));
}

#[test]
fn lowest_worker_is_named(rt: HostRuntime) {
    assert!(rt; stops_in_vain(&rt, rt.alloc(), &both_waiting(rt.alloc()), 0));
}

#[test]
fn no_such_process(rt: HostRuntime) {
    assert!(rt; stops_second(&rt, rt.alloc(), send(2, 7), DrillWhy::NoSuchProcess));
}

#[test]
fn to_itself(rt: HostRuntime) {
    assert!(rt; stops_second(&rt, rt.alloc(), receive(1), DrillWhy::ToSelf));
}

/// Whether a check that is too long stops the second worker.
fn stops_at_length<R: Threads + Wait + Sync>(rt: &R, alloc: Global) -> bool {
    match check(alloc, &[7; 4_097]) {
        Ok(order) => stops_second(rt, alloc, order, DrillWhy::StateTooLong),
        Err(_) => false,
    }
}

#[test]
fn a_long_state(rt: HostRuntime) {
    assert!(rt; stops_at_length(&rt, rt.alloc()));
}

/// Whether a drill of so many workers without orders, at this capacity, is refused for that reason.
fn refuses<R: Threads + Wait + Sync>(
    rt: &R,
    alloc: Global,
    n: u32,
    capacity: usize,
    why: DrillWhy,
) -> bool {
    match idle(alloc, n) {
        Ok(scripts) => is_refused(&drill(rt, alloc, capacity, 1, &scripts, &OPEN), why),
        Err(_) => false,
    }
}

#[test]
fn counts_of_scripts(rt: HostRuntime) {
    assert!(rt; refuses(&rt, rt.alloc(), 0, 1, DrillWhy::BadCount));
    assert!(rt; refuses(&rt, rt.alloc(), 65, 1, DrillWhy::BadCount));
}

#[test]
fn capacities(rt: HostRuntime) {
    assert!(rt; refuses(&rt, rt.alloc(), 1, 0, DrillWhy::BadCapacity));
    assert!(rt; refuses(&rt, rt.alloc(), 1, 1_025, DrillWhy::BadCapacity));
}

#[test]
fn faults_in_words(rt: HostRuntime) {
    let waited = DrillError {
        worker: Some(1),
        order: Some(2),
        why: DrillWhy::WaitedOut,
    };
    let none = DrillError {
        worker: None,
        order: None,
        why: DrillWhy::NoThread,
    };
    let count = "the number of scripts is not from 1 to 64";
    assert!(rt; reads(rt.alloc(), waited, "worker 1 order 2: 30 WaitedOut"));
    assert!(rt; reads(rt.alloc(), none, "39 NoThread"));
    assert!(rt; reads(rt.alloc(), DrillWhy::BadCount, count));
}
