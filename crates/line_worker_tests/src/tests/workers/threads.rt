//! Workers in threads of their own, which exchange messages.
use crate::tests::workers::seen::{have_checks, is_tape};
use line_names::ProcId;
use line_posts::Gathered;
use line_workers::{Exchange, Routine, Stream, run};
use std::alloc::Global;
use std::sync::Wait;
use std::thread::Threads;

/// Whether each of `n` has sent as often, at least and at most.
fn have_sent(gathered: &Gathered, n: u32, least: u32, most: u32) -> bool {
    let history = gathered.history();
    (0..n).all(|p| match ProcId::try_new(p, history.n()) {
        Ok(p) => {
            let sends = history.tape(p).sends();
            least <= sends && sends <= most
        }
        Err(_) => false,
    })
}

/// Whether two workers of a routine took a check in each of 100 turns, and sent now and then.
fn does_routine<R: Threads + Wait + Sync>(rt: &R, alloc: Global) -> bool {
    match run(rt, alloc, 2, 4, &Routine::new(alloc, 100)) {
        Ok(gathered) => have_checks(&gathered, 2, 100) && have_sent(&gathered, 2, 4, 100),
        Err(_) => false,
    }
}

#[test]
fn three_threads(rt: HostRuntime) {
    assert!(rt; does_routine(&rt, rt.alloc()));
}

/// Whether one worker sent another 1,000 messages, which were all received.
fn streams<R: Threads + Wait + Sync>(rt: &R, alloc: Global) -> bool {
    match run(rt, alloc, 2, 1, &Stream::new(alloc, 1_000)) {
        Ok(gathered) => {
            is_tape(&gathered, 0, 1_000, 1_000, 0) && is_tape(&gathered, 1, 1_000, 0, 0)
        }
        Err(_) => false,
    }
}

#[test]
fn a_stream_of_messages(rt: HostRuntime) {
    assert!(rt; streams(&rt, rt.alloc()));
}

/// Whether eight workers exchanged messages with each other.
fn exchanges<R: Threads + Wait + Sync>(rt: &R, alloc: Global) -> bool {
    match run(rt, alloc, 8, 1, &Exchange::new(alloc, 10)) {
        Ok(gathered) => (0..8).all(|p| is_tape(&gathered, p, 140, 70, 0)),
        Err(_) => false,
    }
}

#[test]
fn eight_exchange_messages(rt: HostRuntime) {
    assert!(rt; exchanges(&rt, rt.alloc()));
}
