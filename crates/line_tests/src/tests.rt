//! What no text reaches: calls that the program does not make so, and what errors say.
ghost use Rattle.std.specs.Prelude.{◌≤◌};

use crate::tests::build::{Did, history_of, process};
use line_names::{Body, BodyError, Choice, MsgName, Passed, ProcId, ProcIdError};
use line_tape::{CountError, Event, History, HistoryError, MarkError, TapeError};
use std::alloc::Global;
use std::fmt::Display;
use std::test::Fail;

mod build;
mod catalogues;
mod claims;
mod colours;
mod lanes;
mod lives;
mod markers;
mod openings;
mod parts;
mod runs;
mod vectors;

/// a, b and c as in the picture of the README.
const DOMINO: [Did; 9] = [
    Did::Sends(0, 1),
    Did::Receives(1, 0, 0),
    Did::Checks(1),
    Did::Sends(1, 0),
    Did::Receives(0, 1, 0),
    Did::Checks(0),
    Did::Sends(0, 1),
    Did::Receives(1, 0, 1),
    Did::Checks(1),
];

/// A check of each, and then the domino.
const ROUND: [Did; 11] = [
    Did::Checks(0),
    Did::Checks(1),
    Did::Sends(0, 1),
    Did::Receives(1, 0, 0),
    Did::Checks(1),
    Did::Sends(1, 0),
    Did::Receives(0, 1, 0),
    Did::Checks(0),
    Did::Sends(0, 1),
    Did::Receives(1, 0, 1),
    Did::Checks(1),
];

/// The number of a process among so many.
fn number_of(p: u32, n: u32) -> Result<u32, ProcIdError>
    requires { n ≤ 256 }
{
    Ok(ProcId::try_new(p, n)?.get())
}

/// How many bytes the body of these bytes has.
fn length_of(bytes: &[u8]) -> Result<usize, BodyError> {
    Ok(Body::try_new(bytes)?.bytes().len())
}

#[test]
fn limits_of_names(rt: HostRuntime) {
    assert!(rt; number_of(1, 2) == Ok(1));
    assert!(rt; number_of(2, 2) == Err(ProcIdError::NoSuchProcess));
    assert!(rt; length_of(&[7; 64]) == Ok(64));
    assert!(rt; length_of(&[7; 65]) == Err(BodyError::BodyTooLong));
}

/// Whether there is a history of so many processes.
fn is_count(alloc: Global, n: u32) -> bool {
    History::new(alloc, n).is_ok()
}

#[test]
fn limits_of_processes(rt: HostRuntime) {
    let alloc = rt.alloc();
    assert!(rt; is_count(alloc, 1) && is_count(alloc, 65) && is_count(alloc, 256));
    assert!(rt; !is_count(alloc, 0) && !is_count(alloc, 257));
}

/// What a history of two processes says of a send to a third one, and of a marker that the third
/// one takes.
fn told_of_a_third(history: &mut History) -> Result<[Option<HistoryError>; 2], Fail> {
    let (first, third) = (process(0)?, ProcId::try_new(2, 3)?);
    let body = Body::try_new(b"a")?;
    let send = Event::Send {
        to: third,
        inc: 0,
        body,
    };
    let mark = Event::Mark {
        from: first,
        round: 1,
    };
    Ok([
        history.push(first, send).err(),
        history.push(third, mark).err(),
    ])
}

#[test]
fn refused_events(rt: HostRuntime) -> Result<(), Fail> {
    let mut history = History::new(rt.alloc(), 2)?;
    let refused = Some(HistoryError::NoSuchProcess);
    assert!(rt; told_of_a_third(&mut history)? == [refused, refused]);
    Ok(())
}

/// The domino with room for three events more of process 0, and process 1 in its incarnation 5.
fn domino_with_room(alloc: Global) -> Result<History, Fail> {
    let (first, second) = (process(0)?, process(1)?);
    let mut history = history_of(alloc, &DOMINO)?;
    if history.n() == 2 {
        history.reserve(first, 3)?;
        history.set_incarnation(second, 5);
    }
    Ok(history)
}

/// Whether a history has two processes, and the second is in its incarnation 5.
fn is_in_its_fifth(history: &History, second: ProcId) -> bool {
    history.n() == 2 && second.get() < 2 && history.incarnation(second) == 5
}

/// Whether a history is so, and its copy too.
fn is_copied(alloc: Global, history: &History, second: ProcId) -> bool {
    match history.copy(alloc) {
        Ok(copy) => is_in_its_fifth(history, second) && is_in_its_fifth(&copy, second),
        Err(_) => false,
    }
}

#[test]
fn copies_and_rooms(rt: HostRuntime) -> Result<(), Fail> {
    let second = process(1)?;
    let history = domino_with_room(rt.alloc())?;
    assert!(rt; is_copied(rt.alloc(), &history, second));
    Ok(())
}

/// An entry of a certificate of two processes: the choice passed over, and the message's sender and
/// number.
fn passed(at: u32, choice: Choice, from: u32, number: u32) -> Result<Passed, Fail> {
    let from = process(from)?;
    let message = MsgName {
        from,
        inc: 0,
        number,
    };
    Ok(Passed {
        at: process(at)?,
        choice,
        message,
    })
}

/// Whether a value reads so.
fn reads<D: Display + Drop>(alloc: Global, value: D, words: &str) -> bool {
    match format!(in alloc; "{value}") {
        Ok(text) => text.as_str() == words,
        Err(_) => false,
    }
}

#[test]
fn errors_read_well(rt: HostRuntime) {
    let alloc = rt.alloc();
    let process = "the number is not below the number of processes";
    assert!(rt; reads(alloc, ProcIdError::NoSuchProcess, process));
    let body = "the body is longer than 64 bytes";
    assert!(rt; reads(alloc, BodyError::BodyTooLong, body));
    let state = "the state is longer than 4096 bytes";
    assert!(rt; reads(alloc, TapeError::StateTooLong, state));
    let tape = "the tape has no room under 1000000 events";
    assert!(rt; reads(alloc, HistoryError::TapeFull, tape));
    let count = "the number of processes is not from 1 to 256";
    assert!(rt; reads(alloc, CountError::BadCount, count));
    let mark = "the initial state of a process cannot be damaged";
    assert!(rt; reads(alloc, MarkError::InitialDamage, mark));
}
