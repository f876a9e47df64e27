//! A history worked by hand, as code cuts it.
//!
//! Process 1 sends three messages to process 0 and takes its check after the second one. Process 0
//! receives the first, takes two checks, and receives the others. At the last checks the second
//! message is in transit, so only the first one is let go.
use crate::{OwnedFloor, cut_catalogue, floor_at};
use line_catalogue::Catalogue;
use line_names::{Body, Choice, Line, MsgName, ProcId};
use line_tape::{Event, State, is_line};
use std::alloc::Global;
use std::test::Fail;

/// Something that one of the two processes did.
#[derive(Clone, Copy)]
enum Did {
    /// Process 1 sent to process 0.
    Sends,
    /// Process 0 received the message of this number.
    Receives(u32),
    /// The process of this number took a check.
    Checks(u32),
}

/// What the two did, in an order in which it could happen.
const EXAMPLE: [Did; 9] = [
    Did::Sends,
    Did::Receives(0),
    Did::Checks(0),
    Did::Checks(0),
    Did::Sends,
    Did::Checks(1),
    Did::Receives(1),
    Did::Sends,
    Did::Receives(2),
];

/// The process of this number.
fn process(p: u32) -> Result<ProcId, Fail> {
    Ok(ProcId::try_new(p, 2)?)
}

/// The name of a message of process 1.
fn message(number: u32) -> Result<MsgName, Fail> {
    Ok(MsgName {
        from: process(1)?,
        inc: 0,
        number,
    })
}

/// The process that did this, and the event.
fn event_of(alloc: Global, did: Did) -> Result<(ProcId, Event), Fail> {
    match did {
        Did::Sends => {
            let to = process(0)?;
            let body = Body::try_new(b"a")?;
            Ok((process(1)?, Event::Send { to, inc: 0, body }))
        }
        Did::Receives(number) => {
            let message = message(number)?;
            Ok((process(0)?, Event::Recv { message }))
        }
        Did::Checks(at) => {
            let state = State::of(Vec::new(alloc));
            Ok((process(at)?, Event::Check { state, round: None }))
        }
    }
}

/// The catalogue of what the two did.
fn example(alloc: Global) -> Result<Catalogue, Fail> {
    let mut catalogue = Catalogue::new(alloc, 2)?;
    for did in &EXAMPLE {
        let (p, event) = event_of(alloc, *did)?;
        catalogue.add(p, event)?;
    }
    Ok(catalogue)
}

/// The floor at the last checks, or at where process 0 stands and the check of process 1.
fn floor_of(
    alloc: Global,
    catalogue: &Catalogue,
    first: Choice,
) -> Result<Option<OwnedFloor>, Fail> {
    let mut line = Line::new();
    line.push(first);
    line.push(Choice::Check(1));
    if !is_line(catalogue.history(), &line) {
        return Err(Fail::new("no line"));
    }
    Ok(floor_at(alloc, catalogue, &line, 0)?)
}

/// What is left of the example.
fn left_of_example(alloc: Global) -> Result<Catalogue, Fail> {
    let whole = example(alloc)?;
    match floor_of(alloc, &whole, Choice::Check(2))? {
        Some(floor) => Ok(cut_catalogue(alloc, &whole, &floor)?),
        None => Err(Fail::new("no floor")),
    }
}

/// How many events, checks and sends a process has.
fn counts(catalogue: &Catalogue, p: u32) -> Result<[u32; 3], Fail> {
    let p = ProcId::try_new(p, catalogue.n())?;
    let tape = catalogue.history().tape(p);
    Ok([tape.len(), tape.checks(), tape.sends()])
}

/// Whether process 0 has received the message of process 1 of this number.
fn has_received(catalogue: &Catalogue, number: u32) -> Result<bool, Fail> {
    let p = ProcId::try_new(0, catalogue.n())?;
    let tape = catalogue.history().tape(p);
    Ok(tape.received_before(Choice::Now, &message(number)?))
}

/// Whether the floor at the last checks has these checks and numbers of sends.
fn is_floor(alloc: Global, checks: &[u32], sends: &[u32]) -> Result<bool, Fail> {
    let whole = example(alloc)?;
    match floor_of(alloc, &whole, Choice::Check(2))? {
        Some(floor) => Ok(floor.checks() == checks && floor.counts() == sends),
        None => Ok(false),
    }
}

#[test]
fn only_what_is_received_is_let_go(rt: HostRuntime) -> Result<(), Fail> {
    assert!(rt; is_floor(rt.alloc(), &[2, 1], &[0, 1])?);
    Ok(())
}

#[test]
fn names_and_checks_begin_anew(rt: HostRuntime) -> Result<(), Fail> {
    let left = left_of_example(rt.alloc())?;
    assert!(rt; counts(&left, 0)? == [3, 1, 0]);
    assert!(rt; counts(&left, 1)? == [3, 1, 2]);
    assert!(rt; has_received(&left, 0)? && has_received(&left, 1)? && !has_received(&left, 2)?);
    Ok(())
}

/// Whether there is no floor where process 0 stands now.
fn has_no_floor(alloc: Global) -> Result<bool, Fail> {
    let whole = example(alloc)?;
    Ok(floor_of(alloc, &whole, Choice::Now)?.is_none())
}

#[test]
fn the_present_is_no_floor(rt: HostRuntime) -> Result<(), Fail> {
    assert!(rt; has_no_floor(rt.alloc())?);
    Ok(())
}
