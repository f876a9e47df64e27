//! Histories of two processes, made from what was done.
ghost use Rattle.std.specs.Prelude.{◌≡◌, ◌<◌, IfOk};

use line_catalogue::Catalogue;
use line_names::{Body, MsgName, ProcId, ProcSet};
use line_tape::{Event, History, State};
use std::alloc::Global;
use std::test::Fail;

/// Something that one of two processes did, always in its first incarnation.
#[derive(Clone, Copy)]
pub enum Did {
    /// One sent to the other.
    Sends(u32, u32),
    /// One received from the other the message of this number.
    Receives(u32, u32, u32),
    /// One took a check.
    Checks(u32),
}

/// One of two processes.
pub fn process(p: u32) -> Result<ProcId, Fail>
    ensures { IfOk result (λ named. (named ≡ p) × (p < 2)) }
{
    Ok(ProcId::try_new(p, 2)?)
}

/// The set of these processes.
pub fn failed(processes: &[u32]) -> Result<ProcSet, Fail> {
    let mut set = ProcSet::empty();
    for p in processes {
        set = set.with(process(*p)?);
    }
    Ok(set)
}

/// The process that did this, and the event.
fn event_of(alloc: Global, did: Did) -> Result<(ProcId, Event), Fail> {
    match did {
        Did::Sends(from, to) => {
            let to = process(to)?;
            let body = Body::try_new(b"a")?;
            Ok((process(from)?, Event::Send { to, inc: 0, body }))
        }
        Did::Receives(at, from, number) => {
            let from = process(from)?;
            let message = MsgName {
                from,
                inc: 0,
                number,
            };
            Ok((process(at)?, Event::Recv { message }))
        }
        Did::Checks(at) => {
            let state = State::of(Vec::new(alloc));
            Ok((process(at)?, Event::Check { state, round: None }))
        }
    }
}

/// The history of two processes that did this.
pub fn history_of(alloc: Global, all: &[Did]) -> Result<History, Fail> {
    let mut history = History::new(alloc, 2)?;
    for did in all {
        let (p, event) = event_of(alloc, *did)?;
        history.push(p, event)?;
    }
    Ok(history)
}

/// Feeds a catalogue what two processes did, event by event.
fn feed(alloc: Global, catalogue: &mut Catalogue, all: &[Did]) -> Result<(), Fail> {
    for did in all {
        let (p, event) = event_of(alloc, *did)?;
        catalogue.add(p, event)?;
    }
    Ok(())
}

/// The catalogue of two processes that did this, fed event by event.
pub fn catalogue_of(alloc: Global, all: &[Did]) -> Result<Catalogue, Fail> {
    let mut catalogue = Catalogue::new(alloc, 2)?;
    feed(alloc, &mut catalogue, all)?;
    Ok(catalogue)
}
