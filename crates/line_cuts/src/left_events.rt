//! What is left of one event.
ghost use Rattle.std.specs.Prelude.{◌≡◌, ◌<◌, ◌≤◌, ◌+◌, ◌-◌, ◌^◌, [], ◌∷◌, OnOk, length};
ghost use Rattle.line_names.specs.declared.limits.TheConstants.{MOST_BODY};
ghost use Rattle.line_tape.specs.declared.events.Event.TheVariants.{Send as SendEvent};
ghost use Rattle.line_tape.specs.declared.events.Event.TheVariants.{Recv as RecvEvent};
ghost use Rattle.line_tape.specs.declared.events.Event.TheVariants.{Check as CheckEvent};
ghost use Rattle.line_tape.specs.declared.events.Event.TheVariants.{Mark as MarkEvent};
ghost use Rattle.line_tape.specs.declared.limits.TheConstants.{MOST_EVENTS, MOST_STATE};
ghost use Rattle.line_tape.specs.Event.{checks, sends, IsShort, NamesBelow};
ghost use Rattle.line_tape.specs.History.{tape_at, with_event};
ghost use Rattle.line_tape.specs.Shown.{event_of_ref};
ghost use Rattle.line_cuts.specs.Cuts.{cut_name, cut_round, is_left};
ghost use Rattle.line_cuts.specs.Left.{AddsLeft};

use crate::floors::OwnedFloor;
use line_names::{MsgName, ProcId};
use line_tape::{Event, EventRef, History, State};
use std::alloc::{AllocError, Global};

/// How far the tape of a process is cut: the number of its next send, and which check from there on
/// is the floor's; 0 where that came before.
#[derive(Clone, Copy)]
pub(crate) struct TapePlace {
    pub(crate) process: ProcId,
    pub(crate) number: u32,
    pub(crate) skip: u32,
}

impl TapePlace {
    /// The place after an event.
    pub(crate) fn after(&self, event: &EventRef<'_>) -> TapePlace
        requires { self.now.number < 2 ^ 32 - 1 }
        ensures process { result.process ≡ self.now.process }
        ensures number { result.number ≡ self.now.number + sends (event_of_ref event.now ∷ []) }
        ensures skip { result.skip ≡ self.now.skip - checks (event_of_ref event.now ∷ []) }
    {
        match event {
            EventRef::Send { .. } => TapePlace {
                process: self.process,
                number: self.number + 1,
                skip: self.skip,
            },
            EventRef::Recv { .. } => *self,
            EventRef::Check { .. } => TapePlace {
                process: self.process,
                number: self.number,
                skip: self.skip.saturating_sub(1),
            },
            EventRef::Mark { .. } => *self,
        }
    }
}

/// Whether a message is not let go.
fn is_left(floor: &OwnedFloor, message: &MsgName) -> bool
    ensures { result ≡ is_left floor.now message.now }
{
    floor.sends(message.from) <= message.number
}

/// The name of a message in what is left.
pub fn cut_name(floor: &OwnedFloor, message: &MsgName) -> MsgName
    ensures { result ≡ cut_name floor.now message.now }
{
    MsgName {
        from: message.from,
        inc: message.inc,
        number: message.number.saturating_sub(floor.sends(message.from)),
    }
}

/// The round of a check that is left, if it is later than the floor's.
pub fn cut_round(last: u32, round: Option<u32>) -> Option<u32>
    ensures { result ≡ cut_round last round }
{
    match round {
        Some(round) => { if last < round { Some(round) } else { None } }
        None => None,
    }
}

/// Adds a send.
fn push_send(
    history: &mut History,
    p: ProcId,
    to: ProcId,
    inc: u16,
    body: &[u8],
) -> Result<(), AllocError>
    requires process { p < length history.old.processes }
    requires to { to < length history.old.processes }
    requires short { length body.now ≤ MOST_BODY }
    requires few { length (tape_at history.old.processes p) < MOST_EVENTS }
    ensures { OnOk result (history.new.processes
        ≡ with_event history.old.processes p (SendEvent to inc body.now)) }
{
    history.reserve(p, 1)?;
    history.append_send(p, to, inc, body);
    Ok(())
}

/// Adds the receipt of a message.
fn push_receipt(history: &mut History, p: ProcId, message: &MsgName) -> Result<(), AllocError>
    requires process { p < length history.old.processes }
    requires from { message.now.from < length history.old.processes }
    requires few { length (tape_at history.old.processes p) < MOST_EVENTS }
    ensures { OnOk result (history.new.processes
        ≡ with_event history.old.processes p (RecvEvent message.now)) }
{
    history.reserve(p, 1)?;
    history.append_receipt(p, message);
    Ok(())
}

/// Adds a check.
fn push_check(
    alloc: Global,
    history: &mut History,
    p: ProcId,
    state: &[u8],
    round: Option<u32>,
) -> Result<(), AllocError>
    requires process { p < length history.old.processes }
    requires short { length state.now ≤ MOST_STATE }
    requires few { length (tape_at history.old.processes p) < MOST_EVENTS }
    ensures { OnOk result (history.new.processes
        ≡ with_event history.old.processes p (CheckEvent state.now round)) }
{
    let state = State::of(Vec::from_slice(alloc, state)?);
    history.reserve(p, 1)?;
    history.append(p, Event::Check { state, round });
    Ok(())
}

/// Adds the receipt of a marker.
fn push_mark(history: &mut History, p: ProcId, from: ProcId, round: u32) -> Result<(), AllocError>
    requires process { p < length history.old.processes }
    requires from { from < length history.old.processes }
    requires few { length (tape_at history.old.processes p) < MOST_EVENTS }
    ensures { OnOk result (history.new.processes
        ≡ with_event history.old.processes p (MarkEvent from round)) }
{
    history.reserve(p, 1)?;
    history.append_mark(p, from, round);
    Ok(())
}

/// Adds a send, unless it is let go.
fn add_send(
    floor: &OwnedFloor,
    place: &TapePlace,
    to: ProcId,
    inc: u16,
    body: &[u8],
    cut: &mut History,
) -> Result<(), AllocError>
    requires process { place.now.process < length cut.old.processes }
    requires to { to < length cut.old.processes }
    requires short { length body.now ≤ MOST_BODY }
    requires few { length (tape_at cut.old.processes place.now.process) < MOST_EVENTS }
    ensures { OnOk result (AddsLeft floor.now place.now.process place.now.number place.now.skip
        (SendEvent to inc body.now) cut.old.processes cut.new.processes) }
{
    let lost = floor.sends(place.process);
    let number = place.number;
    if number < lost {
        return Ok(());
    }
    push_send(cut, place.process, to, inc, body)
}

/// Adds the receipt of a message under its name in what is left, unless the message is let go.
fn add_receipt(
    floor: &OwnedFloor,
    place: &TapePlace,
    message: &MsgName,
    cut: &mut History,
) -> Result<(), AllocError>
    requires process { place.now.process < length cut.old.processes }
    requires from { message.now.from < length cut.old.processes }
    requires few { length (tape_at cut.old.processes place.now.process) < MOST_EVENTS }
    ensures { OnOk result (AddsLeft floor.now place.now.process place.now.number place.now.skip
        (RecvEvent message.now) cut.old.processes cut.new.processes) }
{
    if !is_left(floor, message) {
        return Ok(());
    }
    let left = cut_name(floor, message);
    push_receipt(cut, place.process, &left)
}

/// Adds a check, unless it is one before the floor's.
fn add_check(
    alloc: Global,
    floor: &OwnedFloor,
    place: &TapePlace,
    state: &[u8],
    round: Option<u32>,
    cut: &mut History,
) -> Result<(), AllocError>
    requires process { place.now.process < length cut.old.processes }
    requires short { length state.now ≤ MOST_STATE }
    requires few { length (tape_at cut.old.processes place.now.process) < MOST_EVENTS }
    ensures { OnOk result (AddsLeft floor.now place.now.process place.now.number place.now.skip
        (CheckEvent state.now round) cut.old.processes cut.new.processes) }
{
    let skip = place.skip;
    if 1 < skip {
        return Ok(());
    }
    let left = cut_round(floor.round(), round);
    push_check(alloc, cut, place.process, state, left)
}

/// Adds the receipt of a marker, unless its round is let go.
fn add_mark(
    floor: &OwnedFloor,
    place: &TapePlace,
    from: ProcId,
    round: u32,
    cut: &mut History,
) -> Result<(), AllocError>
    requires process { place.now.process < length cut.old.processes }
    requires from { from < length cut.old.processes }
    requires few { length (tape_at cut.old.processes place.now.process) < MOST_EVENTS }
    ensures { OnOk result (AddsLeft floor.now place.now.process place.now.number place.now.skip
        (MarkEvent from round) cut.old.processes cut.new.processes) }
{
    let last = floor.round();
    if round <= last {
        return Ok(());
    }
    push_mark(cut, place.process, from, round)
}

/// Adds what is left of an event that comes next on the tape of a process to the same process of
/// another history.
pub(crate) fn add_left(
    alloc: Global,
    floor: &OwnedFloor,
    place: &TapePlace,
    event: &EventRef<'_>,
    cut: &mut History,
) -> Result<(), AllocError>
    requires process { place.now.process < length cut.old.processes }
    requires named { NamesBelow (length cut.old.processes) (event_of_ref event.now) }
    requires short { IsShort (event_of_ref event.now) }
    requires few { length (tape_at cut.old.processes place.now.process) < MOST_EVENTS }
    ensures { OnOk result (AddsLeft floor.now place.now.process place.now.number place.now.skip
        (event_of_ref event.now) cut.old.processes cut.new.processes) }
{
    match event {
        EventRef::Send { to, inc, body } => add_send(floor, place, *to, *inc, body, cut),
        EventRef::Recv { message } => add_receipt(floor, place, message, cut),
        EventRef::Check { state, round } => add_check(alloc, floor, place, state, *round, cut),
        EventRef::Mark { from, round } => add_mark(floor, place, *from, *round, cut),
    }
}
