//! A walk over the messages in transit at a line.
ghost use Rattle.std.specs.Prelude.{◌≡◌, ◌≤◌, ◌<◌, ◌+◌, ◌∷◌, [], false, IfSome, MatchOption};
ghost use Rattle.std.specs.Prelude.{length, slice_index_or, take};
ghost use Rattle.line_tape.specs.declared.limits.TheConstants.{MOST_EVENTS};
ghost use Rattle.line_tape.specs.Event.{sends};
ghost use Rattle.line_tape.specs.Line.{events_before, IsLine};
ghost use Rattle.line_tape.specs.Received.{AreTold};
ghost use Rattle.line_tape.specs.Transit.{has_received};
ghost use Rattle.line_check.specs.Answers.{replay_of_ref, replays_due, still_due};

use crate::answers::ReplayRef;
use line_names::{Line, MsgName, ProcId};
use line_tape::{EventRef, Events, History, ReceivedFlags};

/// How far a walk over the messages in transit at a line has come: the process whose events it is
/// at, how many of them it has seen, and how many sends among these.
#[derive(Clone, Copy)]
pub struct ReplayCursor {
    p: u32,
    place: usize,
    number: u32,
}

/// Whether a process has received a message before the line.
pub(crate) fn is_received(history: &History, line: &Line, q: ProcId, message: &MsgName) -> bool
    requires { IsLine history.now.processes line.now }
    ensures { result ≡ has_received (events_before history.now.processes line.now q) message.now }
{
    if q.get() >= history.n() {
        return false;
    }
    history.tape(q).received_before(line.at(q), message)
}

// Whether a process has received a message before the line: by its flag, where there are some.
fn is_told(
    history: &History,
    line: &Line,
    received: Option<&ReceivedFlags>,
    q: ProcId,
    message: &MsgName,
) -> bool
    requires line { IsLine history.now.processes line.now }
    requires flag { IfSome received
        (λ flags. message.now.number < length (slice_index_or flags.now message.now.from [])) }
    requires told { IfSome received
        (λ flags. slice_index_or (slice_index_or flags.now message.now.from []) message.now.number
        false
        ≡ has_received (events_before history.now.processes line.now q) message.now) }
    ensures { result ≡ has_received (events_before history.now.processes line.now q) message.now }
{
    match received {
        Some(flags) => flags.has(message.from, message.number),
        None => is_received(history, line, q, message),
    }
}

// Takes the next event of a process before the line, and answers the message that it sends if that
// is in transit.
fn take_event<'a>(
    history: &History,
    line: &Line,
    received: Option<&ReceivedFlags>,
    p: ProcId,
    events: &Events<'a>,
    cursor: &mut ReplayCursor,
) -> Option<ReplayRef<'a>>
    requires line { IsLine history.now.processes line.now }
    requires told { IfSome received
        (λ flags. AreTold history.now.processes line.now
        (events_before history.now.processes line.now) flags.now) }
    requires counted { IfSome received
        (λ _. cursor.old.number ≡ sends (take cursor.old.place events.now)) }
    requires within { p < length history.now.processes }
    requires process { cursor.old.p ≡ p }
    requires events { events.now ≡ events_before history.now.processes line.now p }
    requires few { length events.now ≤ MOST_EVENTS }
    requires place { cursor.old.place < length events.now }
    requires number { cursor.old.number ≤ cursor.old.place }
    ensures left { MatchOption result
        (still_due history.now.processes line.now cursor.old
        ≡ still_due history.now.processes line.now cursor.new)
        (λ replay. still_due history.now.processes line.now cursor.old
        ≡ replay_of_ref replay ∷ still_due history.now.processes line.now cursor.new) }
    ensures process { cursor.new.p ≡ cursor.old.p }
    ensures place { cursor.new.place ≡ cursor.old.place + 1 }
    ensures number { cursor.new.number ≤ cursor.new.place }
    ensures counted { IfSome received.entry
        (λ _. cursor.new.number ≡ sends (take cursor.new.place events.now)) }
{
    let place = cursor.place;
    let event = events.at(place);
    cursor.place += 1;
    match event {
        EventRef::Send { to, inc, body } => {
            let number = cursor.number;
            cursor.number += 1;
            let message = MsgName {
                from: p,
                inc,
                number,
            };
            if is_told(history, line, received, to, &message) {
                return None;
            }
            Some(ReplayRef {
                message,
                to,
                place: place as u32,
                body,
            })
        }
        EventRef::Recv { .. } => None,
        EventRef::Check { .. } => None,
        EventRef::Mark { .. } => None,
    }
}

impl ReplayCursor {
    /// The start of a walk.
    pub fn new() -> ReplayCursor
        ensures place { result.place ≡ 0 }
        ensures number { result.number ≡ 0 }
        ensures process { result.p ≡ 0 }
    {
        ReplayCursor {
            p: 0,
            place: 0,
            number: 0,
        }
    }
}

/// The next message in transit at the line, as `next_replay` has it. With flags that tell what is
/// received before the line no receipt is looked up.
pub(crate) fn next_due<'a>(
    history: &'a History,
    line: &Line,
    received: Option<&ReceivedFlags>,
    cursor: &mut ReplayCursor,
) -> Option<ReplayRef<'a>>
    requires line { IsLine history.now.processes line.now }
    requires told { IfSome received
        (λ flags. AreTold history.now.processes line.now
        (events_before history.now.processes line.now) flags.now) }
    requires counted { IfSome received (λ _. cursor.old.number
        ≡ sends
        (take cursor.old.place (events_before history.now.processes line.now cursor.old.p))) }
    requires number { cursor.old.number ≤ cursor.old.place }
    ensures left { MatchOption result
        (still_due history.now.processes line.now cursor.old ≡ [])
        (λ replay. still_due history.now.processes line.now cursor.old
        ≡ replay_of_ref replay ∷ still_due history.now.processes line.now cursor.new) }
    ensures number { cursor.new.number ≤ cursor.new.place }
    ensures counted { IfSome received.entry (λ _. cursor.new.number
        ≡ sends
        (take cursor.new.place (events_before history.now.processes line.now cursor.new.p))) }
{
    let n = history.n();
    // A copy of its own has no place in memory.
    let mut walk = *cursor;
    'processes: while walk.p < n {
        let p = ProcId::try_new(walk.p, n).unwrap();
        let events = history.tape(p).front(line.at(p));
        'events: while walk.place < events.len() {
            match take_event(history, line, received, p, &events, &mut walk) {
                Some(replay) => {
                    *cursor = walk;
                    return Some(replay);
                }
                None => {}
            }
        }
        walk.p += 1;
        walk.place = 0;
        walk.number = 0;
    }
    *cursor = walk;
    None
}

/// The next message in transit at the line, by sender, then number, as it is sent again.
///
/// A whole walk looks once at each event before the line, and for each send at one receipt, in time
/// logarithmic in the receipts of its process. It takes no memory.
pub fn next_replay<'a>(
    history: &'a History,
    line: &Line,
    cursor: &mut ReplayCursor,
) -> Option<ReplayRef<'a>>
    requires line { IsLine history.now.processes line.now }
    requires number { cursor.old.number ≤ cursor.old.place }
    ensures left { MatchOption result
        (still_due history.now.processes line.now cursor.old ≡ [])
        (λ replay. still_due history.now.processes line.now cursor.old
        ≡ replay_of_ref replay ∷ still_due history.now.processes line.now cursor.new) }
    ensures number { cursor.new.number ≤ cursor.new.place }
{
    next_due(history, line, None, cursor)
}
