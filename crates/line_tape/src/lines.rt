//! What is sent before a line, what is an orphan of it, and whether it is consistent.
ghost use Rattle.std.specs.Prelude.{◌≡◌, ◌⊎◌, ◌<◌, ◌↔◌, IsTrue, Some, length};
ghost use Rattle.line_tape.specs.Line.{events_before, IsLine, IsSentBefore, IsFoundAmong};
ghost use Rattle.line_tape.specs.Line.{IsConsistent};

use crate::events::EventRef;
use crate::histories::History;
use crate::logs::Events;
use line_names::{Line, MsgName, ProcId};

/// Whether the line has one choice for each process, which its tape has.
pub fn is_line(history: &History, line: &Line) -> bool
    ensures { IsTrue result ↔ IsLine history.now.processes line.now }
{
    let n = history.n();
    if line.len() != n {
        return false;
    }
    for q in 0..n {
        let p = ProcId::try_new(q, n).unwrap();
        if history.tape(p).place(line.at(p)).is_none() {
            return false;
        }
    }
    true
}

/// Whether the message's send stands before the line.
pub fn is_sent_before(history: &History, line: &Line, message: &MsgName) -> bool
    requires { IsLine history.now.processes line.now }
    ensures { IsTrue result ↔ IsSentBefore history.now.processes line.now message.now }
{
    let p = message.from;
    if p.get() >= history.n() {
        return false;
    }
    history
        .tape(p)
        .sent_before(line.at(p), message.inc, message.number)
}

/// Of two orphans, that of the lower sender, and of one sender that of the greater number.
fn first_to_name(best: Option<MsgName>, other: MsgName) -> MsgName
    ensures { (result ≡ other) ⊎ (best ≡ Some result) }
{
    match best {
        None => other,
        Some(best) => {
            if best.from < other.from || (best.from == other.from && other.number <= best.number) {
                best
            } else {
                other
            }
        }
    }
}

/// An orphan among these events, if there is one: of several that of the lowest sender, and of that
/// sender the one with the greatest number.
///
/// It looks once at each event.
pub fn orphan_among(history: &History, line: &Line, events: &Events<'_>) -> Option<MsgName>
    requires { IsLine history.now.processes line.now }
    ensures { IsFoundAmong history.now.processes line.now events.now result }
{
    let mut best = None;
    for i in 0..events.len() {
        if let EventRef::Recv { message } = events.at(i) {
            if !is_sent_before(history, line, &message) {
                best = Some(first_to_name(best, message));
            }
        }
    }
    best
}

/// An orphan at a process, if there is one: of several that of the lowest sender, and of that
/// sender the one with the greatest number.
///
/// It looks once at each event before the process's choice.
pub fn orphan_on_tape(history: &History, line: &Line, q: ProcId) -> Option<MsgName>
    requires line { IsLine history.now.processes line.now }
    requires process { q < length history.now.processes }
    ensures { IsFoundAmong history.now.processes line.now
        (events_before history.now.processes line.now q) result }
{
    orphan_among(history, line, &history.tape(q).front(line.at(q)))
}

/// Whether no message is received before the line that is not sent before it.
///
/// It looks once at each event before the line.
pub fn is_consistent(history: &History, line: &Line) -> bool
    requires { IsLine history.now.processes line.now }
    ensures { IsTrue result ↔ IsConsistent history.now.processes line.now }
{
    let n = history.n();
    for q in 0..n {
        let p = ProcId::try_new(q, n).unwrap();
        if orphan_on_tape(history, line, p).is_some() {
            return false;
        }
    }
    true
}
