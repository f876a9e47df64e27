//! Whether names of messages agree with their senders, and marks with the tapes.
ghost use Rattle.std.specs.Prelude.{◌≡◌, ◌<◌, ◌≤◌, ◌↔◌, IsTrue, All, IfSome, length};
ghost use Rattle.line_tape.specs.Event.{NamesBelow};
ghost use Rattle.line_tape.specs.History.{tape_at};
ghost use Rattle.line_tape.specs.Shown.{event_of_ref};
ghost use Rattle.line_tape.specs.Views.{bar_at, damaged_at};
ghost use Rattle.line_catalogue.specs.Agreement.{NameAgrees, EventAgrees, Agrees};
ghost use Rattle.line_catalogue.specs.Damage.{AreOnChecks};

use line_names::{Choice, MsgName, ProcId};
use line_tape::{EventRef, History, Marks};

/// Whether the sender gave the message this name, or would give it later under its present
/// incarnation.
pub fn name_agrees(history: &History, message: &MsgName) -> bool
    requires { message.now.from < length history.now.processes }
    ensures { IsTrue result ↔ NameAgrees history.now.processes message.now }
{
    let tape = history.tape(message.from);
    if message.number < tape.sends() {
        tape.sent_before(Choice::Now, message.inc, message.number)
    } else {
        message.inc == history.incarnation(message.from)
    }
}

/// Whether the name of a message that the event receives agrees with its sender.
pub fn event_agrees(history: &History, event: &EventRef<'_>) -> bool
    requires { NamesBelow (length history.now.processes) (event_of_ref event.now) }
    ensures { IsTrue result ↔ EventAgrees history.now.processes (event_of_ref event.now) }
{
    match event {
        EventRef::Send { .. } => true,
        EventRef::Recv { message } => name_agrees(history, message),
        EventRef::Check { .. } => true,
        EventRef::Mark { .. } => true,
    }
}

/// Whether all names that a process received agree with their senders.
fn tape_agrees(history: &History, p: ProcId) -> bool
    requires { p < length history.now.processes }
    ensures { IsTrue result
        ↔ All (EventAgrees history.now.processes) (tape_at history.now.processes p) }
{
    let events = history.tape(p).front(Choice::Now);
    for i in 0..events.len() {
        if !event_agrees(history, &events.at(i)) {
            return false;
        }
    }
    true
}

/// Whether the history agrees. It looks once at each event.
pub fn agrees(history: &History) -> bool
    ensures { IsTrue result ↔ Agrees history.now.processes }
{
    let n = history.n();
    for q in 0..n {
        let p = ProcId::try_new(q, n).unwrap();
        if !tape_agrees(history, p) {
            return false;
        }
    }
    true
}

/// Whether no mark of the process is above the last one of its checks: the latest mark tells.
fn none_above(marks: &Marks, p: ProcId, last: u32) -> bool
    requires { p < length marks.now.damaged }
    ensures { IsTrue result ↔ All (λ check. check ≤ last) (damaged_at marks.now p) }
{
    match marks.latest(p.get() as usize) {
        Some(latest) => latest <= last,
        None => true,
    }
}

/// Whether the marks and the bar of a process are on checks up to the last one.
fn are_within(marks: &Marks, p: ProcId, last: u32) -> bool
    requires { p < length marks.now.damaged }
    ensures { IsTrue result ↔ (All (λ check. check ≤ last) (damaged_at marks.now p)
        × IfSome (bar_at marks.now p) (λ check. check ≤ last)) }
{
    none_above(marks, p, last)
        && match marks.bar_of(p) {
            Some(check) => check <= last,
            None => true,
        }
}

/// Whether each mark and each bar is on a check that its tape has. It looks at the latest mark and
/// at the bar of each process.
pub fn are_on_checks(history: &History, marks: &Marks) -> bool
    requires { length marks.now.damaged ≡ length history.now.processes }
    ensures { IsTrue result ↔ AreOnChecks history.now.processes marks.now }
{
    let n = history.n();
    let _count = marks.processes();
    for q in 0..n {
        let p = ProcId::try_new(q, n).unwrap();
        let last = history.tape(p).checks();
        if !are_within(marks, p, last) {
            return false;
        }
    }
    true
}
