//! What is in transit of one process.
ghost use Rattle.std.specs.Prelude.{◌≡◌, ◌<◌, ◌≤◌, ◌+◌, ◌++◌, ℕ, List, not, length, Contains};
ghost use Rattle.std.specs.Prelude.{true, false, IfOk, None, OnOk, Some};
ghost use Rattle.std.specs.List.Sorted.{IsNonDecreasing, IsNonDecreasingBy};
ghost use Rattle.line_names.specs.declared.messages.MsgName.{MsgName};
ghost use Rattle.line_tape.specs.Event.{sends};
ghost use Rattle.line_tape.specs.Fit.{IsSentTo};
ghost use Rattle.line_tape.specs.Line.{events_before, IsLine};
ghost use Rattle.line_tape.specs.Transit.{has_received};
ghost use Rattle.line_catalogue.specs.Known.{AreMarksExact, AreMarksExactSince, AreReceived};
ghost use Rattle.line_catalogue.specs.Known.{AreOldUnreceived, IsReceived, IsUnreceived};
ghost use Rattle.line_catalogue.specs.Left.{messages_of, open_first, AreSent, ComeInOrder, HasOpen};
ghost use Rattle.line_catalogue.specs.Left.{HasOpenBeside};

use crate::known::mark_of;
use crate::numbers::Numbers;
use line_names::{Line, MsgName, ProcId};
use line_tape::History;
use std::alloc::AllocError;

/// A process that sent messages, and what is known of them, so that few of them are asked of.
#[derive(Clone, Copy)]
pub struct Sender<'a> {
    pub p: ProcId,
    /// How many of its first messages are looked at apart from the later ones.
    pub end: u32,
    /// The messages that were kept, of all senders.
    pub left: &'a [MsgName],
    /// The numbers of those first messages that are in transit and were not kept, and of others.
    pub row: &'a Numbers,
    /// The first message that has a mark.
    pub base: u32,
    /// The marks: what is marked is received before the line.
    pub marks: &'a [bool],
    /// Whether the kept line is closed: of the later messages, what has a mark and is not marked is
    /// not received before the line.
    pub closed: bool,
    /// Whether no message that was kept, and is from before the base, is received before the line.
    pub quiet: bool,
}

/// Whether a process receives the message before the line.
fn is_received(history: &History, line: &Line, q: ProcId, message: &MsgName) -> bool
    requires { IsLine history.now.processes line.now }
    ensures { result ≡ has_received (events_before history.now.processes line.now q) message.now }
{
    q.get() < history.n() && history.tape(q).received_before(line.at(q), message)
}

/// Adds a process's message of a number, if it is in transit.
fn add_if_open(
    history: &History,
    line: &Line,
    p: ProcId,
    number: u32,
    messages: &mut Vec<MsgName>,
) -> Result<(), AllocError>
    requires line { IsLine history.now.processes line.now }
    requires process { p < length history.now.processes }
    requires number { number < sends (events_before history.now.processes line.now p) }
    ensures { OnOk result ((before : List MsgName)
        → messages.old.items ≡ before ++ open_first history.now.processes line.now p number
        → messages.new.items ≡ before ++ open_first history.now.processes line.now p (number + 1)) }
{
    let tape = history.tape(p);
    let message = MsgName {
        from: p,
        inc: tape.sent_under(number).unwrap(),
        number,
    };
    match tape.addressee(number) {
        Some(q) => {
            if !is_received(history, line, q, &message) {
                messages.push(message)?;
            }
            Ok(())
        }
        None => Ok(()),
    }
}

/// Adds those of a process's first `end` messages that are in transit, where the row has their
/// numbers.
fn add_old(
    history: &History,
    line: &Line,
    p: ProcId,
    end: u32,
    row: &[u32],
    messages: &mut Vec<MsgName>,
) -> Result<(), AllocError>
    requires line { IsLine history.now.processes line.now }
    requires process { p < length history.now.processes }
    requires end { end ≤ sends (events_before history.now.processes line.now p) }
    requires sorted { IsNonDecreasing row.now }
    requires held { HasOpen history.now.processes line.now p end row.now }
    ensures { OnOk result (messages.new.items
        ≡ messages.old.items ++ open_first history.now.processes line.now p end) }
{
    let mut next = 0;
    for number in row {
        if next <= *number && *number < end {
            add_if_open(history, line, p, *number, messages)?;
            next = *number + 1;
        }
    }
    Ok(())
}

/// Whether a message of the sender that was kept is not received before the line: its mark tells
/// that, if it has one, and a quiet sender, if the message is from before the base.
fn is_open(history: &History, line: &Line, sender: &Sender<'_>, message: &MsgName) -> bool
    requires line { IsLine history.now.processes line.now }
    requires own { message.now.from ≡ sender.now.p }
    requires kept { Contains sender.now.left.now message.now }
    requires told { AreMarksExact history.now.processes line.now sender.now.p sender.now.base
        sender.now.marks.now sender.now.left.now }
    requires quiet { sender.now.quiet ≡ true → AreOldUnreceived history.now.processes line.now
        sender.now.p sender.now.base sender.now.left.now }
    ensures { (q : ℕ) → IsSentTo history.now.processes q message.now
        → result ≡ not (has_received (events_before history.now.processes line.now q) message.now) }
{
    let base = sender.base;
    if message.number < base && sender.quiet {
        return true;
    }
    match mark_of(sender.marks, base, message.number) {
        Some(mark) => !mark,
        None => match history.addressee(message) {
            Some(q) => !is_received(history, line, q, message),
            None => false,
        },
    }
}

/// Those of the messages that a process sent. It searches for them by halves.
fn messages_of<'a>(messages: &'a [MsgName], p: ProcId) -> &'a [MsgName]
    requires { IsNonDecreasingBy (λ (message : MsgName). message.from) messages.now }
    ensures { result.now ≡ messages_of p messages.now }
{
    let start = messages.partition_point(|message| message.from.get() < p.get());
    let end = messages.partition_point(|message| message.from.get() <= p.get());
    &messages[start..end]
}

/// Adds those of a sender's first messages that are in transit. Where the row is empty only what
/// was kept can be, and little has to be asked; else the numbers of both are put in order.
pub fn add_first(
    history: &History,
    line: &Line,
    sender: &Sender<'_>,
    messages: &mut Vec<MsgName>,
) -> Result<(), AllocError>
    requires line { IsLine history.now.processes line.now }
    requires process { sender.now.p < length history.now.processes }
    requires end { sender.now.end ≤ sends (events_before history.now.processes line.now
        sender.now.p) }
    requires order { ComeInOrder sender.now.left.now }
    requires sent { AreSent history.now.processes sender.now.left.now }
    requires held { HasOpenBeside history.now.processes line.now sender.now.p sender.now.end
        sender.now.row.now sender.now.left.now }
    requires told { AreMarksExact history.now.processes line.now sender.now.p sender.now.base
        sender.now.marks.now sender.now.left.now }
    requires quiet { sender.now.quiet ≡ true → AreOldUnreceived history.now.processes line.now
        sender.now.p sender.now.base sender.now.left.now }
    ensures { OnOk result (messages.new.items ≡ messages.old.items
        ++ open_first history.now.processes line.now sender.now.p sender.now.end) }
{
    let kept = messages_of(sender.left, sender.p);
    if sender.row.is_empty() {
        for message in kept {
            if message.number < sender.end && is_open(history, line, sender, message) {
                messages.push(*message)?;
            }
        }
        return Ok(());
    }
    let both = Numbers::of_both(kept, sender.row, *messages.allocator())?;
    let row = both.as_slice();
    add_old(history, line, sender.p, sender.end, row, messages)
}

/// Adds a sender's message of a number, if it is in transit: its mark tells that it is not, and
/// where the kept line is closed it tells that it is. Else it is asked of.
fn add_if_not_marked(
    history: &History,
    line: &Line,
    sender: &Sender<'_>,
    number: u32,
    mark: Option<bool>,
    messages: &mut Vec<MsgName>,
) -> Result<(), AllocError>
    requires line { IsLine history.now.processes line.now }
    requires process { sender.now.p < length history.now.processes }
    requires number { number < sends (events_before history.now.processes line.now sender.now.p) }
    requires known { mark ≡ Some true
        → IsReceived history.now.processes line.now sender.now.p number }
    requires told { sender.now.closed ≡ true → mark ≡ Some false
        → IsUnreceived history.now.processes line.now sender.now.p number }
    ensures { OnOk result ((before : List MsgName)
        → messages.old.items ≡ before
        ++ open_first history.now.processes line.now sender.now.p number
        → messages.new.items ≡ before
        ++ open_first history.now.processes line.now sender.now.p (number + 1)) }
{
    match mark {
        Some(true) => Ok(()),
        Some(false) => {
            let closed = sender.closed;
            if closed {
                messages.push(MsgName {
                    from: sender.p,
                    inc: history.tape(sender.p).sent_under(number).unwrap(),
                    number,
                })?;
                Ok(())
            } else {
                add_if_open(history, line, sender.p, number, messages)
            }
        }
        None => add_if_open(history, line, sender.p, number, messages),
    }
}

/// Adds the messages of a sender that are in transit, but for its first ones: those that their
/// marks tell, and of those that are not known each that is not received. It stops where there are
/// more messages than the most, and answers at how many sends it has looked.
pub fn add_since(
    history: &History,
    line: &Line,
    sender: &Sender<'_>,
    most: Option<usize>,
    messages: &mut Vec<MsgName>,
) -> Result<u32, AllocError>
    requires line { IsLine history.now.processes line.now }
    requires process { sender.now.p < length history.now.processes }
    requires end { sender.now.end ≤ sends (events_before history.now.processes line.now
        sender.now.p) }
    requires known { AreReceived history.now.processes line.now sender.now.p sender.now.base
        sender.now.marks.now }
    requires told { sender.now.closed ≡ true
        → AreMarksExactSince history.now.processes line.now sender.now.p sender.now.end
        sender.now.base sender.now.marks.now }
    ensures found { IfOk result (λ looked. (before : List MsgName)
        → messages.old.items ≡ before
        ++ open_first history.now.processes line.now sender.now.p sender.now.end
        → messages.new.items ≡ before
        ++ open_first history.now.processes line.now sender.now.p looked) }
    ensures since { IfOk result (λ looked. sender.now.end ≤ looked) }
    ensures few { IfOk result (λ looked.
        looked ≤ sends (events_before history.now.processes line.now sender.now.p)) }
    ensures all { most ≡ None → IfOk result (λ looked.
        looked ≡ sends (events_before history.now.processes line.now sender.now.p)) }
{
    let sends = history.tape(sender.p).sends_before(line.at(sender.p));
    let base = sender.base;
    let marks = sender.marks;
    for number in sender.end..sends {
        if most.unwrap_or(usize::MAX) < messages.len() {
            return Ok(number);
        }
        let mark = mark_of(marks, base, number);
        add_if_not_marked(history, line, sender, number, mark, messages)?;
    }
    Ok(sends)
}
