//! Which sends are received before a line.
ghost use Rattle.std.specs.Prelude.{◌≡◌, ◌<◌, ◌≤◌, ◌++◌, ◌∷◌, ◌↔◌, [], ℕ, List, Bool, false, true};
ghost use Rattle.std.specs.Prelude.{length, replicate, slice_index_or, slice_set, IfOk, IsTrue};
ghost use Rattle.line_names.specs.declared.choices.Choice.{Choice};
ghost use Rattle.line_tape.specs.declared.events.Event.{Event};
ghost use Rattle.line_tape.specs.declared.events.Event.TheVariants.{Recv};
ghost use Rattle.line_tape.specs.Fit.{IsSentTo};
ghost use Rattle.line_tape.specs.Line.{events_before, IsLine};
ghost use Rattle.line_tape.specs.Received.{with_seen, seen_below, AreCleared, AreTold, HasFlags};

use crate::histories::History;
use line_names::{Choice, Line, MsgName, ProcId};
use std::alloc::{AllocError, Global};
use std::marker::Model;

/// Which of the sends of one process are received, by number.
#[derive(Drop)]
struct SendFlags {
    sends: Vec<bool>,
}

impl Model for SendFlags {
    ghost use Rattle.std.specs.Prelude.{List, Bool};

    ghost Value = { List Bool };

    ghost view = { λ s. s.sends.items };
}

impl SendFlags {
    /// None of the sends.
    fn clear(&mut self)
        ensures { self.new ≡ replicate (length self.old) false }
    {
        self.sends.fill(false);
    }

    /// The send of that number too, if it is one of these.
    fn add(&mut self, number: u32)
        ensures { self.new ≡ slice_set self.old number true }
    {
        if (number as usize) < self.sends.len() {
            self.sends[number as usize] = true;
        }
    }
}

/// Whether the sender's tape holds the message, and its send is to process `q`.
fn is_sent_to(history: &History, message: &MsgName, q: ProcId) -> bool
    ensures { IsTrue result ↔ IsSentTo history.now.processes q message.now }
{
    match history.addressee(message) {
        Some(to) => {
            let tape = history.tape(message.from);
            to.get() == q.get() && tape.sent_before(Choice::Now, message.inc, message.number)
        }
        None => false,
    }
}

/// Adds a message that process `q` receives, if it was sent to `q`.
fn add_receipt(history: &History, q: ProcId, message: &MsgName, received: &mut Vec<SendFlags>)
    requires { length history.now.processes ≤ length received.old.items }
    ensures count { length received.new.items ≡ length received.old.items }
    ensures told { (line : List Choice) (seen : ℕ → List Event)
        → AreTold history.now.processes line seen received.old.items
        → AreTold history.now.processes line
        (with_seen seen q (seen q ++ Recv message.now ∷ []))
        received.new.items }
{
    if is_sent_to(history, message, q) {
        received[message.from.get() as usize].add(message.number);
    }
}

/// Adds the messages that process `q` receives before the line.
fn add_receipts(history: &History, line: &Line, q: ProcId, received: &mut Vec<SendFlags>)
    requires line { IsLine history.now.processes line.now }
    requires process { q < length history.now.processes }
    requires count { length history.now.processes ≤ length received.old.items }
    ensures count { length received.new.items ≡ length received.old.items }
    ensures told { (seen : ℕ → List Event)
        → AreTold history.now.processes line.now seen received.old.items
        → AreTold history.now.processes line.now
        (with_seen seen q (seen q ++ events_before history.now.processes line.now q))
        received.new.items }
{
    let tape = history.tape(q);
    let choice = line.at(q);
    for i in 0..tape.receipts_before(choice) {
        add_receipt(history, q, &tape.receipt(i), received);
    }
}

/// A flag for each of the sends of a history, which is marked where the send is received before a
/// line: the memory of a walk over what is in transit there.
#[derive(Drop)]
pub struct ReceivedFlags {
    senders: Vec<SendFlags>,
}

impl Model for ReceivedFlags {
    ghost use Rattle.std.specs.Prelude.{List, Bool};

    ghost Value = { List (List Bool) };

    ghost view = { λ f. f.senders.items };
}

impl ReceivedFlags {
    /// Flags for all that the processes of a history have sent, a byte for each.
    pub fn new(alloc: Global, history: &History) -> Result<ReceivedFlags, AllocError>
        ensures { IfOk result
            (λ flags. (line : List Choice) → HasFlags history.now.processes line flags) }
    {
        let n = history.n();
        let mut senders = Vec::with_capacity(alloc, n as usize)?;
        for q in 0..n {
            let p = ProcId::try_new(q, n).unwrap();
            let sends = history.tape(p).sends();
            senders.push(SendFlags {
                sends: vec![in alloc; false; sends as usize]?,
            })?;
        }
        Ok(ReceivedFlags { senders })
    }

    /// Whether there is a flag for each send before the line. There is where the flags were made
    /// for this history.
    pub fn is_whole(&self, history: &History, line: &Line) -> bool
        requires { IsLine history.now.processes line.now }
        ensures { IsTrue result ↔ HasFlags history.now.processes line.now self.now }
    {
        let n = history.n();
        if self.senders.len() < n as usize {
            return false;
        }
        for q in 0..n {
            let p = ProcId::try_new(q, n).unwrap();
            let sends = history.tape(p).sends_before(line.at(p)) as usize;
            if self.senders[q as usize].sends.len() < sends {
                return false;
            }
        }
        true
    }

    /// Takes all marks off.
    fn clear(&mut self)
        ensures { AreCleared self.old self.new }
    {
        for p in 0..self.senders.len() {
            self.senders[p].clear();
        }
    }

    /// Marks just those sends that are received before the line by the processes that they name,
    /// whatever was marked before.
    ///
    /// It looks once at each flag and at each receipt before the line, and takes no memory.
    pub fn mark(&mut self, history: &History, line: &Line)
        requires line { IsLine history.now.processes line.now }
        requires whole { HasFlags history.now.processes line.now self.old }
        ensures { AreTold history.now.processes line.now
            (events_before history.now.processes line.now) self.new }
    {
        self.clear();
        let n = history.n();
        for receiver in 0..n {
            let q = ProcId::try_new(receiver, n).unwrap();
            add_receipts(history, line, q, &mut self.senders);
        }
    }

    /// Whether the send of that number of a process is marked.
    pub fn has(&self, p: ProcId, number: u32) -> bool
        requires { number < length (slice_index_or self.now p []) }
        ensures { result ≡ slice_index_or (slice_index_or self.now p []) number false }
    {
        self.senders[p.get() as usize].sends[number as usize]
    }
}
