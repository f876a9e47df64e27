//! Which of the messages that the tapes hold are received.
ghost use Rattle.std.specs.Prelude.{◌≡◌, ◌<◌, ◌≤◌, ◌&&◌, not, ℕ, List, [], false, All, length};
ghost use Rattle.std.specs.Prelude.{replicate, slice_index_or, slice_set, take, IfOk, OnOk, OnErr};
ghost use Rattle.line_names.specs.declared.messages.MsgName.{MsgName as Name};
ghost use Rattle.line_tape.specs.declared.events.Event.TheVariants.{Send, Recv};
ghost use Rattle.line_tape.specs.Event as Events;
ghost use Rattle.line_tape.specs.Fit.{IsSentTo, IsFitUnordered};
ghost use Rattle.line_tape.specs.History.{Process, fresh, tape_at, with_event};
ghost use Rattle.line_tape.specs.Line.{events_before, IsLine};
ghost use Rattle.line_tape.specs.Restart.{restarted_history};
ghost use Rattle.line_tape.specs.Transit.{has_received, in_transit};
ghost use Rattle.line_rounds.specs.Flags.{flag_at, flags_of, names_send, AreFlagged};

use line_names::{Line, MsgName, ProcId};
use line_tape::History;
use std::alloc::{AllocError, Global};
use std::marker::Model;

/// A flag for each send of one process, by number.
#[derive(Drop)]
struct Flags {
    received: Vec<bool>,
}

impl Model for Flags {
    ghost use Rattle.std.specs.Prelude.{List, Bool};

    ghost Value = { List Bool };

    ghost view = { λ f. f.received.items };
}

impl Flags {
    /// Whether the flag of that number is set.
    fn is_set(&self, number: u32) -> bool
        ensures { result ≡ slice_index_or self.now number false }
    {
        let number = number as usize;
        number < self.received.len() && self.received[number]
    }

    /// Writes the flag of that number, if there is one.
    fn write(&mut self, number: u32, is: bool)
        ensures { self.new ≡ slice_set self.old number is }
    {
        if (number as usize) < self.received.len() {
            self.received[number as usize] = is;
        }
    }

    /// Makes room for the flag of the next send.
    fn reserve(&mut self, sends: u32) -> Result<(), AllocError>
        ensures same { (number : ℕ)
            → slice_index_or self.new number false ≡ slice_index_or self.old number false }
        ensures ok { OnOk result (sends ≤ length self.old → sends < length self.new) }
        ensures more { length self.old ≤ length self.new }
        ensures err { OnErr result (self.new ≡ self.old) }
    {
        if self.received.len() <= sends as usize {
            self.received.push(false)?;
        }
        Ok(())
    }

    /// Keeps the flags of the first `sends` sends.
    fn cut(&mut self, sends: u32)
        ensures { self.new ≡ take sends self.old }
    {
        self.received.truncate(sends as usize);
    }
}

/// Of each message that the tapes hold, whether the process that it is for has received it.
///
/// It follows the tapes of a history that links without an order can lead to: whoever adds a send
/// to a tape calls `reserve` first, whoever adds a receipt calls `receive`, and whoever restarts
/// the tapes calls `restart`. No other event changes it. It takes a byte for each send.
#[derive(Drop)]
pub struct ReceivedSends {
    processes: Vec<Flags>,
}

impl Model for ReceivedSends {
    ghost use Rattle.std.specs.Prelude.{List, Bool};

    ghost Value = { List (List Bool) };

    ghost view = { λ r. r.processes.items };
}

impl ReceivedSends {
    /// For `n` processes that have done nothing yet. It takes memory for each, and fails if memory
    /// runs out.
    pub fn new(alloc: Global, n: u32) -> Result<ReceivedSends, AllocError>
        ensures value { IfOk result (λ received. received ≡ replicate n []) }
        ensures flagged { IfOk result (λ received. AreFlagged (replicate n fresh) received) }
    {
        let mut processes = Vec::with_capacity(alloc, n as usize)?;
        for _p in 0..n {
            processes.push(Flags {
                received: Vec::new(alloc),
            })?;
        }
        Ok(ReceivedSends { processes })
    }

    /// Whether the process that the message is for has received it. It takes constant time, and
    /// looks at no tape.
    pub fn has(&self, message: &MsgName) -> bool
        requires { message.now.from < length self.now }
        ensures { (history : List Process) (to : ℕ) → AreFlagged history self.now
            → IsSentTo history to message.now
            → result ≡ has_received (tape_at history to) message.now }
    {
        self.processes[message.from.get() as usize].is_set(message.number)
    }

    /// Makes room for the flag of the next send of a process, which has `sends` sends on its tape.
    /// The send itself then changes nothing here.
    ///
    /// It takes constant time, unless the list of flags has to grow. If memory runs out, nothing
    /// changes.
    pub fn reserve(&mut self, p: ProcId, sends: u32) -> Result<(), AllocError>
        requires { p < length self.old }
        ensures same { (history : List Process)
            → AreFlagged history self.old → AreFlagged history self.new }
        ensures ok { OnOk result ((history : List Process) (to inc : ℕ) (body : List ℕ)
            → AreFlagged history self.old → IsFitUnordered history
            → sends ≡ Events.sends (tape_at history p)
            → AreFlagged (with_event history p (Send to inc body)) self.new) }
        ensures err { OnErr result (self.new ≡ self.old) }
        ensures count { length self.new ≡ length self.old }
    {
        self.processes[p.get() as usize].reserve(sends)
    }

    /// The process that the message is for receives it. It takes constant time.
    pub fn receive(&mut self, message: &MsgName)
        requires { message.now.from < length self.old }
        ensures received { (history : List Process) (to : ℕ) → AreFlagged history self.old
            → to < length history → IsSentTo history to message.now
            → AreFlagged (with_event history to (Recv message.now)) self.new }
        ensures count { length self.new ≡ length self.old }
    {
        self.processes[message.from.get() as usize].write(message.number, true);
    }

    /// Cuts the flags of the sends after a line.
    fn cut(&mut self, history: &History, line: &Line)
        requires line { IsLine history.now.processes line.now }
        requires count { length self.old ≡ length history.now.processes }
        ensures cut { (p : ℕ) → p < length self.old → flags_of self.new p
            ≡ take (Events.sends (events_before history.now.processes line.now p))
            (flags_of self.old p) }
        ensures count { length self.new ≡ length self.old }
    {
        let n = history.n();
        for q in 0..n {
            let p = ProcId::try_new(q, n).unwrap();
            let sends = history.tape(p).sends_before(line.at(p));
            self.processes[q as usize].cut(sends);
        }
    }

    /// None of these messages is received any longer.
    fn clear(&mut self, messages: &[MsgName])
        requires { All (λ (message : Name). message.from < length self.old) messages.now }
        ensures cleared { (p number : ℕ) → flag_at self.new p number
            ≡ (flag_at self.old p number && not (names_send messages.now p number)) }
        ensures lengths { (p : ℕ) → length (flags_of self.new p) ≡ length (flags_of self.old p) }
        ensures count { length self.new ≡ length self.old }
    {
        for message in messages {
            self.processes[message.from.get() as usize].write(message.number, false);
        }
    }

    /// The processes go on from a line, where these messages are in transit.
    ///
    /// It looks at each of them, and at the flags of the sends that are cut. It takes no memory.
    pub fn restart(&mut self, history: &History, line: &Line, messages: &[MsgName])
        requires line { IsLine history.now.processes line.now }
        requires count { length self.old ≡ length history.now.processes }
        requires transit { messages.now ≡ in_transit history.now.processes line.now }
        ensures restart { AreFlagged history.now.processes self.old
            → AreFlagged (restarted_history history.now.processes line.now) self.new }
        ensures count { length self.new ≡ length self.old }
    {
        self.cut(history, line);
        self.clear(messages);
    }
}
