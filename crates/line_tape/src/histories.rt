//! The tapes of all processes.
ghost use Rattle.std.specs.Prelude.{◌≡◌, ◌≢◌, ◌<◌, ◌≤◌, ◌+◌, ◌↔◌, ◌⊎◌, ℕ, length, map, replicate};
ghost use Rattle.std.specs.Prelude.{OnOk, OnErr, IfOk, IsOk, IsErrOf};
ghost use Rattle.line_tape.specs.Event.{HasLongState, NamesBelow};
ghost use Rattle.line_tape.specs.History.{fresh, process_at, tape_at, incarnation_at, with_event};
ghost use Rattle.line_tape.specs.History.{with_incarnation, IsProcess, IsHistory};
ghost use Rattle.line_tape.specs.Plain.{process_kept};
ghost use Rattle.line_tape.specs.Transit.{addressee};
ghost use Rattle.line_tape.specs.Views.{room_at};

mod appends;
mod restarts;

use crate::events::Event;
use crate::limits::{MOST_EVENTS, MOST_STATE};
use crate::tapes::{Tape, TapeError};
use line_names::{MOST_PROCESSES, MsgName, ProcId};
use std::alloc::{AllocError, Global};
use std::marker::Model;
use thiserror::Error;

/// One process: its present incarnation and its tape.
#[derive(Drop)]
struct ProcessTape {
    incarnation: u16,
    tape: Tape,
}

/// The tapes of all processes, and the incarnation under which each goes on.
///
/// It asks of its events only that they keep within the limits and name processes that there are:
/// any history can be held, whether or not what it tells could happen.
#[derive(Drop)]
pub struct History {
    processes: Vec<ProcessTape>,
}

impl Model for History {
    ghost use Rattle.std.specs.Prelude.{map};
    ghost use Rattle.line_tape.specs.Views.{HistoryView};

    ghost Value = { HistoryView };

    ghost use Rattle.line_tape.specs.History.{IsHistory};
    ghost use Rattle.line_tape.specs.Plain.{process_kept, tape_room};

    ghost view = { λ h. record {
      processes = map process_kept h.processes.items;
      rooms = map tape_room h.processes.items;
    } };

    ghost invariant = { λ h. IsHistory (map process_kept h.processes.items) };
}

impl History {
    /// The history of `n` processes that have done nothing yet.
    pub fn new(alloc: Global, n: u32) -> Result<History, CountError>
        ensures ok { IfOk result (λ history. history.processes ≡ replicate n fresh) }
        ensures count { IsErrOf result CountError.BadCount ↔ ((n ≡ 0) ⊎ (MOST_PROCESSES < n)) }
    {
        if n == 0 || n as usize > MOST_PROCESSES {
            return Err(CountError::BadCount);
        }
        let mut processes = Vec::with_capacity(alloc, n as usize)?;
        for _p in 0..n {
            processes.push_reserved(ProcessTape {
                incarnation: 0,
                tape: Tape::new(alloc),
            });
        }
        Ok(History { processes })
    }

    /// How many processes it has.
    pub fn n(&self) -> u32
        ensures value { result ≡ length self.now.processes }
        ensures limits { IsHistory self.now.processes }
    {
        self.processes.len() as u32
    }

    /// The tape of a process.
    pub fn tape(&self, p: ProcId) -> &Tape
        requires { p < length self.now.processes }
        ensures events { result.now.events ≡ tape_at self.now.processes p }
        ensures room { result.now.room ≡ room_at self.now p }
        ensures limits { IsProcess (length self.now.processes) (process_at self.now.processes p) }
    {
        &self.processes[p.get() as usize].tape
    }

    /// The process that a message's send names; none where the sender's tape has no send of that
    /// number.
    pub fn addressee(&self, message: &MsgName) -> Option<ProcId>
        ensures { result ≡ addressee self.now.processes message.now }
    {
        match self.processes.get(message.from.get() as usize) {
            Some(process) => process.tape.addressee(message.number),
            None => None,
        }
    }

    /// The incarnation under which a process goes on.
    pub fn incarnation(&self, p: ProcId) -> u16
        requires { p < length self.now.processes }
        ensures { result ≡ incarnation_at self.now.processes p }
    {
        let process = &self.processes[p.get() as usize];
        process.incarnation
    }

    /// Has a process go on under another incarnation.
    pub fn set_incarnation(&mut self, p: ProcId, incarnation: u16)
        requires { p < length self.old.processes }
        ensures processes { self.new.processes ≡ with_incarnation self.old.processes p incarnation }
        ensures rooms { self.new.rooms ≡ self.old.rooms }
    {
        self.processes[p.get() as usize].incarnation = incarnation;
    }

    /// Makes room for so many further events of a process: its next `k` pushes take no memory.
    pub fn reserve(&mut self, p: ProcId, k: u32) -> Result<(), AllocError>
        requires { p < length self.old.processes }
        ensures same { self.new.processes ≡ self.old.processes }
        ensures ok { OnOk result (k ≤ room_at self.new p) }
        ensures succeeds { k ≤ room_at self.old p → IsOk result }
        ensures room { room_at self.old p ≤ room_at self.new p }
        ensures others { (q : ℕ) → q ≢ p → room_at self.new q ≡ room_at self.old q }
    {
        self.processes[p.get() as usize].tape.reserve(k)
    }

    /// Adds an event at the end of the tape of a process, in room that was made for it: what `push`
    /// does where it is not refused, for a caller that has made those tests. It takes no memory and
    /// costs what `Tape::append` does.
    pub fn append(&mut self, p: ProcId, event: Event)
        requires process { p < length self.old.processes }
        requires named { NamesBelow (length self.old.processes) event }
        requires short { HasLongState event → ⊥ }
        requires few { length (tape_at self.old.processes p) < MOST_EVENTS }
        requires room { 0 < room_at self.old p }
        ensures processes { self.new.processes ≡ with_event self.old.processes p event }
        ensures spent { room_at self.old p ≤ room_at self.new p + 1 }
        ensures others { (q : ℕ) → q ≢ p → room_at self.new q ≡ room_at self.old q }
    {
        event.is_short_without_long_state();
        self.processes[p.get() as usize].tape.append(event);
    }

    /// Adds an event at the end of the tape of a process.
    pub fn push(&mut self, p: ProcId, event: Event) -> Result<(), HistoryError>
        ensures ok { OnOk result (self.new.processes ≡ with_event self.old.processes p event) }
        ensures err { OnErr result (self.new.processes ≡ self.old.processes) }

        // The refusals, in their order: p and the processes that the event names are asked first.
        ensures process { IsErrOf result HistoryError.NoSuchProcess
            ↔ ((length self.old.processes ≤ p)
            ⊎ (NamesBelow (length self.old.processes) event → ⊥)) }
        ensures long { IsErrOf result HistoryError.StateTooLong
            ↔ ((p < length self.old.processes) × NamesBelow (length self.old.processes) event
            × HasLongState event) }
        ensures full { IsErrOf result HistoryError.TapeFull
            ↔ ((p < length self.old.processes) × NamesBelow (length self.old.processes) event
            × (HasLongState event → ⊥) × (length (tape_at self.old.processes p) ≡ MOST_EVENTS)) }

        // With room memory is never refused, and one event takes room for one at most.
        ensures room { 0 < room_at self.old p → result ≢ Err HistoryError.OutOfMemory }
        ensures spent { room_at self.old p ≤ room_at self.new p + 1 }
        ensures others { (q : ℕ) → q ≢ p → room_at self.new q ≡ room_at self.old q }
    {
        let n = self.n();
        if p.get() >= n || !event.names_below(n) {
            return Err(HistoryError::NoSuchProcess);
        }
        self.processes[p.get() as usize].tape.push(event)?;
        Ok(())
    }

    /// The same history in memory of its own.
    pub fn copy(&self, alloc: Global) -> Result<History, AllocError>
        ensures { IfOk result (λ history. history.processes ≡ self.now.processes) }
    {
        let mut processes = Vec::with_capacity(alloc, self.processes.len())?;
        for process in &self.processes {
            processes.push(ProcessTape {
                incarnation: process.incarnation,
                tape: process.tape.copy(alloc)?,
            })?;
        }
        Ok(History { processes })
    }
}

/// Why there is no history of so many processes.
#[derive(Clone, Copy, Debug, PartialEq, Eq, Hash, Error)]
pub enum CountError {
    /// Memory was refused.
    #[error("out of memory")]
    OutOfMemory = 0,
    /// The number of processes is not one that a history may have.
    #[error("the number of processes is not from 1 to {MOST_PROCESSES}")]
    BadCount = 6,
}

impl CountError {
    /// The number of the refusal, as replies show it.
    pub fn code(self) -> u32
        ensures memory { self ≡ CountError.OutOfMemory → result ≡ 0 }
        ensures count { self ≡ CountError.BadCount → result ≡ 6 }
    {
        self as u32
    }
}

impl From<AllocError> for CountError {
    ghost use Rattle.std.specs.Prelude.{◌≡◌};
    ghost use Rattle.line_tape.specs.declared.histories.CountError.TheVariants.{OutOfMemory};

    ghost from_gives = { λ _ e. e ≡ OutOfMemory };

    fn from(_refused: AllocError) -> CountError {
        CountError::OutOfMemory
    }
}

/// Why an event was not added to a history.
#[derive(Clone, Copy, Debug, PartialEq, Eq, Hash, Error)]
pub enum HistoryError {
    /// Memory was refused.
    #[error("out of memory")]
    OutOfMemory = 0,
    /// A process number is not below the number of processes.
    #[error("a process number is not below the number of processes")]
    NoSuchProcess = 1,
    /// The state is longer than a check may store.
    #[error("the state is longer than {MOST_STATE} bytes")]
    StateTooLong = 5,
    /// The tape has as many events as a tape may have.
    #[error("the tape has no room under {MOST_EVENTS} events")]
    TapeFull = 3,
}

impl HistoryError {
    /// The number of the refusal, as replies show it.
    pub fn code(self) -> u32
        ensures memory { self ≡ HistoryError.OutOfMemory → result ≡ 0 }
        ensures process { self ≡ HistoryError.NoSuchProcess → result ≡ 1 }
        ensures long { self ≡ HistoryError.StateTooLong → result ≡ 5 }
        ensures full { self ≡ HistoryError.TapeFull → result ≡ 3 }
    {
        self as u32
    }
}

impl From<TapeError> for HistoryError {
    ghost use Rattle.std.specs.Prelude.{◌≡◌};
    ghost use Rattle.line_tape.specs.Refusals.{tape_error};

    ghost from_gives = { λ t e. e ≡ tape_error t };

    fn from(error: TapeError) -> HistoryError {
        match error {
            TapeError::OutOfMemory => HistoryError::OutOfMemory,
            TapeError::StateTooLong => HistoryError::StateTooLong,
            TapeError::TapeFull => HistoryError::TapeFull,
        }
    }
}
