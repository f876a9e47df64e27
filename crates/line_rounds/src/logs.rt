//! The messages noted from each process, which the recorded rounds share.
ghost use Rattle.std.specs.Prelude.{◌≡◌, ◌<◌, ◌≤◌, ◌++◌, [], ◌∷◌, length, map, replicate};
ghost use Rattle.std.specs.Prelude.{slice_index_or, slice_set, vec_len, vec_capacity, IfOk, OnOk};
ghost use Rattle.std.specs.Prelude.{OnErr, IsOk};
ghost use Rattle.line_rounds.specs.Spans.{names_of, least_room, open_span};

use crate::spans::Span;
use line_names::{MsgName, ProcId};
use std::alloc::{AllocError, Global};
use std::marker::Model;

/// The messages noted from one process, in the order in which they came.
#[derive(Drop)]
struct SenderLog {
    names: Vec<MsgName>,
}

impl Model for SenderLog {
    ghost use Rattle.std.specs.Prelude.{◌-◌, vec_len, vec_capacity};
    ghost use Rattle.line_rounds.specs.Spans.{SenderLogView};

    ghost Value = { SenderLogView };

    ghost view = { λ l. record {
      names = l.names.items;
      room = vec_capacity l.names - vec_len l.names;
    } };
}

/// The messages noted from each process.
#[derive(Drop)]
pub struct Logs {
    logs: Vec<SenderLog>,
}

impl Model for Logs {
    ghost use Rattle.std.specs.Prelude.{List};
    ghost use Rattle.line_rounds.specs.Spans.{SenderLogView};

    ghost Value = { List SenderLogView };

    ghost view = { λ l. l.logs.items };
}

impl Logs {
    /// No messages yet, from each of `n` processes.
    pub fn new(alloc: Global, n: u32) -> Result<Logs, AllocError>
        ensures { IfOk result (λ logs. names_of logs ≡ replicate n []) }
    {
        let mut logs = Vec::with_capacity(alloc, n as usize)?;
        for _p in 0..n {
            logs.push(SenderLog {
                names: Vec::new(alloc),
            })?;
        }
        Ok(Logs { logs })
    }

    /// From how many processes.
    pub fn len(&self) -> usize
        ensures { result ≡ length self.now }
    {
        self.logs.len()
    }

    /// The messages from a process.
    pub fn names(&self, p: ProcId) -> &[MsgName]
        requires { p < length self.now }
        ensures { result.now ≡ slice_index_or (names_of self.now) p [] }
    {
        &self.logs[p.get() as usize].names
    }

    /// Adds a message of its sender.
    pub fn push(&mut self, message: MsgName) -> Result<(), AllocError>
        requires { message.from < length self.old }
        ensures ok { OnOk result
            (names_of self.new
            ≡ slice_set (names_of self.old) message.from
            (slice_index_or (names_of self.old) message.from [] ++ message ∷ [])) }
        ensures err { OnErr result (names_of self.new ≡ names_of self.old) }
        ensures room { 0 < least_room self.old → IsOk result }
    {
        let log = &mut self.logs[message.from.get() as usize];
        log.names.push(message)?;
        Ok(())
    }

    /// Makes room for a message more of each process.
    pub fn reserve(&mut self) -> Result<(), AllocError>
        ensures same { names_of self.new ≡ names_of self.old }
        ensures ok { OnOk result (0 < least_room self.new) }
        ensures succeeds { 0 < least_room self.old → IsOk result }
        ensures room { least_room self.old ≤ least_room self.new }
    {
        for i in 0..self.logs.len() {
            let log = &mut self.logs[i];
            log.names.reserve(1)?;
        }
        Ok(())
    }

    /// Puts down, in room made for it, that a channel from each process begins now.
    pub fn open(&self, spans: &mut Vec<Span>)
        requires empty { spans.old.items ≡ [] }
        requires room { length self.now ≤ vec_capacity spans.old }
        ensures { spans.new.items ≡ map open_span (names_of self.now) }
    {
        for log in &self.logs {
            let start = log.names.len();
            spans.push_reserved(Span::Open { start });
        }
    }
}
