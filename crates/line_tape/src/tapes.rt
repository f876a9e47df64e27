//! The tape of one process.
ghost use Rattle.std.specs.Prelude.{◌≡◌, ◌≢◌, ◌<◌, ◌≤◌, ◌+◌, ◌↔◌, [], ◌∷◌, ◌++◌, length, OnOk};
ghost use Rattle.std.specs.Prelude.{OnErr, IfOk, IsErrOf, IsOk, IsTrue, Contains, slice_get, Some};
ghost use Rattle.std.specs.Option.{SomeIff};
ghost use Rattle.line_tape.specs.declared.events.Event.TheVariants.{Recv};
ghost use Rattle.line_tape.specs.declared.tapes.TapeError.TheVariants.{StateTooLong, TapeFull};
ghost use Rattle.line_tape.specs.declared.tapes.TapeError.TheVariants.{OutOfMemory};
ghost use Rattle.line_tape.specs.Event.{incarnations_sent, checks, sends, stored_state, Holds};
ghost use Rattle.line_tape.specs.Event.{HasLongState, IsShort};
ghost use Rattle.line_tape.specs.Front.{place, front, HasChoice};
ghost use Rattle.line_tape.specs.History.{IsTape};
ghost use Rattle.line_tape.specs.Shown.{event_of_ref};
ghost use Rattle.line_tape.specs.Transit.{addressees, names_received};

mod appends;
mod cuts;
mod rooms;

use crate::events::{Event, EventRef};
use crate::limits::{MOST_EVENTS, MOST_STATE};
use crate::logs::{Events, Log};
use crate::receipts::Receipts;
use line_names::{Choice, MsgName, ProcId};
use std::alloc::{AllocError, Global};
use std::marker::Model;
use thiserror::Error;

/// Where a check stands: how many events, sends and receipts are before the choice of it.
#[derive(Clone, Copy)]
pub struct CheckRow {
    pub place: u32,
    pub sends: u32,
    pub receipts: u32,
}

/// The events of one process, in their order.
///
/// Beside them it keeps where its checks stand, the incarnations and the addressees of its sends
/// and which receipt of each message was its first, so that no question scans the events; and how
/// many of its first events a restart would leave as they are, so that none looks at these again.
///
/// `spare` counts events that surely fit, so that the lists are seldom asked for their room. The
/// bodies, the links by sender, and the rows and the states of checks are not counted: they often
/// have room for just one. Where the count is not 0, each of them has room for one.
#[derive(Drop)]
pub struct Tape {
    log: Log,
    checks: Vec<CheckRow>,
    incarnations: Vec<u16>,
    addressees: Vec<ProcId>,
    receipts: Receipts,
    settled: u32,
    spare: u32,
}

impl Model for Tape {
    ghost use Rattle.std.specs.Prelude.{◌-◌, min, vec_len, vec_capacity};
    ghost use Rattle.line_tape.specs.Views.{TapeView};

    ghost Value = { TapeView };

    ghost use Rattle.line_tape.specs.Kept.{IsIndexed};

    ghost view = { λ t. record {
      events = t.log.events;
      room = min (min t.spare t.receipts.senders)
          (min t.log.bodies (min (vec_capacity t.checks - vec_len t.checks) t.log.states));
    } };

    ghost invariant = { λ t. IsIndexed t.log.events t.checks.items t.incarnations.items
        t.addressees.items t.receipts t.settled t.spare
        (min (min t.log.room t.receipts.room)
        (min (vec_capacity t.incarnations - vec_len t.incarnations)
        (vec_capacity t.addressees - vec_len t.addressees)))
        (min (min t.log.bodies t.receipts.senders)
        (min (vec_capacity t.checks - vec_len t.checks) t.log.states)) };
}

impl Tape {
    /// The tape of a process that has done nothing yet.
    pub fn new(alloc: Global) -> Tape
        ensures { result.events ≡ [] }
    {
        Tape {
            log: Log::new(alloc),
            checks: Vec::new(alloc),
            incarnations: Vec::new(alloc),
            addressees: Vec::new(alloc),
            receipts: Receipts::new(alloc),
            settled: 0,
            spare: 0,
        }
    }

    /// How many events it has.
    pub fn len(&self) -> u32
        ensures value { result ≡ length self.now.events }
        ensures limits { IsTape self.now.events }
    {
        self.log.len() as u32
    }

    /// Whether it has no event yet.
    pub fn is_empty(&self) -> bool
        ensures { IsTrue result ↔ (self.now.events ≡ []) }
    {
        self.log.len() == 0
    }

    /// The event after `i` others.
    pub fn event(&self, i: u32) -> EventRef<'_>
        requires { i < length self.now.events }
        ensures { slice_get self.now.events i ≡ Some (event_of_ref result) }
    {
        self.log.events().at(i as usize)
    }

    /// The incarnation under which the send of that number, counted from 0, was made.
    pub fn sent_under(&self, number: u32) -> Option<u16>
        ensures { result ≡ slice_get (incarnations_sent self.now.events) number }
    {
        self.incarnations.get(number as usize).copied()
    }

    /// The process that the send of that number, counted from 0, names.
    pub fn addressee(&self, number: u32) -> Option<ProcId>
        ensures { result ≡ slice_get (addressees self.now.events) number }
    {
        self.addressees.get(number as usize).copied()
    }

    /// The incarnations of its sends, send by send.
    pub(crate) fn incarnations(&self) -> &[u16]
        ensures { result.now ≡ incarnations_sent self.now.events }
    {
        self.incarnations.as_slice()
    }

    /// How many sends it has.
    #[tactic(auto, using(crate::proofs::RowLemmas::sends_le))]
    pub fn sends(&self) -> u32
        ensures value { result ≡ sends self.now.events }
        ensures few { result ≤ MOST_EVENTS }
    {
        self.incarnations.len() as u32
    }

    /// How many checks it has, its initial state not counted.
    #[tactic(auto, using(crate::proofs::RowLemmas::checks_le))]
    pub fn checks(&self) -> u32
        ensures value { result ≡ checks self.now.events }
        ensures few { result ≤ MOST_EVENTS }
    {
        self.checks.len() as u32
    }

    /// How many events stand before a choice; none where the tape has no such check.
    pub fn place(&self, choice: Choice) -> Option<u32>
        ensures { SomeIff result (HasChoice self.now.events choice) (place self.now.events choice) }
    {
        match choice {
            Choice::Check(0) => Some(0),
            Choice::Check(c) => {
                if c <= self.checks() {
                    Some(self.checks[c as usize - 1].place)
                } else {
                    None
                }
            }
            Choice::Now => Some(self.len()),
        }
    }

    /// How many events, sends and receipts stand before a choice.
    fn row(&self, choice: Choice) -> CheckRow
        requires { HasChoice self.now.events choice }
        ensures place { result.place ≡ place self.now.events choice }
        ensures sends { result.sends ≡ sends (front self.now.events choice) }
        ensures receipts { result.receipts
            ≡ length (names_received (front self.now.events choice)) }
    {
        match choice {
            Choice::Check(0) => CheckRow {
                place: 0,
                sends: 0,
                receipts: 0,
            },
            Choice::Check(c) => self.checks[c as usize - 1],
            Choice::Now => CheckRow {
                place: self.len(),
                sends: self.sends(),
                receipts: self.receipts.count(),
            },
        }
    }

    /// How many sends stand before a choice.
    pub fn sends_before(&self, choice: Choice) -> u32
        requires { HasChoice self.now.events choice }
        ensures { result ≡ sends (front self.now.events choice) }
    {
        self.row(choice).sends
    }

    /// How many receipts stand before a choice.
    pub(crate) fn receipts_before(&self, choice: Choice) -> u32
        requires { HasChoice self.now.events choice }
        ensures { result ≡ length (names_received (front self.now.events choice)) }
    {
        self.row(choice).receipts
    }

    /// The message that is received after `i` others.
    pub(crate) fn receipt(&self, i: u32) -> MsgName
        requires { i < length (names_received self.now.events) }
        ensures { slice_get (names_received self.now.events) i ≡ Some result }
    {
        self.receipts.at(i as usize)
    }

    /// Whether the send of that number, counted from 0, stands before a choice and has that
    /// incarnation.
    pub fn sent_before(&self, choice: Choice, inc: u16, number: u32) -> bool
        requires { HasChoice self.now.events choice }
        ensures { IsTrue result ↔ Holds (front self.now.events choice) inc number }
    {
        number < self.sends_before(choice) && self.incarnations[number as usize] == inc
    }

    /// Whether a receipt of the message stands before a choice.
    pub fn received_before(&self, choice: Choice, message: &MsgName) -> bool
        requires { HasChoice self.now.events choice }
        ensures { IsTrue result ↔ Contains (front self.now.events choice) (Recv message.now) }
    {
        self.receipts.is_before(message, self.row(choice).receipts)
    }

    /// The events that stand before a choice.
    #[tactic(auto, using(crate::proofs::FrontLemmas::place_le))]
    pub fn front(&self, choice: Choice) -> Events<'_>
        requires { HasChoice self.now.events choice }
        ensures { result ≡ front self.now.events choice }
    {
        let place = self.row(choice).place;
        self.log.events().first(place as usize)
    }

    /// The bytes that a check stores; none for the initial state, which is check 0.
    pub fn state(&self, check: u32) -> &[u8]
        requires { check ≤ checks self.now.events }
        ensures { result.now ≡ stored_state self.now.events check }
    {
        if check == 0 {
            return &[];
        }
        let place = self.checks[check as usize - 1].place;
        match self.log.events().at(place as usize - 1).state() {
            Some(bytes) => bytes,
            None => unreachable!(),
        }
    }

    /// Makes room for so many further events: the next `k` pushes take no memory.
    ///
    /// It asks the lists for their room only when `spare` is used up, which then becomes the room
    /// of the fullest list. So the questions are spread over that many events, or over fewer where
    /// a list that only one kind of event uses is full before.
    pub fn reserve(&mut self, k: u32) -> Result<(), AllocError>
        ensures same { self.new.events ≡ self.old.events }
        ensures ok { OnOk result (k ≤ self.new.room) }
        ensures succeeds { k ≤ self.old.room → IsOk result }
        ensures room { self.old.room ≤ self.new.room }
    {
        if k <= 1 && k <= self.spare {
            return Ok(());
        }
        let senders = self.receipts.has_room_for_senders(k as usize);
        let rows = self.checks.capacity() - self.checks.len();
        let beside = self.log.room_beside().min(rows);
        if k <= self.spare && senders && k as usize <= beside {
            return Ok(());
        }
        self.make_room(k)
    }

    /// Adds an event at the end, in room that was made for it: what `push` does where it is not
    /// refused, for a caller that has made those tests. It takes no memory and costs a constant,
    /// but for a receipt out of order, which goes down a search tree by the bits of its name.
    pub fn append(&mut self, event: Event)
        requires room { 0 < self.old.room }
        requires few { length self.old.events < MOST_EVENTS }
        requires short { IsShort event }
        ensures events { self.new.events ≡ self.old.events ++ event ∷ [] }
        ensures room { self.old.room ≤ self.new.room + 1 }
        ensures limits { IsTape self.new.events }
    {
        match event {
            Event::Send { to, inc, body } => self.append_send(to, inc, body.bytes()),
            Event::Recv { message } => self.append_receipt(&message),
            Event::Check { state, round } => self.append_check(state, round),
            Event::Mark { from, round } => self.append_mark(from, round),
        }
    }

    /// Adds an event at the end.
    pub fn push(&mut self, event: Event) -> Result<(), TapeError>
        ensures ok { OnOk result (self.new.events ≡ self.old.events ++ event ∷ []) }
        ensures err { OnErr result (self.new.events ≡ self.old.events) }

        // The refusals, in their order.
        ensures long { IsErrOf result TapeError.StateTooLong ↔ HasLongState event }
        ensures full { IsErrOf result TapeError.TapeFull
            ↔ ((HasLongState event → ⊥) × (length self.old.events ≡ MOST_EVENTS)) }

        // With room memory is never refused, and one event takes room for one at most.
        ensures room { 0 < self.old.room → result ≢ Err TapeError.OutOfMemory }
        ensures spent { self.old.room ≤ self.new.room + 1 }

        ensures limits { IsTape self.new.events }
    {
        let len = self.log.len();
        if let Event::Check { state, .. } = &event {
            if state.bytes().len() > MOST_STATE {
                return Err(TapeError::StateTooLong);
            }
        }
        if len >= MOST_EVENTS {
            return Err(TapeError::TapeFull);
        }
        self.reserve(1)?;
        event.is_short_without_long_state();
        self.append(event);
        Ok(())
    }

    /// The same events in memory of their own: as much as they take, with none for further ones.
    /// What is kept beside them is copied as it is, and each large state takes memory by itself.
    pub fn copy(&self, alloc: Global) -> Result<Tape, AllocError>
        ensures { IfOk result (λ tape. tape.events ≡ self.now.events) }
    {
        let tape = Tape {
            log: self.log.copy(alloc)?,
            checks: Vec::from_slice(alloc, self.checks.as_slice())?,
            incarnations: Vec::from_slice(alloc, self.incarnations.as_slice())?,
            addressees: Vec::from_slice(alloc, self.addressees.as_slice())?,
            receipts: self.receipts.copy(alloc)?,
            settled: self.settled,
            spare: 0,
        };
        Ok(tape)
    }
}

/// Why an event was not added to a tape.
#[derive(Clone, Copy, Debug, PartialEq, Eq, Hash, Error)]
pub enum TapeError {
    /// Memory was refused.
    #[error("out of memory")]
    OutOfMemory = 0,
    /// The state is longer than a check may store.
    #[error("the state is longer than {MOST_STATE} bytes")]
    StateTooLong = 5,
    /// The tape has as many events as a tape may have.
    #[error("the tape has no room under {MOST_EVENTS} events")]
    TapeFull = 3,
}

impl TapeError {
    /// The number of the refusal, as replies show it.
    pub fn code(self) -> u32
        ensures memory { self ≡ TapeError.OutOfMemory → result ≡ 0 }
        ensures long { self ≡ TapeError.StateTooLong → result ≡ 5 }
        ensures full { self ≡ TapeError.TapeFull → result ≡ 3 }
    {
        self as u32
    }
}

impl From<AllocError> for TapeError {
    ghost use Rattle.std.specs.Prelude.{◌≡◌};
    ghost use Rattle.line_tape.specs.declared.tapes.TapeError.TheVariants.{OutOfMemory};

    ghost from_gives = { λ _ e. e ≡ OutOfMemory };

    fn from(_refused: AllocError) -> TapeError {
        TapeError::OutOfMemory
    }
}
