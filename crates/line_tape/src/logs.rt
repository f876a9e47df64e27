//! The events of a tape, as it keeps and shows them.
ghost use Rattle.std.specs.Prelude.{◌≡◌, ◌<◌, ◌≤◌, ◌+◌, ◌-◌, ◌^◌, ◌↔◌, ℕ, Option, [], ◌∷◌, ◌++◌};
ghost use Rattle.std.specs.Prelude.{All, IfOk, IsOk, IsTrue, Some, drop, length, min, slice_get};
ghost use Rattle.std.specs.Prelude.{take, vec_capacity, vec_len};
ghost use Rattle.std.specs.List.{filter_map};
ghost use Rattle.line_tape.specs.declared.events.Event.TheVariants.{Check, Mark, Recv, Send};
ghost use Rattle.line_tape.specs.Kept.{IsSettled};
ghost use Rattle.line_tape.specs.Restart.{restarted_event};
ghost use Rattle.line_tape.specs.Shown.{event_of_ref};

mod copies;
mod restarts;
mod starts;

use crate::events::{EventRef, State};
use crate::limits::MOST_EVENTS;
use line_names::{MOST_BODY, MsgName, ProcId};
use restarts::restart_events;
use starts::{bytes_before, states_before};
use std::alloc::{AllocError, Global};
use std::marker::Model;

/// An event in sixteen bytes: those of a body or a state are kept beside it.
///
/// A state of at most `MOST_BODY` bytes is small: its bytes stand among those of the bodies. A
/// large one stays in the memory that it came in.
#[derive(Clone, Copy)]
pub(crate) enum KeptEvent {
    /// A message of `len` bytes, which stand after `start` others.
    Send {
        to: ProcId,
        start: u32,
        inc: u16,
        len: u8,
    },
    /// The receipt of a message.
    Recv {
        message: MsgName,
    },
    /// A check that stores `len` bytes, which stand after `start` others.
    Check {
        start: u32,
        round: u32,
        len: u8,
        of_round: bool,
    },
    /// A check whose state is large, and stands after so many others.
    LargeCheck {
        before: u32,
        round: Option<u32>,
    },
    /// The receipt of a marker.
    Mark {
        from: ProcId,
        round: u32,
    },
}

// What an event takes on a tape, beside its bytes.
const _: () = prove!(size_of::<KeptEvent>() == 16);

/// The events of a tape in their order, each in sixteen bytes, and beside them the bytes of bodies
/// and of small states, one after another, and the large states.
#[derive(Drop)]
pub(crate) struct Log {
    events: Vec<KeptEvent>,
    bodies: Vec<u8>,
    states: Vec<State>,
}

impl Model for Log {
    ghost use Rattle.std.specs.Prelude.{◌-◌, ◌/◌, length, map, vec_capacity, vec_len};
    ghost use Rattle.line_names.specs.declared.limits.TheConstants.{MOST_BODY};
    ghost use Rattle.line_tape.specs.Laid.{event_from_kept, IsLaid};
    ghost use Rattle.line_tape.specs.Views.{LogView};

    ghost Value = { LogView };

    ghost view = { λ l. record {
      events = map (event_from_kept l.bodies.items l.states.items) l.events.items;
      room = vec_capacity l.events - vec_len l.events;
      bodies = (vec_capacity l.bodies - vec_len l.bodies) / MOST_BODY;
      states = vec_capacity l.states - vec_len l.states;
    } };

    ghost invariant = { λ l.
        IsLaid l.events.items 0 0 (length l.bodies.items) (length l.states.items) };
}

impl Log {
    /// The log of no events.
    pub(crate) fn new(alloc: Global) -> Log
        ensures { result.events ≡ [] }
    {
        Log {
            events: Vec::new(alloc),
            bodies: Vec::new(alloc),
            states: Vec::new(alloc),
        }
    }

    /// How many events there are.
    pub(crate) fn len(&self) -> usize
        ensures { result ≡ length self.now.events }
    {
        self.events.len()
    }

    /// The events, as they are shown.
    #[tactic(auto, using(crate::proofs::LaidLemmas::laid_fit))]
    pub(crate) fn events(&self) -> Events<'_>
        ensures { result ≡ self.now.events }
    {
        Events {
            events: self.events.as_slice(),
            bodies: self.bodies.as_slice(),
            states: self.states.as_slice(),
        }
    }

    /// Makes room for so many further events with their bodies and states, and tells for how many
    /// events there is room then, where their bodies and states have it.
    pub(crate) fn reserve(&mut self, k: usize) -> Result<usize, AllocError>
        requires { k < 2 ^ 32 }
        ensures same { self.new.events ≡ self.old.events }
        ensures ok { IfOk result (λ room. (room ≡ self.new.room)
            × (k ≤ room) × (k ≤ self.new.bodies) × (k ≤ self.new.states)) }
        ensures succeeds { k ≤ self.old.room → k ≤ self.old.bodies → k ≤ self.old.states
            → IsOk result }
        ensures room { self.old.room ≤ self.new.room }
        ensures bodies { self.old.bodies ≤ self.new.bodies }
        ensures states { self.old.states ≤ self.new.states }
    {
        self.events.reserve(k)?;
        self.bodies.reserve(k * MOST_BODY)?;
        self.states.reserve(k)?;
        Ok(self.events.capacity() - self.events.len())
    }

    /// For how many further bodies and states there is room, whatever they are.
    pub(crate) fn room_beside(&self) -> usize
        ensures { result ≡ min self.now.bodies self.now.states }
    {
        let states = self.states.capacity() - self.states.len();
        states.min((self.bodies.capacity() - self.bodies.len()) / MOST_BODY)
    }

    /// Adds a send at the end, in room that was made for it: its body goes after the others. Tells
    /// whether a further body has room.
    pub(crate) fn append_send(&mut self, to: ProcId, inc: u16, body: &[u8]) -> bool
        requires room { 0 < self.old.room }
        requires bodies { 0 < self.old.bodies }
        requires few { length self.old.events < MOST_EVENTS }
        requires short { length body.now ≤ MOST_BODY }
        ensures events { self.new.events ≡ self.old.events ++ Send to inc body.now ∷ [] }
        ensures room { self.old.room ≤ self.new.room + 1 }
        ensures bodies { self.old.bodies ≤ self.new.bodies + 1 }
        ensures states { self.new.states ≡ self.old.states }
        ensures further { IsTrue result ↔ (0 < self.new.bodies) }
    {
        let kept = KeptEvent::Send {
            to,
            start: self.bodies.len() as u32,
            inc,
            len: body.len() as u8,
        };
        self.bodies.extend_from_slice(body).unwrap();
        self.events.push_reserved(kept);
        self.bodies.capacity() - self.bodies.len() >= MOST_BODY
    }

    /// Adds the receipt of a message at the end, in room that was made for it.
    pub(crate) fn append_receipt(&mut self, message: &MsgName)
        requires room { 0 < self.old.room }
        ensures events { self.new.events ≡ self.old.events ++ Recv message.now ∷ [] }
        ensures room { self.old.room ≤ self.new.room + 1 }
        ensures bodies { self.new.bodies ≡ self.old.bodies }
        ensures states { self.new.states ≡ self.old.states }
    {
        self.events
            .push_reserved(KeptEvent::Recv { message: *message });
    }

    /// Adds a check at the end, in room that was made for it: the bytes of a small state go after
    /// the others, and a large state after the large ones.
    pub(crate) fn append_check(&mut self, state: State, round: Option<u32>)
        requires room { 0 < self.old.room }
        requires bodies { 0 < self.old.bodies }
        requires states { 0 < self.old.states }
        requires few { length self.old.events < MOST_EVENTS }
        ensures events { self.new.events ≡ self.old.events ++ Check state round ∷ [] }
        ensures room { self.old.room ≤ self.new.room + 1 }
        ensures bodies { self.old.bodies ≤ self.new.bodies + 1 }
        ensures states { self.old.states ≤ self.new.states + 1 }
    {
        let small = state.bytes();
        if small.len() <= MOST_BODY {
            let kept = KeptEvent::Check {
                start: self.bodies.len() as u32,
                round: round.unwrap_or(0),
                len: small.len() as u8,
                of_round: round.is_some(),
            };
            self.bodies.extend_from_slice(small).unwrap();
            self.events.push_reserved(kept);
        } else {
            let before = self.states.len() as u32;
            self.events
                .push_reserved(KeptEvent::LargeCheck { before, round });
            self.states.push_reserved(state);
        }
    }

    /// Adds the receipt of a marker at the end, in room that was made for it.
    pub(crate) fn append_mark(&mut self, from: ProcId, round: u32)
        requires room { 0 < self.old.room }
        ensures events { self.new.events ≡ self.old.events ++ Mark from round ∷ [] }
        ensures room { self.old.room ≤ self.new.room + 1 }
        ensures bodies { self.new.bodies ≡ self.old.bodies }
        ensures states { self.new.states ≡ self.old.states }
    {
        self.events.push_reserved(KeptEvent::Mark { from, round });
    }

    /// Lets go of all but the first `end` events. Of those that go it looks only for the first with
    /// bytes, and for the first with a large state where there is one: there begins what goes.
    pub(crate) fn truncate(&mut self, end: usize)
        ensures events { self.new.events ≡ take end self.old.events }
        ensures room { self.old.room ≤ self.new.room }
        ensures bodies { self.old.bodies ≤ self.new.bodies }
        ensures states { self.old.states ≤ self.new.states }
    {
        if end >= self.events.len() {
            return;
        }
        let gone = &self.events[end..];
        let bytes = bytes_before(gone, self.bodies.len());
        let states = states_before(gone, self.states.len());
        self.bodies.truncate(bytes);
        self.states.truncate(states);
        self.events.truncate(end);
    }

    /// Takes marks out and the rounds off checks, where a restart leaves the first `settled` events
    /// as they are. It looks once at each of the others.
    pub(crate) fn settle(&mut self, settled: usize)
        requires within { settled ≤ length self.old.events }
        requires settled { All IsSettled (take settled self.old.events) }
        ensures events { self.new.events ≡ filter_map restarted_event self.old.events }
        ensures room { self.old.room ≤ self.new.room }
        ensures bodies { self.new.bodies ≡ self.old.bodies }
        ensures states { self.new.states ≡ self.old.states }
    {
        restart_events(&mut self.events, settled);
    }
}

/// Events of a tape, in their order.
#[derive(Drop)]
pub struct Events<'a> {
    events: &'a [KeptEvent],
    bodies: &'a [u8],
    states: &'a [State],
}

impl<'a> Model for Events<'a> {
    ghost use Rattle.std.specs.Prelude.{All, List, length, map};
    ghost use Rattle.line_tape.specs.declared.events.Event.{Event};
    ghost use Rattle.line_tape.specs.Laid.{event_from_kept, IsKeptWithin};

    ghost Value = { List Event };

    ghost view = { λ s. map (event_from_kept s.bodies.now s.states.now) s.events.now };

    ghost invariant = { λ s. All
        (IsKeptWithin (length s.bodies.now) (length s.states.now)) s.events.now };
}

impl<'a> Events<'a> {
    /// How many they are.
    pub fn len(&self) -> usize
        ensures { result ≡ length self.now }
    {
        self.events.len()
    }

    /// Whether there is none.
    pub fn is_empty(&self) -> bool
        ensures { IsTrue result ↔ (self.now ≡ []) }
    {
        self.events.is_empty()
    }

    /// The one after `i` others.
    pub fn at(&self, i: usize) -> EventRef<'a>
        requires { i < length self.now }
        ensures { slice_get self.now i ≡ Some (event_of_ref result) }
    {
        let events = self.events;
        let bodies = self.bodies;
        let states = self.states;
        match &events[i] {
            KeptEvent::Send {
                to,
                start,
                inc,
                len,
            } => {
                let start = *start as usize;
                EventRef::Send {
                    to: *to,
                    inc: *inc,
                    body: &bodies[start..start + *len as usize],
                }
            }
            KeptEvent::Recv { message } => EventRef::Recv { message: *message },
            KeptEvent::Check {
                start,
                round,
                len,
                of_round,
            } => {
                let start = *start as usize;
                EventRef::Check {
                    state: &bodies[start..start + *len as usize],
                    round: if *of_round { Some(*round) } else { None },
                }
            }
            KeptEvent::LargeCheck { before, round } => EventRef::Check {
                state: states[*before as usize].bytes(),
                round: *round,
            },
            KeptEvent::Mark { from, round } => EventRef::Mark {
                from: *from,
                round: *round,
            },
        }
    }

    /// The first so many.
    #[tactic(auto, using(crate::proofs::LaidLemmas::events_of_first))]
    pub fn first(&self, end: usize) -> Events<'a>
        requires { end ≤ length self.now }
        ensures { result ≡ take end self.now }
    {
        let events = self.events;
        Events {
            events: &events[..end],
            bodies: self.bodies,
            states: self.states,
        }
    }

    /// Those after the first so many.
    #[tactic(auto, using(crate::proofs::LaidLemmas::events_behind))]
    pub fn behind(&self, start: usize) -> Events<'a>
        requires { start ≤ length self.now }
        ensures { result ≡ drop start self.now }
    {
        let events = self.events;
        Events {
            events: &events[start..],
            bodies: self.bodies,
            states: self.states,
        }
    }
}
