//! Events, and the states that checks store.
ghost use Rattle.std.specs.Prelude.{◌≡◌, ◌↔◌, IsTrue, IfOk, MatchOption, Some, None};
ghost use Rattle.line_tape.specs.Event.{is_check, state_of, HasLongState, IsShort, NamesBelow};
ghost use Rattle.line_tape.specs.Shown.{event_of_ref};

use line_names::{Body, MsgName, ProcId};
use std::alloc::{AllocError, Global};
use std::marker::Model;

/// The bytes that a check stores, to go on from.
#[derive(Debug, Drop)]
pub struct State {
    bytes: Vec<u8>,
}

impl Model for State {
    ghost use Rattle.std.specs.Prelude.{ℕ, List};

    ghost Value = { List ℕ };

    ghost view = { λ s. s.bytes.items };
}

impl State {
    /// The state of these bytes.
    ///
    /// It may be of any length; a tape takes at most `MOST_STATE` bytes.
    pub fn of(bytes: Vec<u8>) -> State
        ensures { result ≡ bytes.items }
    {
        State { bytes }
    }

    /// Its bytes.
    pub fn bytes(&self) -> &[u8]
        ensures { result.now ≡ self.now }
    {
        self.bytes.as_slice()
    }

    /// Its bytes, for the caller to keep.
    pub fn into_bytes(self) -> Vec<u8>
        ensures { result.items ≡ self }
    {
        self.bytes
    }

    /// The same bytes in memory of their own.
    pub fn copy(&self, alloc: Global) -> Result<State, AllocError>
        ensures { IfOk result (λ state. state ≡ self.now) }
    {
        let bytes = Vec::from_slice(alloc, self.bytes.as_slice())?;
        Ok(State { bytes })
    }
}

/// What happens at a process.
#[derive(Debug, Drop)]
pub enum Event {
    /// It sent a message to another process, under the incarnation that it had.
    Send { to: ProcId, inc: u16, body: Body },
    /// It received a message.
    Recv { message: MsgName },
    /// It took a check; one that belongs to a round carries the round's number.
    Check { state: State, round: Option<u32> },
    /// It received the marker of a round.
    Mark { from: ProcId, round: u32 },
}

impl Event {
    /// Whether each process that it names is below `n`.
    pub fn names_below(&self, n: u32) -> bool
        ensures { IsTrue result ↔ NamesBelow n self.now }
    {
        match self {
            Event::Send { to, .. } => to.get() < n,
            Event::Recv { message } => message.from.get() < n,
            Event::Check { .. } => true,
            Event::Mark { from, .. } => from.get() < n,
        }
    }

    /// What has no long state is short, since no body is too long.
    ///
    /// The call does nothing: its contract is the law.
    pub(crate) fn is_short_without_long_state(&self)
        requires { HasLongState self.now → ⊥ }
        ensures { IsShort self.now }
    {
        match self {
            Event::Send { body, .. } => {
                let _bytes = body.bytes();
            }
            Event::Recv { .. } => {}
            Event::Check { state, .. } => {
                let _bytes = state.bytes();
            }
            Event::Mark { .. } => {}
        }
    }

    /// The same event, its bytes lent.
    pub fn as_ref(&self) -> EventRef<'_>
        ensures { event_of_ref result ≡ self.now }
    {
        match self {
            Event::Send { to, inc, body } => EventRef::Send {
                to: *to,
                inc: *inc,
                body: body.bytes(),
            },
            Event::Recv { message } => EventRef::Recv { message: *message },
            Event::Check { state, round } => EventRef::Check {
                state: state.bytes(),
                round: *round,
            },
            Event::Mark { from, round } => EventRef::Mark {
                from: *from,
                round: *round,
            },
        }
    }
}

/// An event as its tape shows it, which keeps the bytes.
#[derive(Clone, Copy, Debug)]
pub enum EventRef<'a> {
    /// The process sent a message to another one, under the incarnation that it had.
    Send {
        to: ProcId,
        inc: u16,
        body: &'a [u8],
    },
    /// It received a message.
    Recv {
        message: MsgName,
    },
    /// It took a check; one that belongs to a round carries the round's number.
    Check {
        state: &'a [u8],
        round: Option<u32>,
    },
    /// It received the marker of a round.
    Mark {
        from: ProcId,
        round: u32,
    },
}

impl<'a> EventRef<'a> {
    /// Whether it is a check.
    pub(crate) fn is_check(&self) -> bool
        ensures { result ≡ is_check (event_of_ref self.now) }
    {
        match self {
            EventRef::Send { .. } => false,
            EventRef::Recv { .. } => false,
            EventRef::Check { .. } => true,
            EventRef::Mark { .. } => false,
        }
    }

    /// The bytes that it stores, where it is a check.
    pub fn state(&self) -> Option<&'a [u8]>
        ensures { MatchOption result (state_of (event_of_ref self.now) ≡ None)
            (λ bytes. state_of (event_of_ref self.now) ≡ Some bytes.now) }
    {
        match self {
            EventRef::Send { .. } => None,
            EventRef::Recv { .. } => None,
            EventRef::Check { state, .. } => Some(state),
            EventRef::Mark { .. } => None,
        }
    }

    /// The same event in memory of its own.
    #[inline(always)]
    pub fn to_event(&self, alloc: Global) -> Result<Event, AllocError>
        requires { IsShort (event_of_ref self.now) }
        ensures { IfOk result (λ event. event ≡ event_of_ref self.now) }
    {
        match self {
            EventRef::Send { to, inc, body } => Ok(Event::Send {
                to: *to,
                inc: *inc,
                body: Body::try_new(body).unwrap(),
            }),
            EventRef::Recv { message } => Ok(Event::Recv { message: *message }),
            EventRef::Check { state, round } => {
                let bytes = Vec::from_slice(alloc, state)?;
                Ok(Event::Check {
                    state: State::of(bytes),
                    round: *round,
                })
            }
            EventRef::Mark { from, round } => Ok(Event::Mark {
                from: *from,
                round: *round,
            }),
        }
    }
}
