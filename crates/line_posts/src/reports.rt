//! What a worker reports.
ghost use Rattle.std.specs.Prelude.{◌≡◌, ◌≤◌, ◌+◌, ◌∷◌, [], ◌++◌, ◌⊎◌, ℕ, List, IfOk, OnOk, OnErr};
ghost use Rattle.std.specs.Prelude.{length, take, drop};
ghost use Rattle.std.specs.List.{filter_map};
ghost use Rattle.std.specs.VecDeque.{deque_items};
ghost use Rattle.rtrb.specs.Ring.{known_free};
ghost use Rattle.line_tape.specs.Event.{state_of, IsShort};
ghost use Rattle.line_tape.specs.Shown.{event_of_ref};
ghost use Rattle.line_posts.specs.Ends.{producer_end, slots_of, with_items};
ghost use Rattle.line_posts.specs.Posts.{reported_count};
ghost use Rattle.line_posts.specs.Generations.{IsSamePost};
ghost use Rattle.line_posts.specs.Reports.{HasReported};

use crate::posts::Post;
use crate::refusals::ReportError;
use line_names::Body;
use line_tape::{Event, EventRef, State, Tape};
use rtrb::Producer;
use std::alloc::{AllocError, Global};
use std::collections::VecDeque;

/// What a call of `report` did.
#[derive(Clone, Copy, Debug, PartialEq, Eq)]
pub struct Reported {
    /// How many events this call put on the report line.
    pub sent: u32,
    /// How many events of the tape are not reported yet.
    pub left: u32,
}

/// Keeps a copy of the state that an event stores, where it is a check.
fn keep_state(
    alloc: Global,
    event: &EventRef<'_>,
    states: &mut VecDeque<State>,
) -> Result<(), AllocError>
    ensures { OnOk result (deque_items states.new
        ≡ deque_items states.old ++ filter_map state_of (event_of_ref event.now ∷ [])) }
{
    match event.state() {
        Some(bytes) => {
            let bytes = Vec::from_slice(alloc, bytes)?;
            states.push_back(State::of(bytes))?;
            Ok(())
        }
        None => Ok(()),
    }
}

/// Copies the states that `k` events of a tape store, from place `from` on. A report takes memory
/// for nothing else.
fn states_of(alloc: Global, tape: &Tape, from: u32, k: u32) -> Result<VecDeque<State>, AllocError>
    requires { from + k ≤ length tape.now.events }
    ensures { IfOk result (λ states.
        deque_items states ≡ filter_map state_of (take k (drop from tape.now.events))) }
{
    let _limits = tape.len();
    let mut states = VecDeque::new(alloc);
    for i in 0..k {
        keep_state(alloc, &tape.event(from + i), &mut states)?;
    }
    Ok(states)
}

/// An event that owns what it carries. If it is a check, it takes the first of the states.
fn event_of(event: &EventRef<'_>, states: &mut VecDeque<State>) -> Event
    requires short { IsShort (event_of_ref event.now) }
    requires state { (rest : List (List ℕ))
        × (deque_items states.old ≡ filter_map state_of (event_of_ref event.now ∷ []) ++ rest) }
    ensures value { result ≡ event_of_ref event.now }
    ensures rest { deque_items states.old
        ≡ filter_map state_of (event_of_ref event.now ∷ []) ++ deque_items states.new }
{
    match event {
        EventRef::Send { to, inc, body } => Event::Send {
            to: *to,
            inc: *inc,
            body: Body::try_new(body).unwrap(),
        },
        EventRef::Recv { message } => Event::Recv { message: *message },
        EventRef::Check { state: _, round } => Event::Check {
            state: states.pop_front().unwrap(),
            round: *round,
        },
        EventRef::Mark { from, round } => Event::Mark {
            from: *from,
            round: *round,
        },
    }
}

/// Puts `k` events of a tape, from place `from` on, on a report line that is known to have room for
/// them. `states` are copies of the states that the checks among them store.
fn put_each(line: &mut Producer<Event>, tape: &Tape, from: u32, k: u32, states: VecDeque<State>)
    requires within { from + k ≤ length tape.now.events }
    requires states { deque_items states
        ≡ filter_map state_of (take k (drop from tape.now.events)) }
    requires room { k ≤ known_free line.old }
    ensures { producer_end line.new
        ≡ with_items (producer_end line.old) (take k (drop from tape.now.events)) }
{
    let _limits = tape.len();
    let mut states = states;
    for i in 0..k {
        let event = event_of(&tape.event(from + i), &mut states);
        line.push_reserved(event);
    }
}

impl Post {
    /// Puts the events that the worker has not reported yet on its report line, as many as fit.
    ///
    /// It takes memory for the states of checks alone, and for all of these before it puts an event
    /// on the line.
    pub fn report(&mut self) -> Result<Reported, ReportError>
        ensures ok { IfOk result (λ r. HasReported self.old r.sent self.new) }
        ensures sent { IfOk result (λ r.
            reported_count self.new ≡ reported_count self.old + r.sent) }
        ensures left { IfOk result (λ r. reported_count self.new + r.left ≡ length self.new.tape) }
        ensures most { IfOk result (λ r. (r.left ≡ 0)
            ⊎ (slots_of self.new.line.ring ≤ length self.new.line.items)) }
        ensures err { OnErr result (self.new ≡ self.old) }
        ensures same { IsSamePost self.old self.new }
    {
        let left = self.journal.len() - self.reported;
        let room = self.line.slots();
        let k = room.min(left as usize) as u32;
        let tape = self.journal.tape();
        let states = states_of(self.alloc, tape, self.reported, k)?;
        put_each(&mut self.line, tape, self.reported, k, states);
        self.reported += k;
        Ok(Reported {
            sent: k,
            left: left - k,
        })
    }
}
