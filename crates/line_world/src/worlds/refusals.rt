//! What refuses a step of a world.
ghost use Rattle.std.specs.Prelude.{◌≡◌, ◌≢◌, ◌<◌, ◌≤◌, ◌+◌, length, nat_lt};
ghost use Rattle.line_tape.specs.History.{tape_at};
ghost use Rattle.line_tape.specs.declared.modes.Mode.TheVariants.{Unordered};
ghost use Rattle.line_tape.specs.declared.steps.Step.TheVariants.{Begin, Turn};
ghost use Rattle.line_world.specs.Machine.{is_open, items_on};
ghost use Rattle.line_world.specs.Refusals.{first_cause, is_bad_pick, link_causes, may_turn};
ghost use Rattle.line_world.specs.Refusals.{refusal_of};

use super::World;
use crate::protocols::Protocol;
use crate::replies::StepError;
use line_names::ProcId;
use line_tape::{History, LAST_ROUND, MOST_EVENTS, MOST_STATE};

/// Whether the tape of a process has no room for so many more events.
pub(super) fn lacks_room(history: &History, p: ProcId, events: usize) -> bool
    requires process { p < length history.now.processes }
    requires few { events ≤ MOST_EVENTS }
    ensures { result ≡ nat_lt MOST_EVENTS (length (tape_at history.now.processes p) + events) }
{
    history.tape(p).len() as usize > MOST_EVENTS - events
}

impl World {
    /// Whether the link between two processes has nothing to take at a place.
    fn is_bad_pick(&self, from: ProcId, to: ProcId, pick: u64) -> bool
        requires from { from < length self.now.history }
        requires to { to < length self.now.history }
        requires other { from ≢ to }
        ensures { result ≡ is_bad_pick self.now.mode (items_on self.now from to) pick }
    {
        match &self.protocol {
            Protocol::Markers { .. } => pick != 0,
            Protocol::Colours { .. } => pick >= self.links.len(from, to) as u64,
        }
    }

    /// Why a process may not take or look at that item of a link now, whatever the item is.
    pub(super) fn link_refusal(
        &self,
        from: ProcId,
        to: ProcId,
        pick: u64,
        state: &[u8],
    ) -> Option<StepError>
        ensures { result ≡ first_cause (link_causes self.now from to pick state.now) }
    {
        let n = self.catalogue.n();
        if from.get() >= n || to.get() >= n {
            return Some(StepError::NoSuchProcess);
        }
        if from == to {
            return Some(StepError::ToSelf);
        }
        if state.len() > MOST_STATE {
            return Some(StepError::StateTooLong);
        }
        if self.link_len(from, to) == 0 {
            return Some(StepError::LinkEmpty);
        }
        if self.is_bad_pick(from, to, pick) {
            return Some(StepError::BadPick);
        }
        None
    }

    /// Whether a round is open: the last one begun is on a tape and not completed.
    pub fn is_open(&self) -> bool
        ensures { result ≡ is_open self.now }
    {
        match &self.protocol {
            Protocol::Markers { running } => running.is_some(),
            Protocol::Colours { turning, .. } => turning.is_some(),
        }
    }

    /// Why a process may not begin a round now.
    pub(super) fn begin_refusal(&self, at: ProcId, state: &[u8]) -> Option<StepError>
        ensures { result ≡ refusal_of self.now (Begin at state.now) }
    {
        if at.get() >= self.catalogue.n() {
            return Some(StepError::NoSuchProcess);
        }
        if state.len() > MOST_STATE {
            return Some(StepError::StateTooLong);
        }
        if self.is_open() {
            return Some(StepError::RoundOpen);
        }
        if self.last_round >= LAST_ROUND {
            return Some(StepError::NoMoreRounds);
        }
        if lacks_room(self.catalogue.history(), at, 1) {
            return Some(StepError::TapeFull);
        }
        None
    }

    /// Whether a round of colours is open of which a process has no check yet.
    fn may_turn(&self, at: ProcId) -> bool
        requires at { at < length self.now.history }
        requires mode { self.now.mode ≡ Unordered }
        ensures { result ≡ may_turn self.now at }
    {
        match &self.protocol {
            Protocol::Markers { .. } => false,
            Protocol::Colours { turning, .. } => match turning {
                Some(round) => !round.has_check(at),
                None => false,
            },
        }
    }

    /// Why a process may not turn to a round now.
    pub(super) fn turn_refusal(&self, at: ProcId, state: &[u8]) -> Option<StepError>
        ensures { result ≡ refusal_of self.now (Turn at state.now) }
    {
        if at.get() >= self.catalogue.n() {
            return Some(StepError::NoSuchProcess);
        }
        let Protocol::Colours { .. } = &self.protocol else {
            return Some(StepError::WrongMode);
        };
        if state.len() > MOST_STATE {
            return Some(StepError::StateTooLong);
        }
        if !self.may_turn(at) {
            return Some(StepError::NothingToTurn);
        }
        if lacks_room(self.catalogue.history(), at, 1) {
            return Some(StepError::TapeFull);
        }
        None
    }
}
