//! How a world delivers what is on a link.
ghost use Rattle.std.specs.Prelude.{◌≡◌, ◌≢◌, ◌<◌, Some, None, length, slice_get, IfOk, IfErr};
ghost use Rattle.std.specs.Prelude.{IsErrOf};
ghost use Rattle.line_tape.specs.declared.items.Item.TheVariants.{Message, Marker};
ghost use Rattle.line_tape.specs.Event.{Holds};
ghost use Rattle.line_tape.specs.Fit.{IsSentTo};
ghost use Rattle.line_tape.specs.History.{tape_at};
ghost use Rattle.line_rounds.specs.Flags.{AreFlagged};
ghost use Rattle.line_moves.specs.declared.fates.Fate.TheVariants.{Taken};
ghost use Rattle.line_tape.specs.declared.modes.Mode.TheVariants.{Fifo, Unordered};
ghost use Rattle.line_moves.specs.Fates.{fate_of, forced_round};
ghost use Rattle.line_world.specs.declared.replies.Answer.TheVariants.{Done, Refused};
ghost use Rattle.line_tape.specs.declared.steps.Step.TheVariants.{Deliver};
ghost use Rattle.line_world.specs.Delivered.{delivered_reply};
ghost use Rattle.line_world.specs.Machine.{items_on};
ghost use Rattle.line_world.specs.Refusals.{first_cause, link_causes, refusal_of};
ghost use Rattle.line_world.specs.Runs.{Takes};

use super::World;
use super::refusals::lacks_room;
use crate::protocols::Protocol;
use crate::replies::{Delivered, Reply, StepError};
use line_moves::{
    ArrivedMarker, Fate, TurnCheck, add_receipt, is_forced, list_completed, take_copy, take_marker,
    take_message, turn_round,
};
use line_names::{Choice, MsgName, ProcId};
use line_rounds::ReceivedSends;
use line_tape::{History, Item};
use std::alloc::Global;

/// A place on a link, which a delivery picks.
#[derive(Clone, Copy)]
struct LinkPlace {
    from: ProcId,
    to: ProcId,
    pick: u64,
}

/// What becomes of a copy that a delivery picks. Its sender's tape tells whether it is held, and
/// its flag whether it is received. It looks at no event and at no receipt.
fn fate_of(history: &History, received: &ReceivedSends, _to: ProcId, message: &MsgName) -> Fate
    requires from { message.now.from < length history.now.processes }
    requires flagged { AreFlagged history.now.processes received.now }
    requires to { Holds (tape_at history.now.processes message.now.from) message.now.inc
        message.now.number
        → IsSentTo history.now.processes _to message.now }
    ensures { result ≡ fate_of Unordered history.now.processes _to message.now }
{
    let sender = history.tape(message.from);
    if !sender.sent_before(Choice::Now, message.inc, message.number) {
        Fate::Stale
    } else if received.has(message) {
        Fate::Repeated
    } else {
        Fate::Taken
    }
}

impl World {
    /// Takes the message that is first on a link that keeps its order.
    fn take_first(
        &mut self,
        place: LinkPlace,
        _state: &[u8],
        message: &MsgName,
    ) -> Result<Delivered, StepError>
        requires passed { first_cause
            (link_causes self.old place.from place.to place.pick _state.now) ≡ None }
        requires picked { slice_get (items_on self.old place.from place.to) place.pick
            ≡ Some (Message message.now) }
        requires fifo { self.old.mode ≡ Fifo }
        ensures done { IfOk result
            (λ delivered. Takes self.old (Deliver place.from place.to place.pick _state.now)
            (Done (delivered_reply delivered)) self.new) }
        ensures refused { IfErr result (λ e. e ≢ StepError.OutOfMemory
            → Takes self.old (Deliver place.from place.to place.pick _state.now) (Refused e)
            self.new) }
        ensures memory { IsErrOf result StepError.OutOfMemory → self.new ≡ self.old }
        ensures unrefused { IsErrOf result StepError.OutOfMemory
            → refusal_of self.old (Deliver place.from place.to place.pick _state.now) ≡ None }
    {
        match &mut self.protocol {
            Protocol::Markers { running } => {
                if lacks_room(self.catalogue.history(), place.to, 1) {
                    return Err(StepError::TapeFull);
                }
                take_message(
                    &mut self.catalogue,
                    &mut self.links,
                    running,
                    place.from,
                    place.to,
                    message,
                )?;
                Ok(Delivered::Took {
                    message: *message,
                    forced: None,
                })
            }
            Protocol::Colours { .. } => unreachable!(),
        }
    }

    /// Takes a copy that forces no check.
    fn take_unforced(
        &mut self,
        place: LinkPlace,
        _state: &[u8],
        message: &MsgName,
    ) -> Result<Delivered, StepError>
        requires passed { first_cause
            (link_causes self.old place.from place.to place.pick _state.now) ≡ None }
        requires picked { slice_get (items_on self.old place.from place.to) place.pick
            ≡ Some (Message message.now) }
        requires unordered { self.old.mode ≡ Unordered }
        requires taken { fate_of Unordered self.old.history place.to message.now ≡ Taken }
        requires unforced { forced_round Unordered self.old.history place.to message.now ≡ None }
        ensures done { IfOk result
            (λ delivered. Takes self.old (Deliver place.from place.to place.pick _state.now)
            (Done (delivered_reply delivered)) self.new) }
        ensures refused { IfErr result (λ e. e ≢ StepError.OutOfMemory
            → Takes self.old (Deliver place.from place.to place.pick _state.now) (Refused e)
            self.new) }
        ensures memory { IsErrOf result StepError.OutOfMemory → self.new ≡ self.old }
        ensures unrefused { IsErrOf result StepError.OutOfMemory
            → refusal_of self.old (Deliver place.from place.to place.pick _state.now) ≡ None }
    {
        match &mut self.protocol {
            Protocol::Markers { .. } => unreachable!(),
            Protocol::Colours { received, .. } => {
                if lacks_room(self.catalogue.history(), place.to, 1) {
                    return Err(StepError::TapeFull);
                }
                take_copy(&mut self.catalogue, place.to, message)?;
                received.receive(message);
                Ok(Delivered::Took {
                    message: *message,
                    forced: None,
                })
            }
        }
    }

    /// Takes a copy whose process has to take its check of the open round first.
    fn take_forced(
        &mut self,
        alloc: Global,
        place: LinkPlace,
        state: &[u8],
        message: &MsgName,
        round: u32,
    ) -> Result<Delivered, StepError>
        requires passed { first_cause
            (link_causes self.old place.from place.to place.pick state.now) ≡ None }
        requires picked { slice_get (items_on self.old place.from place.to) place.pick
            ≡ Some (Message message.now) }
        requires unordered { self.old.mode ≡ Unordered }
        requires taken { fate_of Unordered self.old.history place.to message.now ≡ Taken }
        requires forced { forced_round Unordered self.old.history place.to message.now
            ≡ Some round }
        ensures done { IfOk result
            (λ delivered. Takes self.old (Deliver place.from place.to place.pick state.now)
            (Done (delivered_reply delivered)) self.new) }
        ensures refused { IfErr result (λ e. e ≢ StepError.OutOfMemory
            → Takes self.old (Deliver place.from place.to place.pick state.now) (Refused e)
            self.new) }
        ensures memory { IsErrOf result StepError.OutOfMemory → self.new ≡ self.old }
        ensures unrefused { IsErrOf result StepError.OutOfMemory
            → refusal_of self.old (Deliver place.from place.to place.pick state.now) ≡ None }
    {
        match &mut self.protocol {
            Protocol::Markers { .. } => unreachable!(),
            Protocol::Colours {
                turning,
                colours,
                received,
            } => {
                if lacks_room(self.catalogue.history(), place.to, 2) {
                    return Err(StepError::TapeFull);
                }
                let turn = TurnCheck {
                    at: place.to,
                    round: self.last_round,
                    state,
                    further: 1,
                };
                turn_round(
                    alloc,
                    &mut self.catalogue,
                    colours,
                    turning,
                    &mut self.rounds,
                    &turn,
                )?;
                add_receipt(&mut self.catalogue, place.to, message);
                received.receive(message);
                Ok(Delivered::Took {
                    message: *message,
                    forced: Some(round),
                })
            }
        }
    }

    /// Takes the message that stands at a place of a link, or finds its copy stale or repeated.
    fn deliver_message(
        &mut self,
        alloc: Global,
        place: LinkPlace,
        state: &[u8],
        message: &MsgName,
    ) -> Result<Delivered, StepError>
        requires passed { first_cause
            (link_causes self.old place.from place.to place.pick state.now) ≡ None }
        requires picked { slice_get (items_on self.old place.from place.to) place.pick
            ≡ Some (Message message.now) }
        ensures done { IfOk result
            (λ delivered. Takes self.old (Deliver place.from place.to place.pick state.now)
            (Done (delivered_reply delivered)) self.new) }
        ensures refused { IfErr result (λ e. e ≢ StepError.OutOfMemory
            → Takes self.old (Deliver place.from place.to place.pick state.now) (Refused e)
            self.new) }
        ensures memory { IsErrOf result StepError.OutOfMemory → self.new ≡ self.old }
        ensures unrefused { IsErrOf result StepError.OutOfMemory
            → refusal_of self.old (Deliver place.from place.to place.pick state.now) ≡ None }
    {
        let _n = self.catalogue.n();
        match &self.protocol {
            Protocol::Markers { .. } => self.take_first(place, state, message),
            Protocol::Colours {
                colours,
                received,
                ..
            } => match fate_of(self.catalogue.history(), received, place.to, message) {
                Fate::Stale => Ok(Delivered::Stale { message: *message }),
                Fate::Repeated => Ok(Delivered::Repeated { message: *message }),
                Fate::Taken => match colours.before_receive(place.to, message) {
                    None => self.take_unforced(place, state, message),
                    Some(round) => self.take_forced(alloc, place, state, message, round),
                },
            },
        }
    }

    /// Takes the marker that is first on a link. If the process has no check of its round yet, it
    /// takes that first.
    fn deliver_marker(
        &mut self,
        alloc: Global,
        place: LinkPlace,
        state: &[u8],
        round: u32,
    ) -> Result<Delivered, StepError>
        requires passed { first_cause
            (link_causes self.old place.from place.to place.pick state.now) ≡ None }
        requires picked { slice_get (items_on self.old place.from place.to) place.pick
            ≡ Some (Marker round) }
        ensures done { IfOk result
            (λ delivered. Takes self.old (Deliver place.from place.to place.pick state.now)
            (Done (delivered_reply delivered)) self.new) }
        ensures refused { IfErr result (λ e. e ≢ StepError.OutOfMemory
            → Takes self.old (Deliver place.from place.to place.pick state.now) (Refused e)
            self.new) }
        ensures memory { IsErrOf result StepError.OutOfMemory → self.new ≡ self.old }
        ensures unrefused { IsErrOf result StepError.OutOfMemory
            → refusal_of self.old (Deliver place.from place.to place.pick state.now) ≡ None }
    {
        match &mut self.protocol {
            Protocol::Markers { running } => {
                let forced = is_forced(
                    running,
                    self.catalogue.history(),
                    place.from,
                    place.to,
                    round,
                );
                let events = if forced { 2 } else { 1 };
                if lacks_room(self.catalogue.history(), place.to, events) {
                    return Err(StepError::TapeFull);
                }
                self.rounds.reserve()?;
                let marker = ArrivedMarker {
                    from: place.from,
                    to: place.to,
                    round,
                    forced,
                };
                take_marker(
                    alloc,
                    &mut self.catalogue,
                    &mut self.links,
                    running,
                    &marker,
                    state,
                )?;
                let history = self.catalogue.history();
                list_completed(alloc, running, history, &mut self.rounds);
                Ok(Delivered::Marked { round, forced })
            }
            // Links without an order hold no markers.
            Protocol::Colours { .. } => unreachable!(),
        }
    }

    /// Takes or looks at the item that is picked.
    pub(super) fn deliver(
        &mut self,
        alloc: Global,
        from: ProcId,
        to: ProcId,
        pick: u64,
        state: &[u8],
    ) -> Result<Reply, StepError>
        ensures done { IfOk result
            (λ reply. Takes self.old (Deliver from to pick state.now) (Done reply) self.new) }
        ensures refused { IfErr result (λ e. e ≢ StepError.OutOfMemory
            → Takes self.old (Deliver from to pick state.now) (Refused e) self.new) }
        ensures memory { IsErrOf result StepError.OutOfMemory → self.new ≡ self.old }
        ensures unrefused { IsErrOf result StepError.OutOfMemory
            → refusal_of self.old (Deliver from to pick state.now) ≡ None }
    {
        if let Some(e) = self.link_refusal(from, to, pick, state) {
            return Err(e);
        }
        let _n = self.catalogue.n();
        let place = LinkPlace { from, to, pick };
        match self.links.item(place.from, place.to, place.pick as usize) {
            Some(Item::Message(message)) => {
                let delivered = self.deliver_message(alloc, place, state, &message)?;
                Ok(delivered.reply())
            }
            Some(Item::Marker(round)) => {
                let delivered = self.deliver_marker(alloc, place, state, round)?;
                Ok(delivered.reply())
            }
            None => unreachable!(),
        }
    }
}
