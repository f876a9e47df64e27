//! What a worker takes: messages and markers.
ghost use Rattle.std.specs.Prelude.{◌≡◌, ◌≢◌, ◌<◌, ◌≤◌, ◌∷◌, ◌++◌, ℕ, List, [], IfOk, IfErr, OnOk};
ghost use Rattle.std.specs.Prelude.{OnErr, MatchOption, length};
ghost use mathlib.Core.List.{IsPrefix};
ghost use Rattle.line_tape.specs.History.{Process};
ghost use Rattle.line_tape.specs.declared.events.Event.{Event};
ghost use Rattle.line_posts.specs.Ends.{End, StillKnow, in_ends, items_at, known_at, known_rows};
ghost use Rattle.line_posts.specs.Ends.{out_ends, row_at, with_item};
ghost use Rattle.line_posts.specs.Journals.{IsSameJournal};
ghost use Rattle.line_posts.specs.Parcels.{packet_name};
ghost use Rattle.line_posts.specs.Posts.{PostView, post_of};
ghost use Rattle.line_posts.specs.Receipts.{BeginsWithMarker, BeginsWithMessage, HasReceived};
ghost use Rattle.line_posts.specs.Receipts.{HasOnlySeen, StillSees};
ghost use Rattle.line_posts.specs.Generations.{IsSamePost};
ghost use Rattle.line_posts.specs.Refusals.{IsNotReceived, MayReceive};
ghost use Rattle.line_posts.specs.declared.parcels.Packet.{Packet};
ghost use Rattle.line_posts.specs.declared.parcels.Parcel.{Parcel};
ghost use Rattle.line_posts.specs.declared.parcels.Parcel.TheVariants.{Message};
ghost use Rattle.line_posts.specs.declared.receiving.Received.TheVariants.{Message as TookMessage};

use crate::ends::{front_at, look_at, take_at};
use crate::journals::Journal;
use crate::markers::{push_markers, take_known_marker};
use crate::parcels::{Packet, Parcel};
use crate::posts::{Post, message_name};
use crate::queues::{first_kept, keeps, take_kept};
use crate::refusals::ReceiveWhy;
use crate::rooms::has_room;
use line_names::{Body, MsgName, ProcId};
use line_tape::{MOST_EVENTS, MOST_STATE, State};
use rtrb::{Consumer, Producer};
use std::snapshot::Snapshot;

/// What a worker received.
#[derive(Debug, Drop)]
pub enum Received {
    /// A message: its name and its body.
    Message { name: MsgName, body: Body },
    /// The marker of a round, and whether it forced the check of that round.
    Marked { round: u32, forced: bool },
}

/// The round of the known item that is first, if it is a marker.
fn round_first(ins: &Vec<Consumer<Parcel>>, p: usize) -> Option<u32>
    requires within { p < length ins.now.items }
    requires known { 0 < length (known_at ins.now.items p) }
    ensures { MatchOption result (BeginsWithMessage (known_at ins.now.items p))
        (λ r. BeginsWithMarker r (known_at ins.now.items p)) }
{
    match front_at(ins, p) {
        Parcel::Message { .. } => None,
        Parcel::Marker { round } => Some(*round),
    }
}

/// The name of the known item that is first, a message from a process.
fn name_first(ins: &Vec<Consumer<Parcel>>, p: usize, from: ProcId) -> MsgName
    requires within { p < length ins.now.items }
    requires first { BeginsWithMessage (known_at ins.now.items p) }
    ensures { (packet : Packet) × (rest : List Parcel)
        × (known_at ins.now.items p ≡ Message packet ∷ rest) × (result ≡ packet_name from packet) }
{
    match front_at(ins, p) {
        Parcel::Message { packet } => message_name(from, packet.inc, packet.number),
        Parcel::Marker { .. } => unreachable!(),
    }
}

/// Takes the known item that is first, a message.
fn take_packet(ins: &mut Vec<Consumer<Parcel>>, p: usize) -> Packet
    requires within { p < length ins.old.items }
    requires first { BeginsWithMessage (known_at ins.old.items p) }
    ensures ends { in_ends ins.new.items ≡ with_item (in_ends ins.old.items) p (Message result) }
    ensures first { known_at ins.old.items p ≡ Message result ∷ known_at ins.new.items p }
    ensures others { (k : ℕ) → k ≢ p → known_at ins.new.items k ≡ known_at ins.old.items k }
{
    match take_at(ins, p) {
        Parcel::Message { packet } => packet,
        Parcel::Marker { .. } => unreachable!(),
    }
}

/// The name and the body of a packet from a process.
fn opened(from: ProcId, packet: Packet) -> Received
    ensures { result ≡ TookMessage (packet_name from packet) packet.body }
{
    let name = message_name(from, packet.inc, packet.number);
    Received::Message {
        name,
        body: packet.body,
    }
}

/// Takes what comes next on the ring from another process, of which no replay is kept. Its
/// arguments are the parts of the worker that it changes. A refusal changes none of them, but more
/// of the ring may have been seen.
fn take_next(
    me: ProcId,
    journal: &mut Journal,
    outs: &mut Vec<Producer<Parcel>>,
    ins: &mut Vec<Consumer<Parcel>>,
    from: ProcId,
    state: State,
) -> Result<Received, ReceiveWhy>
    requires me { journal.old.me ≡ me }
    requires within { from < length ins.old.items }
    requires process { from < journal.old.n }
    requires other { from ≢ me }
    requires short { length state ≤ MOST_STATE }
    ensures same { IsSameJournal journal.old journal.new }
    ensures ok { (opening : List Process) (kept : List (List Packet)) (seen : List (List Parcel))
        (line : End Event) → length opening ≡ journal.old.n → row_at kept from ≡ []
        → IfOk result (λ r. HasReceived (post_of me opening journal.old.tape kept
        (out_ends outs.old.items) (in_ends ins.old.items) seen line journal.old.floor
        journal.old.rounds) from state r (post_of me opening journal.new.tape kept
        (out_ends outs.new.items) (in_ends ins.new.items) (known_rows ins.new.items) line
        journal.new.floor journal.new.rounds)) }
    ensures err { OnErr result ((journal.new.tape ≡ journal.old.tape)
        × (journal.new.rounds ≡ journal.old.rounds)
        × (out_ends outs.new.items ≡ out_ends outs.old.items)
        × (in_ends ins.new.items ≡ in_ends ins.old.items)) }
    ensures seen { (rows : List (List Parcel)) → StillKnow rows ins.old.items → (k : ℕ)
        → (popped : List Parcel)
        × (items_at (in_ends ins.new.items) k ≡ items_at (in_ends ins.old.items) k ++ popped)
        × IsPrefix (row_at rows k) (popped ++ row_at (known_rows ins.new.items) k) }
    ensures why { (post : PostView) → post.tape ≡ journal.old.tape
        → post.outs ≡ out_ends outs.old.items → MayReceive post from state
        → row_at post.kept from ≡ [] → IfErr result (λ e.
        IsNotReceived post (row_at (known_rows ins.new.items) from) from state e) }
{
    let p = from.get() as usize;
    if !look_at(ins, p) {
        return Err(ReceiveWhy::NothingThere);
    }
    let Some(round) = round_first(ins, p) else {
        if journal.len() as usize >= MOST_EVENTS {
            return Err(ReceiveWhy::TapeFull);
        }
        let name = name_first(ins, p, from);
        if journal.receive(name).is_err() {
            return Err(ReceiveWhy::OutOfMemory);
        }
        let packet = take_packet(ins, p);
        return Ok(opened(from, packet));
    };
    if journal.is_checked(from, round) {
        if journal.len() as usize >= MOST_EVENTS {
            return Err(ReceiveWhy::TapeFull);
        }
        if journal.reserve(1).is_err() {
            return Err(ReceiveWhy::OutOfMemory);
        }
        take_known_marker(ins, p, round);
        journal.mark(from, round);
        return Ok(Received::Marked {
            round,
            forced: false,
        });
    }
    if journal.len() as usize + 1 >= MOST_EVENTS {
        return Err(ReceiveWhy::TapeFull);
    }
    if !has_room(outs) {
        return Err(ReceiveWhy::RingFull);
    }
    if journal.reserve(2).is_err() {
        return Err(ReceiveWhy::OutOfMemory);
    }
    push_markers(outs, me.get() as usize, round);
    take_known_marker(ins, p, round);
    journal.force(from, state, round);
    Ok(Received::Marked {
        round,
        forced: true,
    })
}

impl Post {
    /// Takes the first of the replays that the worker keeps of another process.
    fn receive_replay(&mut self, from: ProcId) -> Result<Received, ReceiveWhy>
        requires within { from < length self.old.opening }
        requires other { from ≢ self.old.number }
        requires kept { 0 < length (row_at self.old.kept from) }
        ensures ok { IfOk result (λ r. (state : List ℕ)
            → HasReceived self.old from state r self.new) }
        ensures err { OnErr result (self.new ≡ self.old) }
        ensures seen { StillSees self.old self.new }
        ensures why { IfErr result (λ e. (state : List ℕ) → MayReceive self.old from state
            → (shown : List Parcel) → IsNotReceived self.old shown from state e) }
    {
        if self.journal.len() as usize >= MOST_EVENTS {
            return Err(ReceiveWhy::TapeFull);
        }
        let p = from.get() as usize;
        let first = first_kept(&self.kept, p);
        let name = message_name(from, first.inc, first.number);
        if self.journal.receive(name).is_err() {
            return Err(ReceiveWhy::OutOfMemory);
        }
        let packet = take_kept(&mut self.kept, p);
        Ok(opened(from, packet))
    }

    /// Takes what comes next on the ring from another process.
    fn receive_next(&mut self, from: ProcId, state: State) -> Result<Received, ReceiveWhy>
        requires within { from < length self.old.opening }
        requires other { from ≢ self.old.number }
        requires short { length state ≤ MOST_STATE }
        requires bare { row_at self.old.kept from ≡ [] }
        ensures ok { IfOk result (λ r. HasReceived self.old from state r self.new) }
        ensures err { OnErr result (HasOnlySeen self.old self.new) }
        ensures seen { StillSees self.old self.new }
        ensures why { IfErr result (λ e.
            IsNotReceived self.old (row_at self.new.seen from) from state e) }
    {
        let taken = take_next(
            self.me,
            &mut self.journal,
            &mut self.outs,
            &mut self.ins,
            from,
            state,
        );
        self.shown = Snapshot::of(&self.ins);
        taken
    }

    /// Takes what comes next from another process: first the replays that the worker keeps of it,
    /// and then what is on the ring.
    ///
    /// A message is answered with its name and body, and the tape has its Recv. A marker of a round
    /// (Chandy and Lamport, 1985) puts its Mark on the tape; where the tape has no check of that
    /// round, a check with this state goes before it, and a marker on the ring to each other
    /// process. That needs a free slot on each of these; without one the marker stays in front.
    pub fn receive(&mut self, from: ProcId, state: State) -> Result<Received, ReceiveWhy>
        ensures ok { IfOk result (λ r. HasReceived self.old from state r self.new) }
        ensures err { OnErr result (HasOnlySeen self.old self.new) }
        ensures same { IsSamePost self.old self.new }
        ensures seen { StillSees self.old self.new }

        // The refusals, in their order.
        ensures may { OnOk result (MayReceive self.old from state) }
        ensures why { IfErr result (λ e.
            IsNotReceived self.old (row_at self.new.seen from) from state e) }
    {
        if from.get() as usize >= self.outs.len() {
            return Err(ReceiveWhy::NoSuchProcess);
        }
        if from.get() == self.me.get() {
            return Err(ReceiveWhy::ToSelf);
        }
        if state.bytes().len() > MOST_STATE {
            return Err(ReceiveWhy::StateTooLong);
        }
        if keeps(&self.kept, from.get() as usize) {
            return self.receive_replay(from);
        }
        self.receive_next(from, state)
    }
}
