//! A worker's own side of its links: its tape, and the ends of the rings to each other worker.
ghost use Rattle.std.specs.Prelude.{◌≡◌, ◌≢◌, ◌<◌, ◌≤◌, ◌+◌, ◌↔◌, IfOk, IfErr, IsErrOf};
ghost use Rattle.std.specs.Prelude.{length, map, OnOk, OnErr};
ghost use Rattle.std.specs.VecDeque.{deque_items};
ghost use Rattle.line_tape.specs.Event.{checks};
ghost use Rattle.line_tape.specs.Fit.{IsFitFifo};
ghost use Rattle.line_tape.specs.History.{IsTape};
ghost use Rattle.line_posts.specs.Ends.{free_at, out_ends, in_ends, known_rows, producer_end};
ghost use Rattle.line_posts.specs.Journals.{IsSameJournal};
ghost use Rattle.line_posts.specs.Posts.{checked_alone, incarnation_of_post, next_message_name};
ghost use Rattle.line_posts.specs.Posts.{post_of};
ghost use Rattle.line_posts.specs.Posts.{reported_count, sent_by, IsPost};
ghost use Rattle.line_posts.specs.Posts.{PostView};
ghost use Rattle.line_posts.specs.Refusals.{IsNotSent, MaySend};
ghost use Rattle.line_posts.specs.Generations.{IsSamePost};
ghost use Rattle.line_posts.specs.Openings.{IsOpening};

use crate::journals::Journal;
use crate::parcels::{Packet, Parcel};
use crate::refusals::{SendRefused, SendWhy};
use crate::rooms::{has_slot, push_known};
use line_names::{Body, MsgName, ProcId};
use line_tape::{Event, History, MOST_EVENTS, MOST_STATE, State, Tape, TapeError};
use rtrb::{Consumer, Producer};
use std::alloc::Global;
use std::collections::VecDeque;
use std::marker::Model;
use std::snapshot::Snapshot;

/// A worker: its number, its tape with what it has recorded of rounds, the messages in transit that
/// it still keeps from the opening of its generation, its ends of the rings by process, and its end
/// of the report line.
///
/// It belongs to one thread at a time; no call waits. A call costs the same however much was done
/// before, and where markers go out, a push for each process.
#[derive(Drop)]
pub struct Post {
    pub(crate) alloc: Global,
    pub(crate) me: ProcId,
    pub(crate) incarnation: u16,
    pub(crate) opening: Snapshot<History>,
    pub(crate) journal: Journal,
    pub(crate) kept: Vec<VecDeque<Packet>>,
    pub(crate) outs: Vec<Producer<Parcel>>,
    pub(crate) ins: Vec<Consumer<Parcel>>,
    pub(crate) shown: Snapshot<Vec<Consumer<Parcel>>>,
    pub(crate) line: Producer<Event>,
    pub(crate) reported: u32,
}

impl Model for Post {
    ghost use Rattle.std.specs.Prelude.{◌≡◌, ◌+◌, length, map};
    ghost use Rattle.std.specs.VecDeque.{deque_items};
    ghost use Rattle.line_tape.specs.History.{tape_at, incarnation_at};
    ghost use Rattle.line_posts.specs.Ends.{out_ends, in_ends, known_rows, producer_end, StillKnow};
    ghost use Rattle.line_posts.specs.Posts.{post_of, IsPost, PostView};

    ghost Value = { PostView };

    ghost view = { λ s. post_of s.me s.opening.value.processes s.journal.tape
        (map deque_items s.kept.items) (out_ends s.outs.items) (in_ends s.ins.items)
        (known_rows s.shown.value.items) (producer_end s.line) s.journal.floor
        s.journal.rounds };

    ghost invariant = { λ s. IsPost (post_of s.me s.opening.value.processes s.journal.tape
        (map deque_items s.kept.items) (out_ends s.outs.items) (in_ends s.ins.items)
        (known_rows s.shown.value.items) (producer_end s.line) s.journal.floor s.journal.rounds)
        × (s.incarnation ≡ incarnation_at s.opening.value.processes s.me)
        × (s.reported ≡ length (tape_at s.opening.value.processes s.me)
        + length (producer_end s.line).items)
        × (s.journal.n ≡ length s.opening.value.processes)
        × (s.journal.me ≡ s.me)
        × StillKnow (known_rows s.shown.value.items) s.ins.items };
}

/// The name of a message.
pub(crate) fn message_name(from: ProcId, inc: u16, number: u32) -> MsgName
    ensures { result ≡ record { from = from; inc = inc; number = number } }
{
    MsgName { from, inc, number }
}

/// Tests whether a worker can send a message to another process now, and makes room for it on the
/// worker's tape. Where it can, the ring to that process has a free slot.
fn make_way(
    me: ProcId,
    journal: &mut Journal,
    outs: &mut Vec<Producer<Parcel>>,
    to: ProcId,
) -> Result<(), SendWhy>
    ensures tape { journal.new.tape ≡ journal.old.tape }
    ensures rounds { journal.new.rounds ≡ journal.old.rounds }
    ensures same { IsSameJournal journal.old journal.new }
    ensures ends { out_ends outs.new.items ≡ out_ends outs.old.items }
    ensures long { length outs.new.items ≡ length outs.old.items }

    // What a send needs.
    ensures process { OnOk result (to < length outs.old.items) }
    ensures other { OnOk result (to ≢ me) }
    ensures few { OnOk result (length journal.old.tape < MOST_EVENTS) }
    ensures room { OnOk result (0 < journal.new.room) }
    ensures slot { OnOk result (0 < free_at outs.new.items to) }

    // The refusals, in their order.
    ensures why { IfErr result (λ e. (post : PostView) → length post.opening ≡ length outs.old.items
        → post.number ≡ me → post.tape ≡ journal.old.tape → post.outs ≡ out_ends outs.old.items
        → IsNotSent post to e) }
{
    if to.get() as usize >= outs.len() {
        return Err(SendWhy::NoSuchProcess);
    }
    if to.get() == me.get() {
        return Err(SendWhy::ToSelf);
    }
    if journal.len() as usize >= MOST_EVENTS {
        return Err(SendWhy::TapeFull);
    }
    if journal.reserve_events(1).is_err() {
        return Err(SendWhy::OutOfMemory);
    }
    if !has_slot(outs, to.get() as usize) {
        return Err(SendWhy::RingFull);
    }
    Ok(())
}

/// The ends that a worker holds: of the rings to each process and from each, and of its report
/// line.
#[derive(Drop)]
pub(crate) struct PostEnds {
    pub(crate) outs: Vec<Producer<Parcel>>,
    pub(crate) ins: Vec<Consumer<Parcel>>,
    pub(crate) line: Producer<Event>,
}

/// A worker at the opening of a generation.
pub(crate) fn open_post(
    alloc: Global,
    me: ProcId,
    history: &History,
    journal: Journal,
    kept: Vec<VecDeque<Packet>>,
    ends: PostEnds,
) -> Post
    requires opening { IsOpening (post_of me history.now.processes journal.tape
        (map deque_items kept.items) (out_ends ends.outs.items) (in_ends ends.ins.items)
        (known_rows ends.ins.items) (producer_end ends.line) journal.floor journal.rounds) }
    requires fit { IsFitFifo history.now.processes }
    requires count { journal.n ≡ length history.now.processes }
    requires me { journal.me ≡ me }
    ensures { result ≡ post_of me history.now.processes journal.tape (map deque_items kept.items)
        (out_ends ends.outs.items) (in_ends ends.ins.items) (known_rows ends.ins.items)
        (producer_end ends.line) journal.floor journal.rounds }
{
    let PostEnds { outs, ins, line } = ends;
    let incarnation = history.incarnation(me);
    let _limits = history.tape(me);
    let opening = Snapshot::of(history);
    let shown = Snapshot::of(&ins);
    let reported = journal.len();
    Post {
        alloc,
        me,
        incarnation,
        opening,
        journal,
        kept,
        outs,
        ins,
        shown,
        line,
        reported,
    }
}

impl Post {
    /// The worker's number.
    pub fn number(&self) -> u32
        ensures value { result ≡ self.now.number }
        ensures known { IsPost self.now × IsTape self.now.tape }
    {
        let _limits = self.journal.len();
        self.me.get()
    }

    /// How many processes there are.
    pub fn n(&self) -> usize
        ensures { result ≡ length self.now.opening }
    {
        self.outs.len()
    }

    /// The worker's tape.
    pub fn tape(&self) -> &Tape
        ensures value { result.now.events ≡ self.now.tape }
        ensures known { IsPost self.now }
    {
        self.journal.tape()
    }

    /// The incarnation under which the worker sends: how often its process has gone back.
    pub fn incarnation(&self) -> u16
        ensures { result ≡ incarnation_of_post self.now }
    {
        self.incarnation
    }

    /// How many events of the worker's tape it has not reported.
    pub fn unreported(&self) -> u32
        ensures { reported_count self.now + result ≡ length self.now.tape }
    {
        self.journal.len() - self.reported
    }

    /// Sends a message to another process, and answers the message's name. A refusal hands the body
    /// back.
    ///
    /// It is one push on the ring to that process, after which the tape has the Send. It costs a
    /// constant, but for a tape that grows.
    pub fn send(&mut self, to: ProcId, body: Body) -> Result<MsgName, SendRefused>
        ensures ok { IfOk result (λ name. (name ≡ next_message_name self.old)
            × (self.new ≡ sent_by self.old to body)) }
        ensures err { IfErr result (λ e. (e.body ≡ body) × (self.new ≡ self.old)) }
        ensures same { IsSamePost self.old self.new }

        // The refusals, in their order.
        ensures may { OnOk result (MaySend self.old to) }
        ensures why { IfErr result (λ e. IsNotSent self.old to e.why) }
    {
        if let Err(why) = make_way(self.me, &mut self.journal, &mut self.outs, to) {
            return Err(SendRefused { why, body });
        }
        let inc = self.incarnation;
        let number = self.journal.sends();
        self.journal.send(to, inc, &body);
        let parcel = Parcel::Message {
            packet: Packet { inc, number, body },
        };
        push_known(&mut self.outs, to.get() as usize, parcel);
        Ok(message_name(self.me, inc, number))
    }

    /// Takes a check of no round, and answers its index.
    pub fn check(&mut self, state: State) -> Result<u32, TapeError>
        ensures ok { IfOk result (λ index. (index ≡ checks self.new.tape)
            × (self.new ≡ checked_alone self.old state)) }
        ensures err { OnErr result (self.new ≡ self.old) }
        ensures same { IsSamePost self.old self.new }

        // The refusals, in their order.
        ensures long { IsErrOf result TapeError.StateTooLong ↔ (MOST_STATE < length state) }
        ensures full { IsErrOf result TapeError.TapeFull
            ↔ ((length state ≤ MOST_STATE) × (MOST_EVENTS ≤ length self.old.tape)) }
    {
        if state.bytes().len() > MOST_STATE {
            return Err(TapeError::StateTooLong);
        }
        if self.journal.len() as usize >= MOST_EVENTS {
            return Err(TapeError::TapeFull);
        }
        if self.journal.reserve_events(1).is_err() {
            return Err(TapeError::OutOfMemory);
        }
        self.journal.check(state);
        Ok(self.journal.tape().checks())
    }
}
