//! A tape, and what its process has recorded of rounds beside it.
ghost use Rattle.std.specs.Prelude.{◌≡◌, ◌≢◌, ◌<◌, ◌≤◌, ◌+◌, ◌↔◌, ◌++◌, ◌∷◌, [], ℕ, IfOk, IsOk};
ghost use Rattle.std.specs.Prelude.{OnOk, OnErr, IsTrue, Some, None, true, false, length};
ghost use Rattle.line_rounds.specs.Recording.{latest, rounds_with_message, with_marker, with_round};
ghost use Rattle.line_tape.specs.declared.events.Event.TheVariants.{Send, Recv, Check, Mark};
ghost use Rattle.line_tape.specs.History.{IsTape};
ghost use Rattle.line_tape.specs.Event.{sends};
ghost use Rattle.line_tape.specs.Rounds.{has_check_of, rounds_checked};
ghost use Rattle.line_posts.specs.Journals.{rounds_by, IsOpen, IsRecorded, IsSameJournal};

use crate::round_checks::{has_check, round_event};
use line_names::{Body, MsgName, ProcId};
use line_rounds::Marker;
use line_tape::{Event, MOST_EVENTS, MOST_STATE, State, Tape};
use std::alloc::{AllocError, Global};
use std::marker::Model;

// How many events room is made for at once. A list of the tape that a worker does not use, as that
// of receipts where it only sends, then has room for all of these, and not for a few alone.
const EVENTS_AHEAD: u32 = 32;

/// Makes room on a tape for many further events, where there is memory for them.
#[inline(never)]
fn reserve_ahead(tape: &mut Tape)
    ensures same { tape.new.events ≡ tape.old.events }
    ensures room { tape.old.room ≤ tape.new.room }
{
    let _ = tape.reserve(EVENTS_AHEAD);
}

/// Makes room on a tape for `k` further events. Where `calls` is zero, it first asks for room for
/// many, and as many calls after it do not.
fn reserve_on(tape: &mut Tape, calls: &mut u32, k: u32) -> Result<(), AllocError>
    ensures same { tape.new.events ≡ tape.old.events }
    ensures ok { OnOk result (k ≤ tape.new.room) }
    ensures succeeds { k ≤ tape.old.room → IsOk result }
    ensures room { tape.old.room ≤ tape.new.room }
{
    if *calls > 0 {
        *calls -= 1;
    } else {
        *calls = EVENTS_AHEAD - 1;
        reserve_ahead(tape);
    }
    tape.reserve(k)
}

/// The tape of one process, and beside it what it has recorded of rounds.
///
/// A contract sees the number of processes, its own, the floor (rounds up to it are old), the tape,
/// the recorded rounds, and two kinds of room: for how many further events the tape takes no
/// memory, and for how many further calls the record takes none.
#[derive(Drop)]
pub(crate) struct Journal {
    floor: u32,
    tape: Tape,
    marker: Marker,
    // How many further calls for room ask the tape for no more than they need.
    calls: u32,
}

impl Model for Journal {
    ghost use Rattle.std.specs.Prelude.{◌≡◌};
    ghost use Rattle.line_posts.specs.Journals.{JournalView, IsRecorded};

    ghost Value = { JournalView };

    ghost view = { λ j. record {
      n = j.marker.n;
      me = j.marker.me;
      floor = j.floor;
      tape = j.tape.events;
      rounds = j.marker.rounds;
      room = j.tape.room;
      ready = j.marker.room;
    } };

    ghost invariant = { λ j. (j.marker.floor ≡ j.floor)
        × IsRecorded j.marker.n j.floor j.tape.events j.marker.rounds };
}

impl Journal {
    /// The journal of process `me` of `n` over a tape that has no check of a round; rounds up to
    /// `floor` are old.
    pub(crate) fn new(
        alloc: Global,
        n: u32,
        me: ProcId,
        tape: Tape,
        floor: u32,
    ) -> Result<Journal, AllocError>
        requires me { me < n }
        requires bare { rounds_checked tape.events ≡ [] }
        ensures tape { IfOk result (λ j. (j.tape ≡ tape.events) × (j.rounds ≡ [])) }
        ensures same { IfOk result (λ j. (j.n ≡ n) × (j.me ≡ me) × (j.floor ≡ floor)) }
        ensures room { IfOk result (λ j. j.room ≡ tape.room) }
    {
        let marker = Marker::new(alloc, n, me, floor)?;
        Ok(Journal {
            floor,
            tape,
            marker,
            calls: 0,
        })
    }

    /// The tape.
    pub(crate) fn tape(&self) -> &Tape
        ensures { result.now.events ≡ self.now.tape }
    {
        &self.tape
    }

    /// What is recorded of rounds: each as the tape has it.
    pub(crate) fn marker(&self) -> &Marker
        ensures rounds { result.now.rounds ≡ self.now.rounds }
        ensures recorded { IsRecorded self.now.n self.now.floor self.now.tape self.now.rounds }
    {
        &self.marker
    }

    /// How many events the tape has.
    pub(crate) fn len(&self) -> u32
        ensures value { result ≡ length self.now.tape }
        ensures limits { IsTape self.now.tape }
    {
        self.tape.len()
    }

    /// How many sends the tape has.
    pub(crate) fn sends(&self) -> u32
        ensures { result ≡ sends self.now.tape }
    {
        self.tape.sends()
    }

    /// The last round that was recorded, or the floor. The tape has no check of a later one.
    pub(crate) fn latest(&self) -> u32
        ensures value { result ≡ latest self.now.floor self.now.rounds }
        ensures later { (r : ℕ) → result < r → has_check_of r self.now.tape ≡ false }
    {
        self.marker.latest()
    }

    /// Whether the last round that was recorded is still open: not every other process's marker has
    /// come. It looks at each process.
    pub(crate) fn is_open(&self) -> bool
        ensures { IsTrue result ↔ IsOpen self.now.n self.now.me self.now.floor self.now.rounds }
    {
        let last = self.marker.latest();
        last > self.floor && !self.marker.is_closed(last)
    }

    /// Whether the tape has the check of a round, of which a marker comes from another process.
    ///
    /// It looks through the recorded rounds from the newest on, and through the tape itself only
    /// where the round was not recorded and is not new: where all workers record each round in turn
    /// that never comes.
    pub(crate) fn is_checked(&self, from: ProcId, round: u32) -> bool
        requires process { from < self.now.n }
        requires other { from ≢ self.now.me }
        ensures { result ≡ has_check_of round self.now.tape }
    {
        if round > self.marker.latest() {
            return false;
        }
        if self.marker.channel(from, round).is_some() {
            return true;
        }
        has_check(&self.tape, round)
    }

    /// Makes room for so many further events on the tape, whatever is recorded of rounds. All else
    /// is as it was, also where memory is out. It costs a constant, but for a tape that grows.
    ///
    /// Now and then it asks the tape for many events at once, so that the tape seldom looks at its
    /// lists; where memory for these is refused, it asks for so many alone.
    pub(crate) fn reserve_events(&mut self, k: u32) -> Result<(), AllocError>
        ensures tape { self.new.tape ≡ self.old.tape }
        ensures rounds { self.new.rounds ≡ self.old.rounds }
        ensures same { IsSameJournal self.old self.new }
        ensures room { OnOk result (k ≤ self.new.room) }
        ensures kept { (self.old.room ≤ self.new.room) × (self.new.ready ≡ self.old.ready) }
        ensures succeeds { k ≤ self.old.room → IsOk result }
    {
        reserve_on(&mut self.tape, &mut self.calls, k)
    }

    /// Makes room for so many further events on the tape, and for one call more in what is
    /// recorded, which looks at each process. All else is as it was, also where memory is out.
    pub(crate) fn reserve(&mut self, k: u32) -> Result<(), AllocError>
        ensures tape { self.new.tape ≡ self.old.tape }
        ensures rounds { self.new.rounds ≡ self.old.rounds }
        ensures same { IsSameJournal self.old self.new }
        ensures room { OnOk result (k ≤ self.new.room) }
        ensures ready { OnOk result (0 < self.new.ready) }
        ensures kept { (self.old.room ≤ self.new.room) × (self.old.ready ≤ self.new.ready) }
        ensures succeeds { k ≤ self.old.room → 0 < self.old.ready → IsOk result }
    {
        self.reserve_events(k)?;
        self.marker.reserve()
    }

    /// A message was sent.
    pub(crate) fn send(&mut self, to: ProcId, inc: u16, body: &Body)
        requires few { length self.old.tape < MOST_EVENTS }
        requires room { 0 < self.old.room }
        ensures tape { self.new.tape ≡ self.old.tape ++ Send to inc body.now ∷ [] }
        ensures rounds { self.new.rounds ≡ self.old.rounds }
        ensures same { IsSameJournal self.old self.new }
        ensures spent { (self.old.room ≤ self.new.room + 1) × (self.new.ready ≡ self.old.ready) }
    {
        self.tape.append_send(to, inc, body.bytes());
    }

    /// A check of no round was taken.
    pub(crate) fn check(&mut self, state: State)
        requires few { length self.old.tape < MOST_EVENTS }
        requires room { 0 < self.old.room }
        requires short { length state ≤ MOST_STATE }
        ensures tape { self.new.tape ≡ self.old.tape ++ Check state None ∷ [] }
        ensures rounds { self.new.rounds ≡ self.old.rounds }
        ensures same { IsSameJournal self.old self.new }
        ensures spent { (self.old.room ≤ self.new.room + 1) × (self.new.ready ≡ self.old.ready) }
    {
        self.tape.append(Event::Check { state, round: None });
    }

    /// A message was received. Each recorded round whose channel from its sender is not closed has
    /// it from now on. It makes the room that it takes; where memory is out, nothing was received.
    #[inline]
    pub(crate) fn receive(&mut self, message: MsgName) -> Result<(), AllocError>
        requires few { length self.old.tape < MOST_EVENTS }
        requires process { message.from < self.old.n }
        requires other { message.from ≢ self.old.me }
        ensures tape { OnOk result (self.new.tape ≡ self.old.tape ++ Recv message ∷ []) }
        ensures rounds { OnOk result
            (self.new.rounds ≡ rounds_with_message self.old.rounds message) }
        ensures err { OnErr result ((self.new.tape ≡ self.old.tape)
            × (self.new.rounds ≡ self.old.rounds)) }
        ensures same { IsSameJournal self.old self.new }
        ensures spent { self.old.room ≤ self.new.room + 1 }
        ensures succeeds { 0 < self.old.room → 0 < self.old.ready → IsOk result }
    {
        reserve_on(&mut self.tape, &mut self.calls, 1)?;
        self.marker.note(message)?;
        self.tape.append_receipt(&message);
        Ok(())
    }

    /// The check of a round that it begins was taken: the round is recorded, its channels open and
    /// empty.
    pub(crate) fn begin(&mut self, state: State, round: u32)
        requires few { length self.old.tape < MOST_EVENTS }
        requires room { 0 < self.old.room }
        requires ready { 0 < self.old.ready }
        requires short { length state ≤ MOST_STATE }
        requires new { latest self.old.floor self.old.rounds < round }
        ensures tape { self.new.tape ≡ self.old.tape ++ Check state (Some round) ∷ [] }
        ensures rounds { self.new.rounds ≡ with_round self.old.rounds self.old.n round }
        ensures same { IsSameJournal self.old self.new }
        ensures spent { self.old.room ≤ self.new.room + 1 }
    {
        let event = round_event(state, round);
        self.tape.append(event);
        self.marker.begin(round).unwrap();
    }

    /// The marker of a round was received, of which the tape has the check: the channel from its
    /// sender is closed in that round, where it is recorded.
    pub(crate) fn mark(&mut self, from: ProcId, round: u32)
        requires few { length self.old.tape < MOST_EVENTS }
        requires room { 0 < self.old.room }
        requires ready { 0 < self.old.ready }
        requires process { from < self.old.n }
        requires other { from ≢ self.old.me }
        requires checked { has_check_of round self.old.tape ≡ true }
        ensures tape { self.new.tape ≡ self.old.tape ++ Mark from round ∷ [] }
        ensures rounds { self.new.rounds ≡ with_marker self.old.rounds from round }
        ensures same { IsSameJournal self.old self.new }
        ensures spent { self.old.room ≤ self.new.room + 1 }
    {
        self.tape.append_mark(from, round);
        let _ = self.marker.on_marker(from, round);
    }

    /// The marker of a round was received, of which the tape has no check: the check comes first,
    /// then the marker, and the channel from its sender is closed and empty in that round.
    ///
    /// One call for both, since room in what is recorded is for one call.
    pub(crate) fn force(&mut self, from: ProcId, state: State, round: u32)
        requires few { length self.old.tape + 1 < MOST_EVENTS }
        requires room { 1 < self.old.room }
        requires ready { 0 < self.old.ready }
        requires short { length state ≤ MOST_STATE }
        requires process { from < self.old.n }
        requires other { from ≢ self.old.me }
        requires unchecked { has_check_of round self.old.tape ≡ false }
        ensures tape { self.new.tape
            ≡ (self.old.tape ++ Check state (Some round) ∷ []) ++ Mark from round ∷ [] }
        ensures rounds { self.new.rounds ≡ with_marker
            (rounds_by self.old.n self.old.floor self.old.rounds (Check state (Some round)))
            from round }
        ensures same { IsSameJournal self.old self.new }
        ensures spent { self.old.room ≤ self.new.room + 2 }
    {
        let check = round_event(state, round);
        self.tape.append(check);
        self.tape.append_mark(from, round);
        let _ = self.marker.on_marker(from, round);
    }
}
