//! What one process has recorded.
ghost use Rattle.std.specs.Prelude.{◌≡◌, ◌≢◌, ℕ, ◌<◌, ◌≤◌, ◌↔◌, [], length, map, slice_index_or};
ghost use Rattle.std.specs.Prelude.{Some, None, MatchOption, IfOk, OnOk, OnErr, IsErrOf, IsOk};
ghost use Rattle.std.specs.Prelude.{IsTrue};
ghost use Rattle.line_rounds.specs.Recording.{channel_at, effect_of, latest, messages_by};
ghost use Rattle.line_rounds.specs.Recording.{rounds_with_message};
ghost use Rattle.line_rounds.specs.Recording.{round_of, rounds_after, with_marker, with_round};
ghost use Rattle.line_rounds.specs.Recording.{IsOver, IsRepeated, IsSameProcess, RecordedRound};
ghost use Rattle.line_rounds.specs.Spans.{is_over, AreOver, RoundView};
ghost use Rattle.line_rounds.specs.declared.spans.Span.{Span};

use crate::errors::{BeginError, MarkerError};
use crate::logs::Logs;
use crate::spans::{RoundSpans, Span};
use line_names::{MsgName, ProcId};
use std::alloc::{AllocError, Global};
use std::marker::Model;
use std::mem;

/// What a marker did.
#[derive(Clone, Copy, Debug, PartialEq, Eq, Hash)]
pub enum Effect {
    /// The round was recorded, and its channel from the sender is closed now.
    Closed,
    /// The round is recorded now, with the channel from the sender closed and empty.
    Forced,
    /// The round is old and not recorded: nothing changed.
    Ignored,
}

/// What one process has recorded of rounds, and of each channel to it.
///
/// The messages from one process are kept once for all rounds, and each round keeps where its
/// channels begin and end among them. So a message costs one push, whatever the number of rounds,
/// and is not kept where the channel from its sender is closed in each of them; recording a round
/// costs its processes once; a marker, `channel` and `is_closed` look for their round from the
/// newest on, and a marker passes over the rounds in which its channel is closed, over each once.
/// What is kept stays, also after rounds that are over: when they are not asked for any more, make
/// a new `Marker` with `latest()` as its floor.
#[derive(Drop)]
pub struct Marker {
    alloc: Global,
    me: ProcId,
    floor: u32,
    logs: Logs,
    rounds: Vec<RoundSpans>,
    /// For each process, in how many rounds from the first on its channel is closed.
    passed: Vec<usize>,
    /// Empty: room for the channels of the next round.
    row: Vec<Span>,
}

impl Model for Marker {
    ghost use Rattle.std.specs.Prelude.{◌≡◌, ◌+◌, ◌-◌, [], length, map, min, vec_len, vec_capacity};
    ghost use Rattle.line_rounds.specs.Recording.{MarkerView};
    ghost use Rattle.line_rounds.specs.Spans.{names_of, least_room, recorded_of, AreRoundsKept};
    ghost use Rattle.line_rounds.specs.Spans.{ArePassed};

    ghost Value = { MarkerView };

    ghost view = { λ m. record {
      n = length m.logs;
      me = m.me;
      floor = m.floor;
      rounds = map (recorded_of (names_of m.logs)) m.rounds.items;
      room = min (least_room m.logs)
          (min (vec_capacity m.rounds - vec_len m.rounds) (vec_capacity m.row + 1 - length m.logs));
    } };

    ghost invariant = { λ m. (m.row.items ≡ [])
        × AreRoundsKept (names_of m.logs) m.floor m.rounds.items
        × ArePassed m.passed.items (length m.logs) m.rounds.items };
}

/// Whether the marker has come on the channel from each process but this one.
fn are_closed(spans: &[Span], me: ProcId) -> bool
    ensures { IsTrue result
        ↔ ((q : ℕ) (d : Span) → q < length spans.now → q ≢ me
        → IsTrue (is_over (slice_index_or spans.now q d))) }
{
    let me = me.get() as usize;
    'each: for (q, span) in spans.iter().enumerate() {
        if q != me && !span.is_closed() {
            return false;
        }
    }
    true
}

/// In how many rounds from the first on the channel from a process is closed, where it is in the
/// first `known`. It looks at each further one.
fn further(rounds: &[RoundSpans], p: usize, known: usize) -> usize
    requires over { AreOver p known rounds.now }
    requires spans { (i : ℕ) (d : RoundView) → i < length rounds.now
        → p < length (slice_index_or rounds.now i d).spans }
    ensures { AreOver p result rounds.now }
{
    let mut k = known;
    'further: while k < rounds.len() {
        let round = &rounds[k];
        let span = round.spans[p];
        if !span.is_closed() {
            return k;
        }
        k += 1;
    }
    k
}

impl Marker {
    /// What process `me` of `n` has recorded before it has done anything; rounds up to `floor` are
    /// old.
    pub fn new(alloc: Global, n: u32, me: ProcId, floor: u32) -> Result<Marker, AllocError>
        requires { me < n }
        ensures n { IfOk result (λ marker. marker.n ≡ n) }
        ensures me { IfOk result (λ marker. marker.me ≡ me) }
        ensures floor { IfOk result (λ marker. marker.floor ≡ floor) }
        ensures rounds { IfOk result (λ marker. marker.rounds ≡ []) }
    {
        let logs = Logs::new(alloc, n)?;
        let passed = vec![in alloc; 0; n as usize]?;
        Ok(Marker {
            alloc,
            me,
            floor,
            logs,
            rounds: Vec::new(alloc),
            passed,
            row: Vec::new(alloc),
        })
    }

    /// The process.
    pub fn me(&self) -> ProcId
        ensures { result ≡ self.now.me }
    {
        self.me
    }

    /// The greatest recorded round, or the floor where none is recorded.
    pub fn latest(&self) -> u32
        ensures { result ≡ latest self.now.floor self.now.rounds }
    {
        match self.rounds.last() {
            Some(round) => round.number,
            None => self.floor,
        }
    }

    /// Where the round of this number stands, if it is recorded. It looks at the rounds from the
    /// newest on.
    fn place(&self, round: u32) -> Option<usize>
        ensures { MatchOption result (round_of self.now.rounds round ≡ None)
            (λ i. (i < length self.now.rounds)
            × ((d : RecordedRound)
            → round_of self.now.rounds round ≡ Some (slice_index_or self.now.rounds i d))) }
    {
        let mut i = self.rounds.len();
        'newest: while i > 0 {
            i -= 1;
            let recorded = &self.rounds[i];
            if recorded.number == round {
                return Some(i);
            }
            if recorded.number < round {
                return None;
            }
        }
        None
    }

    /// Whether the marker from a process has come in the round that stands there.
    fn has_marker(&self, i: usize, from: ProcId) -> bool
        requires round { i < length self.now.rounds }
        requires process { from < self.now.n }
        ensures { (d : RecordedRound)
            → result ≡ (channel_at (slice_index_or self.now.rounds i d) from).is_closed }
    {
        let round = &self.rounds[i];
        round.spans[from.get() as usize].is_closed()
    }

    /// Closes a channel of the round that stands there.
    fn close(&mut self, i: usize, from: ProcId)
        requires round { i < length self.old.rounds }
        requires process { from < self.old.n }
        ensures rounds { (number : ℕ)
            → ((d : RecordedRound) → (slice_index_or self.old.rounds i d).number ≡ number)
            → self.new.rounds ≡ with_marker self.old.rounds from number }
        ensures same { IsSameProcess self.old self.new }
    {
        let end = self.logs.names(from).len();
        let round = &mut self.rounds[i];
        let p = from.get() as usize;
        round.spans[p] = round.spans[p].closed(end);
        let known = self.passed[p];
        let over = further(&self.rounds, p, known);
        self.passed[p] = over;
    }

    /// Records a round with all channels open and empty, and tells where it stands.
    fn record(&mut self, round: u32) -> Result<usize, AllocError>
        requires { latest self.old.floor self.old.rounds < round }
        ensures place { IfOk result (λ i. i ≡ length self.old.rounds) }
        ensures ok { OnOk result (self.new.rounds ≡ with_round self.old.rounds self.old.n round) }
        ensures err { OnErr result (self.new.rounds ≡ self.old.rounds) }
        ensures same { IsSameProcess self.old self.new }
        ensures room { 0 < self.old.room → IsOk result }
    {
        let n = self.logs.len();
        let place = self.rounds.len();
        self.row.reserve(n)?;
        self.rounds.reserve(1)?;
        self.logs.open(&mut self.row);
        let spans = mem::replace(&mut self.row, Vec::new(self.alloc));
        let recorded = RoundSpans {
            number: round,
            spans,
        };
        self.rounds.push_reserved(recorded);
        Ok(place)
    }

    /// The process records its state for a round of its own.
    ///
    /// Its caller puts a marker on each outgoing channel before any further message. It refuses a
    /// round that is not greater than `latest()`, so a number is taken once.
    pub fn begin(&mut self, round: u32) -> Result<(), BeginError>
        ensures ok { OnOk result (self.new.rounds ≡ with_round self.old.rounds self.old.n round) }
        ensures err { OnErr result (self.new.rounds ≡ self.old.rounds) }
        ensures same { IsSameProcess self.old self.new }
        ensures not_new { IsErrOf result BeginError.RoundNotNew
            ↔ (round ≤ latest self.old.floor self.old.rounds) }
        ensures room { 0 < self.old.room → result ≢ Err BeginError.OutOfMemory }
    {
        if round <= self.latest() {
            return Err(BeginError::RoundNotNew);
        }
        self.record(round)?;
        Ok(())
    }

    /// A marker has come from another process.
    ///
    /// Where the answer is `Forced`, its caller has to record the state before anything else, and
    /// to put a marker on each outgoing channel, as after `begin`.
    pub fn on_marker(&mut self, from: ProcId, round: u32) -> Result<Effect, MarkerError>
        requires process { from < self.old.n }
        requires other { from ≢ self.old.me }
        ensures ok { IfOk result (λ effect. effect ≡ effect_of self.old round) }
        ensures rounds { IfOk result
            (λ effect. self.new.rounds ≡ rounds_after effect self.old from round) }
        ensures err { OnErr result (self.new.rounds ≡ self.old.rounds) }
        ensures same { IsSameProcess self.old self.new }
        ensures repeated { IsErrOf result MarkerError.MarkerRepeated
            ↔ IsRepeated self.old.rounds from round }
        ensures room { 0 < self.old.room → result ≢ Err MarkerError.OutOfMemory }
    {
        match self.place(round) {
            Some(i) => {
                if self.has_marker(i, from) {
                    return Err(MarkerError::MarkerRepeated);
                }
                self.close(i, from);
                Ok(Effect::Closed)
            }
            None => {
                if self.latest() >= round {
                    return Ok(Effect::Ignored);
                }
                let place = self.record(round)?;
                self.close(place, from);
                Ok(Effect::Forced)
            }
        }
    }

    /// A message has come from another process. Each recorded round whose channel from its sender
    /// is not closed has it from now on.
    ///
    /// Its cost is one push, whatever the number of rounds. Where the channel from its sender is
    /// closed in each recorded round, nothing is kept.
    pub fn note(&mut self, message: MsgName) -> Result<(), AllocError>
        requires process { message.from < self.old.n }
        requires other { message.from ≢ self.old.me }
        ensures ok { OnOk result (self.new.rounds ≡ rounds_with_message self.old.rounds message) }
        ensures err { OnErr result (self.new.rounds ≡ self.old.rounds) }
        ensures same { IsSameProcess self.old self.new }
        ensures room { 0 < self.old.room → IsOk result }
    {
        let over = self.passed[message.from.get() as usize];
        if over == self.rounds.len() {
            return Ok(());
        }
        self.logs.push(message)
    }

    /// The messages noted from a process after the round was recorded and before its marker came
    /// from there, in their order; none where the round is not recorded.
    pub fn channel(&self, from: ProcId, round: u32) -> Option<&[MsgName]>
        requires { from < self.now.n }
        ensures { let messages = messages_by (round_of self.now.rounds round) from in
            MatchOption result (messages ≡ None) (λ names. messages ≡ Some names.now) }
    {
        match self.place(round) {
            Some(i) => {
                let recorded = &self.rounds[i];
                let span = recorded.spans[from.get() as usize];
                Some(span.messages(self.logs.names(from)))
            }
            None => None,
        }
    }

    /// Whether the round is recorded and a marker of it has come from each other process. It looks
    /// at each.
    pub fn is_closed(&self, round: u32) -> bool
        ensures { IsTrue result ↔ IsOver self.now round }
    {
        match self.place(round) {
            Some(i) => {
                let recorded = &self.rounds[i];
                are_closed(&recorded.spans, self.me)
            }
            None => false,
        }
    }

    /// Makes room: the next call of `begin`, `on_marker` or `note` takes no memory. A further one
    /// may use it up.
    pub fn reserve(&mut self) -> Result<(), AllocError>
        ensures rounds { self.new.rounds ≡ self.old.rounds }
        ensures same { IsSameProcess self.old self.new }
        ensures ok { OnOk result (0 < self.new.room) }
        ensures succeeds { 0 < self.old.room → IsOk result }
        ensures room { self.old.room ≤ self.new.room }
    {
        let processes = self.logs.len();
        self.row.reserve(processes)?;
        self.rounds.reserve(1)?;
        self.logs.reserve()
    }
}
