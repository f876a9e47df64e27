//! The round of markers that is open, and what closes it (Chandy and Lamport, ACM TOCS 3(1), 1985).
ghost use Rattle.std.specs.Prelude.{◌≡◌, ◌≢◌, ◌<◌, ◌≤◌, ◌+◌, ◌++◌, ℕ, List, length, true, false};
ghost use Rattle.std.specs.Prelude.{IfOk, OnOk, OnErr, Some, None, MatchOption};
ghost use Rattle.line_tape.specs.declared.events.Event.TheVariants.{Recv as RecvEvent};
ghost use Rattle.line_tape.specs.declared.events.Event.TheVariants.{Check as CheckEvent};
ghost use Rattle.line_tape.specs.declared.events.Event.TheVariants.{Mark as MarkEvent};
ghost use Rattle.line_tape.specs.History.{tape_at, with_event};
ghost use Rattle.line_tape.specs.Rounds.{has_check_of, is_completed_fifo};
ghost use Rattle.line_tape.specs.declared.modes.Mode.TheVariants.{Fifo};
ghost use Rattle.line_moves.specs.Openings.{left_open, marker_at, newly_closed, open_number};
ghost use Rattle.line_moves.specs.Openings.{AreMarkers, IsFresh, IsOnlyOpen, IsRecording, OpenView};
ghost use Rattle.line_moves.specs.Fates.{is_forced};

use crate::listings::Listing;
use crate::recorders::Recorder;
use crate::rounds::Round;
use line_names::{MOST_PROCESSES, MsgName, ProcId};
use line_rounds::Turning;
use line_tape::{History, LAST_ROUND};
use std::alloc::{AllocError, Global};
use std::marker::Model;

/// A round of markers that was begun and is not completed yet: its checks so far, and what each
/// process has recorded.
#[derive(Drop)]
pub struct OpenRound {
    turning: Turning,
    markers: Vec<Recorder>,
    /// At most as many markers of the round as have not come yet. While it is not 0, the round is
    /// not completed.
    to_come: u32,
}

impl Model for OpenRound {
    ghost use Rattle.std.specs.Prelude.{length};
    ghost use Rattle.line_moves.specs.Openings.{OpenView, AreMarkers, AreToCome};

    ghost Value = { OpenView };

    ghost view = { λ r. record {
      number = r.turning.number;
      checks = r.turning.checks;
      markers = r.markers.items;
    } };

    ghost invariant = { λ r. AreMarkers (length r.turning.checks) r.markers.items
        × AreToCome r.to_come (length r.turning.checks) r.turning.number r.markers.items };
}

/// What each of `n` processes has recorded before it has done anything.
fn fresh_markers(alloc: Global, n: u32) -> Result<Vec<Recorder>, AllocError>
    requires { n ≤ MOST_PROCESSES }
    ensures markers { IfOk result (λ markers. AreMarkers n markers.items) }
    ensures fresh { IfOk result
        (λ markers. (q : ℕ) → q < n → IsFresh 0 (marker_at markers.items q)) }
{
    let mut markers = Vec::with_capacity(alloc, n as usize)?;
    for q in 0..n {
        let me = ProcId::try_new(q, n).unwrap();
        markers.push(Recorder::new(alloc, n, me))?;
    }
    Ok(markers)
}

impl OpenRound {
    /// The next round after the last one, of which no process has its check yet.
    pub(crate) fn new(alloc: Global, history: &History, last: u32) -> Result<OpenRound, AllocError>
        requires numbers { last < LAST_ROUND }
        requires fresh { (q : ℕ)
            → has_check_of (last + 1) (tape_at history.now.processes q) ≡ false }
        ensures number { IfOk result (λ round. round.number ≡ last + 1) }
        ensures recording { IfOk result (λ round. IsRecording history.now.processes round) }
    {
        let n = history.n();
        let turning = Turning::new(alloc, n, last + 1)?;
        let markers = fresh_markers(alloc, n)?;
        let to_come = n * (n - 1);
        Ok(OpenRound {
            turning,
            markers,
            to_come,
        })
    }

    /// Its number.
    pub(crate) fn number(&self) -> u32
        ensures { result ≡ self.now.number }
    {
        self.turning.number()
    }

    /// Process `p` takes its check of the round before any marker has come.
    pub(crate) fn begin(&mut self, history: &History, p: ProcId)
        requires p { p < length history.now.processes }
        requires recording { IsRecording history.now.processes self.old }
        requires first { has_check_of self.old.number (tape_at history.now.processes p) ≡ false }
        ensures number { self.new.number ≡ self.old.number }
        ensures recording { (state : List ℕ)
            → IsRecording
            (with_event history.now.processes p (CheckEvent state (Some self.old.number)))
            self.new }
    {
        self.turning.check(p, history.tape(p).checks() + 1);
        let number = self.turning.number();
        self.markers[p.get() as usize].begin(number);
    }

    /// The marker from process `from` has process `p` take its check of the round.
    pub(crate) fn force(&mut self, history: &History, from: ProcId, p: ProcId)
        requires from { from < length history.now.processes }
        requires p { p < length history.now.processes }
        requires other { from ≢ p }
        requires recording { IsRecording history.now.processes self.old }
        requires first { has_check_of self.old.number (tape_at history.now.processes p) ≡ false }
        ensures number { self.new.number ≡ self.old.number }
        ensures recording { (state : List ℕ)
            → IsRecording
            (with_event
            (with_event history.now.processes p (CheckEvent state (Some self.old.number))) p
            (MarkEvent from self.old.number))
            self.new }
    {
        self.turning.check(p, history.tape(p).checks() + 1);
        let number = self.turning.number();
        self.markers[p.get() as usize].force(from, number);
        self.to_come = self.to_come.saturating_sub(1);
    }

    /// The marker from process `from` has come to process `p`, which has its check of the round.
    pub(crate) fn hear(&mut self, history: &History, from: ProcId, p: ProcId)
        requires from { from < length history.now.processes }
        requires p { p < length history.now.processes }
        requires other { from ≢ p }
        requires recording { IsRecording history.now.processes self.old }
        requires begun { has_check_of self.old.number (tape_at history.now.processes p) ≡ true }
        ensures number { self.new.number ≡ self.old.number }
        ensures recording { IsRecording
            (with_event history.now.processes p (MarkEvent from self.old.number)) self.new }
    {
        let number = self.turning.number();
        if self.markers[p.get() as usize].close_channel(from, number) {
            let others = self.to_come.saturating_sub(1);
            self.to_come = others;
        }
    }

    /// A message has come to process `p`. It costs one push.
    pub(crate) fn note(
        &mut self,
        history: &History,
        p: ProcId,
        message: &MsgName,
    ) -> Result<(), AllocError>
        requires from { message.now.from < length history.now.processes }
        requires p { p < length history.now.processes }
        requires other { message.now.from ≢ p }
        requires recording { IsRecording history.now.processes self.old }
        ensures number { self.new.number ≡ self.old.number }
        ensures ok { OnOk result
            (IsRecording (with_event history.now.processes p (RecvEvent message.now)) self.new) }
        ensures err { OnErr result (IsRecording history.now.processes self.new) }
    {
        self.markers[p.get() as usize].note(*message)
    }

    /// Whether each process has its check of the round, and a marker of it from each other process.
    ///
    /// It takes constant time while markers are to come. After that it looks at the channels of the
    /// processes, up to the first process that waits for a marker.
    pub(crate) fn is_completed(&self, history: &History) -> bool
        requires { IsRecording history.now.processes self.now }
        ensures { result ≡ is_completed_fifo history.now.processes self.now.number }
    {
        if self.to_come > 0 {
            return false;
        }
        let n = history.n();
        let number = self.turning.number();
        'each: for q in 0..n {
            if !self.markers[q as usize].is_closed(number) {
                return false;
            }
        }
        true
    }
}

/// Whether the marker of a round has a process take its check of it. It looks at no event.
pub fn is_forced(
    running: &Option<OpenRound>,
    history: &History,
    from: ProcId,
    to: ProcId,
    round: u32,
) -> bool
    requires from { from < length history.now.processes }
    requires to { to < length history.now.processes }
    requires opening { IsOnlyOpen Fifo history.now.processes running.now }
    requires sent { has_check_of round (tape_at history.now.processes from) ≡ true }
    ensures { result ≡ is_forced history.now.processes to round }
{
    match running {
        Some(running) => running.number() == round && !running.turning.has_check(to),
        None => false,
    }
}

/// A message has come to process `to`.
pub(crate) fn note(
    running: &mut Option<OpenRound>,
    history: &History,
    to: ProcId,
    message: &MsgName,
) -> Result<(), AllocError>
    requires from { message.now.from < length history.now.processes }
    requires to { to < length history.now.processes }
    requires other { message.now.from ≢ to }
    requires opening { IsOnlyOpen Fifo history.now.processes running.old }
    ensures number { open_number running.new ≡ open_number running.old }
    ensures ok { OnOk result
        (IsOnlyOpen Fifo
        (with_event history.now.processes to (RecvEvent message.now)) running.new) }
    ensures err { OnErr result (IsOnlyOpen Fifo history.now.processes running.new) }
{
    match running {
        Some(running) => running.note(history, to, message),
        None => Ok(()),
    }
}

/// The marker of a round has come to a process that has its check of that round. It takes no
/// memory.
pub(crate) fn hear(
    running: &mut Option<OpenRound>,
    history: &History,
    from: ProcId,
    to: ProcId,
    round: u32,
)
    requires from { from < length history.now.processes }
    requires to { to < length history.now.processes }
    requires other { from ≢ to }
    requires begun { has_check_of round (tape_at history.now.processes to) ≡ true }
    requires opening { IsOnlyOpen Fifo history.now.processes running.old }
    ensures number { open_number running.new ≡ open_number running.old }
    ensures opening { IsOnlyOpen Fifo (with_event history.now.processes to (MarkEvent from round))
        running.new }
{
    match running {
        Some(running) => {
            if running.number() == round {
                running.hear(history, from, to);
            }
        }
        None => {}
    }
}

/// Lists the round of markers if it is completed; no round is open then.
///
/// It takes no memory, and constant time while markers are to come; then it looks at each channel.
pub fn list_completed(
    alloc: Global,
    running: &mut Option<OpenRound>,
    history: &History,
    rounds: &mut Listing,
)
    requires opening { IsOnlyOpen Fifo history.now.processes running.old }
    requires room { 0 < rounds.old.room }
    ensures listed { rounds.new.items
        ≡ rounds.old.items ++ newly_closed Fifo history.now.processes running.old }
    ensures left { running.new ≡ left_open Fifo history.now.processes running.old }
{
    match running {
        Some(round) => {
            if !round.is_completed(history) {
                return;
            }
        }
        None => return,
    }
    list_round(alloc, running, history, rounds);
}

/// Lists the round of markers, which is completed.
#[inline(never)]
fn list_round(
    alloc: Global,
    running: &mut Option<OpenRound>,
    history: &History,
    rounds: &mut Listing,
)
    requires completed { MatchOption running.old ⊥ (λ (round : OpenView).
        is_completed_fifo history.now.processes round.number ≡ true) }
    requires opening { IsOnlyOpen Fifo history.now.processes running.old }
    requires room { 0 < rounds.old.room }
    ensures listed { rounds.new.items
        ≡ rounds.old.items ++ newly_closed Fifo history.now.processes running.old }
    ensures left { running.new ≡ None }
{
    match running.take() {
        Some(round) => {
            rounds.push(Round::of_markers(alloc, round.turning, round.markers, history));
        }
        None => unreachable!(),
    }
}
