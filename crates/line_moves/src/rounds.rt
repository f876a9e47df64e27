//! A completed round as it is listed: of markers (Chandy and Lamport, ACM TOCS 3(1), 1985) or of
//! colours (Lai and Yang, Information Processing Letters 25(3), 1987).
ghost use Rattle.std.specs.Prelude.{◌≡◌, ◌≢◌, ◌<◌, ◌≤◌, ℕ, List, length, true};
ghost use Rattle.std.specs.Prelude.{All, IfSome};
ghost use Rattle.line_tape.specs.History.{Process};
ghost use Rattle.line_tape.specs.Restart.{is_kept};
ghost use Rattle.line_tape.specs.Colours.{is_completed_unordered};
ghost use Rattle.line_tape.specs.Rounds.{check_line, is_completed_fifo, round_line};
ghost use Rattle.line_rounds.specs.Tables.{between, IsTable};
ghost use Rattle.line_rounds.specs.Turning.{IsTurning};
ghost use Rattle.line_tape.specs.declared.modes.Mode.TheVariants.{Fifo, Unordered};
ghost use Rattle.line_moves.specs.Listed.{check_in, channel_in, channel_table, listed_round, stays};
ghost use Rattle.line_moves.specs.Listed.{IsSnapshotOf};
ghost use Rattle.line_moves.specs.Listings.{IsBelow};
ghost use Rattle.line_rounds.specs.Recording.{MarkerView};
ghost use Rattle.line_moves.specs.Openings.{kept_channel, recorded_channel, recording_of};
ghost use Rattle.line_moves.specs.Openings.{AreByProcess, AreInTransit, AreMarkers};
ghost use Rattle.line_moves.specs.Openings.{IsRecording};

use crate::kept_recorders::KeptRecorders;
use crate::recorders::Recorder;
use line_names::{Choice, Line, MOST_PROCESSES, MsgName, ProcId};
use line_rounds::{SharedChannels, Turning};
use line_tape::History;
use std::alloc::Global;
use std::marker::Model;

/// A completed round: a check of each process, which make a consistent line, and what was in
/// transit between each two processes there.
#[derive(Drop)]
pub struct Round {
    number: u32,
    checks: Vec<u32>,
    /// What processes recorded until their last marker came; nothing where links keep no order.
    markers: KeptRecorders,
    /// What was in transit, where links keep no order.
    counted: Option<SharedChannels>,
}

impl Model for Round {
    ghost use Rattle.std.specs.Prelude.{length};
    ghost use Rattle.line_moves.specs.Listed.{ListedRound};
    ghost use Rattle.line_moves.specs.Openings.{channels_kept, AreChannels};

    ghost Value = { ListedRound };

    ghost view = { λ r. record {
      number = r.number;
      checks = r.checks.items;
      channels = channels_kept r.counted (length r.checks.items) r.markers r.number;
    } };

    ghost invariant = { λ r. AreChannels r.counted (length r.checks.items) r.markers };
}

impl Round {
    /// A completed round of this number, with its checks and what was in transit there, which is
    /// of as many processes.
    ///
    /// It takes no memory. Whether it is a snapshot of a history is for the caller to see to.
    pub fn of_channels(
        alloc: Global,
        number: u32,
        checks: Vec<u32>,
        counted: SharedChannels,
    ) -> Round
        requires { IsTable (length checks.items) counted }
        ensures number { result.number ≡ number }
        ensures checks { result.checks ≡ checks.items }
        ensures channels { result.channels
            ≡ channel_table (length checks.items) (between counted) }
    {
        Round {
            number,
            checks,
            markers: KeptRecorders::none(alloc),
            counted: Some(counted),
        }
    }

    /// The indices of its checks, by process. It has a channel for each two of these processes.
    pub fn checks(&self) -> &[u32]
        ensures value { result.now ≡ self.now.checks }
        ensures channels { self.now.channels
            ≡ channel_table (length self.now.checks) (channel_in self.now) }
    {
        self.checks.as_slice()
    }

    /// Its number, from 1.
    pub fn number(&self) -> u32
        ensures { result ≡ self.now.number }
    {
        self.number
    }

    /// The index of a process's check.
    pub fn check(&self, p: ProcId) -> u32
        requires { p < length self.now.checks }
        ensures { result ≡ check_in self.now p }
    {
        self.checks[p.get() as usize]
    }

    /// What was in transit from one process to another at these checks, by number.
    ///
    /// In a round of markers it is what was received after the receiver's check and before the
    /// sender's marker; in a round of colours, what was sent before the sender's check and not
    /// received before the receiver's.
    ///
    /// In a round of markers it takes constant time for most receivers that nothing was on a
    /// channel to, and for those up to which something was on a channel to each process; else it
    /// searches for the receiver by halves. In a round of colours it costs what
    /// `SharedChannels::between` does: mostly constant time, else two searches by halves.
    pub fn channel(&self, from: ProcId, to: ProcId) -> &[MsgName]
        requires from { from < length self.now.checks }
        requires to { to < length self.now.checks }
        requires other { from ≢ to }
        ensures { result.now ≡ channel_in self.now from to }
    {
        match &self.counted {
            Some(channels) => channels.between(from, to),
            None => self.markers.names(self.number, from, to),
        }
    }

    /// A completed round of markers, with what each process recorded of it. It takes no memory, and
    /// looks at each channel.
    pub(crate) fn of_markers(
        alloc: Global,
        turning: Turning,
        markers: Vec<Recorder>,
        history: &History,
    ) -> Round
        requires markers { AreMarkers (length turning.checks) markers.items }
        requires recording { IsRecording history.now.processes
            (recording_of turning markers.items) }
        requires completed { is_completed_fifo history.now.processes turning.number ≡ true }
        ensures { result ≡ listed_round Fifo history.now.processes turning.number }
    {
        let n = history.n();
        let number = turning.number();
        let markers = without_silence(alloc, n, markers, number);
        Round {
            number,
            checks: turning.into_checks(),
            markers: KeptRecorders::of(markers),
            counted: None,
        }
    }

    /// A completed round of colours, with what is in transit at its checks.
    pub(crate) fn of_turning(
        alloc: Global,
        turning: Turning,
        channels: SharedChannels,
        _history: &History,
    ) -> Round
        requires turning { IsTurning _history.now.processes turning }
        requires completed { is_completed_unordered _history.now.processes turning.number ≡ true }
        requires channels { AreInTransit _history.now.processes
            (round_line _history.now.processes turning.number) channels }
        ensures { result ≡ listed_round Unordered _history.now.processes turning.number }
    {
        let number = turning.number();
        Round {
            number,
            checks: turning.into_checks(),
            markers: KeptRecorders::none(alloc),
            counted: Some(channels),
        }
    }

    /// What was in transit; none where links keep their order.
    pub(crate) fn counted(&self) -> Option<&SharedChannels>
        ensures shape { IfSome result
            (λ channels. IsTable (length self.now.checks) channels.now) }
        ensures shown { IfSome result (λ channels. self.now.channels
            ≡ channel_table (length self.now.checks) (between channels.now)) }
        ensures transit { (history : List Process) → IsSnapshotOf history self.now
            → IfSome result
            (λ channels. AreInTransit history (check_line self.now.checks) channels.now) }
    {
        self.counted.as_ref()
    }

    /// Holds what was in transit where others hold it too.
    pub(crate) fn hold(&mut self, channels: SharedChannels)
        requires shape { IsTable (length self.old.checks) channels }
        requires same { self.old.channels
            ≡ channel_table (length self.old.checks) (between channels) }
        ensures { self.new ≡ self.old }
    {
        self.counted = Some(channels);
    }

    /// Whether a restart at the line cuts none of its checks.
    pub(crate) fn stays(&self, line: &Line) -> bool
        ensures { result ≡ stays line.now self.now }
    {
        let n = line.len();
        'each: for q in 0..n {
            let p = ProcId::try_new(q, n).unwrap();
            if !is_kept(line.at(p), self.check_or_none(q)) {
                return false;
            }
        }
        true
    }

    /// Whether none of its checks is later than that of the same process in the other round.
    pub(crate) fn is_below(&self, other: &Round) -> bool
        ensures { result ≡ true → IsBelow self.now other.now }
    {
        let n = self.checks.len();
        if n > other.checks.len() {
            return false;
        }
        'each: for p in 0..n {
            if self.checks[p] > other.checks[p] {
                return false;
            }
        }
        true
    }

    /// The index of the check of process `q`; 0 where it has no such process.
    fn check_or_none(&self, q: u32) -> u32
        ensures { result ≡ check_in self.now q }
    {
        match self.checks.get(q as usize) {
            Some(check) => *check,
            None => 0,
        }
    }
}

/// What was recorded of a round, without the processes that nothing was on a channel to. It takes
/// no memory, and looks at each channel.
fn without_silence(alloc: Global, n: u32, markers: Vec<Recorder>, round: u32) -> Vec<Recorder>
    requires few { n ≤ MOST_PROCESSES }
    requires markers { AreMarkers n markers.items }
    ensures n { All (λ (marker : MarkerView). marker.n ≡ n) result.items }
    ensures ascend { AreByProcess result.items }
    ensures same { (p q : ℕ) → p < n → q < n
        → kept_channel result.items round p q ≡ recorded_channel markers.items round p q }
{
    let mut kept = markers;
    let mut q = kept.len();
    'each: while q > 0 {
        q -= 1;
        if kept[q].is_silent() {
            kept.remove(q);
        }
    }
    if kept.is_empty() {
        return Vec::new(alloc);
    }
    kept
}

/// Whether a restart at a choice keeps a check.
fn is_kept(choice: Choice, check: u32) -> bool
    ensures { result ≡ is_kept choice check }
{
    match choice {
        Choice::Check(last) => check <= last,
        Choice::Now => true,
    }
}
