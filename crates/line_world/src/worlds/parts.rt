//! The parts of a world, and a world that is made of them.
ghost use Rattle.std.specs.Prelude.{◌≡◌, ◌≤◌, ◌+◌, [], ℕ, All, IfOk, IsTrue, false};
ghost use Rattle.std.specs.Prelude.{replicate};
ghost use Rattle.line_names.specs.declared.choices.Choice.TheVariants.{Now};
ghost use Rattle.line_names.specs.declared.limits.TheConstants.{MOST_PROCESSES};
ghost use Rattle.line_tape.specs.declared.modes.Mode.TheVariants.{Fifo};
ghost use Rattle.line_tape.specs.Fit.{IsFitFifo};
ghost use Rattle.line_tape.specs.History.{tape_at};
ghost use Rattle.line_tape.specs.Rounds.{has_check_of};
ghost use Rattle.line_moves.specs.Listed.{IsSnapshotOf};
ghost use Rattle.line_moves.specs.Worlds.{AreNumbered, IsWorld};
ghost use Rattle.line_world.specs.Idle.{AreMarkersReceived, IsIdle};
ghost use Rattle.line_world.specs.Machine.{is_open};

use super::World;
use crate::protocols::Protocol;
use line_catalogue::Catalogue;
use line_moves::{Links, Listing, restart_links};
use line_names::{Choice, Line};
use line_tape::Mode;
use std::alloc::{AllocError, Global};

/// The line at which each of `n` processes stands where it is now.
fn present_line(n: u32) -> Line
    requires { n ≤ MOST_PROCESSES }
    ensures { result ≡ replicate n Now }
{
    let mut line = Line::new();
    for _p in 0..n {
        line.push(Choice::Now);
    }
    line
}

/// The links of processes that have received every marker: what was sent on each and not received.
fn present_links(alloc: Global, catalogue: &Catalogue) -> Result<Links, AllocError>
    requires fit { IsFitFifo catalogue.now.processes }
    requires received { AreMarkersReceived catalogue.now.processes }
    ensures { IfOk result (λ links. IsWorld Fifo catalogue.now.processes links) }
{
    let n = catalogue.n();
    let line = present_line(n);
    let messages = catalogue.transit(alloc, &line)?;
    let mut links = Links::new(alloc, n)?;
    restart_links(catalogue.history(), &mut links, &line, &messages)?;
    Ok(links)
}

impl World {
    /// The world of processes that go on from what they have done, over links that keep their
    /// order, where no round is open (`is_idle`): each link holds what was sent on it and not
    /// received.
    ///
    /// `last_round` is the number of the last round that was begun before; the rounds on the tapes
    /// and the listed ones are no later. It looks at what is in transit, and makes a queue for each
    /// pair of processes.
    pub fn resume(
        alloc: Global,
        catalogue: Catalogue,
        last_round: u32,
        rounds: Listing,
    ) -> Result<World, AllocError>
        requires idle { IsIdle catalogue.processes last_round }
        requires snapshots { All (IsSnapshotOf catalogue.processes) rounds.items }
        requires numbered { AreNumbered (last_round + 1) rounds.items }
        ensures { IfOk result (λ world. world ≡ record {
          mode = Fifo;
          history = catalogue.processes;
          marks = catalogue.marks;
          last_round = last_round;
          rounds = rounds.items;
          copies = [];
        }) }
    {
        let links = present_links(alloc, &catalogue)?;
        Ok(World {
            catalogue,
            links,
            last_round,
            rounds,
            protocol: Protocol::Markers { running: None },
        })
    }

    /// What each process did, with the marks and the bars, as a planner asks for it.
    pub fn catalogue(&self) -> &Catalogue
        ensures processes { result.now.processes ≡ self.now.history }
        ensures marks { result.now.marks ≡ self.now.marks }
    {
        &self.catalogue
    }

    /// How its links deliver. Links that keep their order hold no copies.
    pub fn mode(&self) -> Mode
        ensures value { result ≡ self.now.mode }
        ensures copies { self.now.mode ≡ Fifo → self.now.copies ≡ [] }
    {
        match &self.protocol {
            Protocol::Markers { .. } => Mode::Fifo,
            Protocol::Colours { .. } => Mode::Unordered,
        }
    }

    /// The number of the last round that was begun; 0 where none was. Where links keep their order
    /// and no round is open, a world that is made of the same tapes goes on from there (`resume`).
    pub fn last_round(&self) -> u32
        ensures value { result ≡ self.now.last_round }
        ensures greatest { (p r : ℕ) → IsTrue (has_check_of r (tape_at self.now.history p))
            → r ≤ self.now.last_round }
        ensures numbered { AreNumbered (self.now.last_round + 1) self.now.rounds }
        ensures idle { self.now.mode ≡ Fifo → is_open self.now ≡ false
            → IsIdle self.now.history self.now.last_round }
    {
        self.last_round
    }
}
