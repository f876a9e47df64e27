//! Floors as values that code hands on.
ghost use Rattle.std.specs.Prelude.{◌≡◌, ◌<◌, ◌≤◌, ℕ, true, false, slice_index_or, IfOk};
ghost use Rattle.line_cuts.specs.Cuts.{floor_check, lost_checks, lost_sends};
ghost use Rattle.line_cuts.specs.Floors.{first_floor, HasNumbers, LacksNumbers};

use line_names::ProcId;
use std::alloc::{AllocError, Global};
use std::marker::Model;

/// The most sends, and the most checks, that may be let go of a process in all: as many more as a
/// tape has events, and each still has a number.
pub const MOST_LET_GO: u32 = 4_293_967_295;

/// Where a history is cut: the check that each process begins with from then on, how many of its
/// first sends it lets go, and the last round begun.
///
/// Check 0 is the initial state, and of a process that it has no number for it is that, with no
/// send let go. `floor_at` finds the floor at a line.
#[derive(Debug, Drop)]
pub struct OwnedFloor {
    checks: Vec<u32>,
    sends: Vec<u32>,
    round: u32,
}

impl Model for OwnedFloor {
    ghost use Rattle.line_cuts.specs.Cuts.{Floor};

    ghost Value = { Floor };

    ghost view = { λ f. record {
      checks = f.checks.items;
      sends = f.sends.items;
      round = f.round;
    } };
}

/// The number of a process in a list; 0 where the list has none for it.
fn number_at(numbers: &Vec<u32>, p: usize) -> u32
    ensures { result ≡ slice_index_or numbers.now.items p 0 }
{
    match numbers.get(p) {
        Some(number) => *number,
        None => 0,
    }
}

/// Whether no number of a list is greater than that.
fn are_few(numbers: &Vec<u32>, most: u32) -> bool
    ensures yes { result ≡ true → (p : ℕ) → slice_index_or numbers.now.items p 0 ≤ most }
    ensures no { result ≡ false
        → (p : ℕ) × (most < slice_index_or numbers.now.items p 0) }
{
    'each: for number in numbers {
        if *number > most {
            return false;
        }
    }
    true
}

impl OwnedFloor {
    /// The floor of `n` processes before which nothing stands.
    pub fn first(alloc: Global, n: u32) -> Result<OwnedFloor, AllocError>
        ensures { IfOk result (λ floor. floor ≡ first_floor n) }
    {
        let checks = vec![in alloc; 0; n as usize]?;
        let sends = vec![in alloc; 0; n as usize]?;
        Ok(OwnedFloor::of(checks, sends, 0))
    }

    /// Whether no more is let go of any process than numbers are kept for.
    pub fn has_numbers(&self) -> bool
        ensures yes { result ≡ true → HasNumbers self.now }
        ensures no { result ≡ false → LacksNumbers self.now }
    {
        are_few(&self.sends, MOST_LET_GO) && are_few(&self.checks, MOST_LET_GO + 1)
    }

    /// The floor of these checks, numbers of sends and round.
    pub fn of(checks: Vec<u32>, sends: Vec<u32>, round: u32) -> OwnedFloor
        ensures checks { result.checks ≡ checks.items }
        ensures sends { result.sends ≡ sends.items }
        ensures round { result.round ≡ round }
    {
        OwnedFloor {
            checks,
            sends,
            round,
        }
    }

    /// The check that a process begins with; 0 is its initial state.
    pub fn check(&self, p: ProcId) -> u32
        ensures { result ≡ floor_check self.now p }
    {
        number_at(&self.checks, p.get() as usize)
    }

    /// How many first sends of a process are let go.
    pub fn sends(&self, p: ProcId) -> u32
        ensures { result ≡ lost_sends self.now p }
    {
        number_at(&self.sends, p.get() as usize)
    }

    /// The checks that processes begin with, by their numbers.
    pub fn checks(&self) -> &[u32]
        ensures { result.now ≡ self.now.checks }
    {
        self.checks.as_slice()
    }

    /// How many first sends processes let go, by their numbers.
    pub fn counts(&self) -> &[u32]
        ensures { result.now ≡ self.now.sends }
    {
        self.sends.as_slice()
    }

    /// How much lower the index of a check of a process is in what is left.
    pub fn checks_lost(&self, p: ProcId) -> u32
        ensures { result ≡ lost_checks self.now p }
    {
        self.check(p).saturating_sub(1)
    }

    /// The last round that was begun: of rounds up to it nothing is left.
    pub fn round(&self) -> u32
        ensures { result ≡ self.now.round }
    {
        self.round
    }
}
