//! A round of colours that is open.
ghost use Rattle.std.specs.Prelude.{◌≡◌, ◌≢◌, ◌<◌, ◌≤◌, ◌+◌, ◌↔◌, ℕ, List, false, IfOk, IsTrue};
ghost use Rattle.std.specs.Prelude.{length, replicate, Some};
ghost use Rattle.line_tape.specs.declared.events.Event.TheVariants.{Check};
ghost use Rattle.line_tape.specs.Event.{checks};
ghost use Rattle.line_tape.specs.History.{Process, tape_at, with_event};
ghost use Rattle.line_tape.specs.Rounds.{has_check_of};
ghost use Rattle.line_rounds.specs.Turning.{IsTurning, IsLastLine};

use line_names::{Choice, Line, MOST_PROCESSES, ProcId};
use std::alloc::{AllocError, Global};
use std::marker::Model;

/// A round that was begun, and of which not every process has its check yet: its number, and the
/// checks that there are.
///
/// It follows the tapes of a history: whoever adds a check of the round to a tape calls `check`. No
/// other event changes it.
#[derive(Drop)]
pub struct Turning {
    number: u32,
    /// The index of each process's check; 0 where it has none yet.
    checks: Vec<u32>,
}

impl Model for Turning {
    ghost use Rattle.std.specs.Prelude.{◌≤◌, length};
    ghost use Rattle.line_names.specs.declared.limits.TheConstants.{MOST_PROCESSES};
    ghost use Rattle.line_rounds.specs.Turning.{TurningView};

    ghost Value = { TurningView };

    ghost view = { λ t. record { number = t.number; checks = t.checks.items } };

    ghost invariant = { λ t. length t.checks.items ≤ MOST_PROCESSES };
}

impl Turning {
    /// The round of that number, of which none of `n` processes has its check yet. It takes memory
    /// for each process, and fails if memory runs out.
    pub fn new(alloc: Global, n: u32, number: u32) -> Result<Turning, AllocError>
        requires { n ≤ MOST_PROCESSES }
        ensures number { IfOk result (λ turning. turning.number ≡ number) }
        ensures checks { IfOk result (λ turning. turning.checks ≡ replicate n 0) }
        ensures turning { IfOk result (λ turning. (history : List Process) → length history ≡ n
            → ((q : ℕ) → has_check_of number (tape_at history q) ≡ false)
            → IsTurning history turning) }
    {
        let checks = vec![in alloc; 0; n as usize]?;
        Ok(Turning { number, checks })
    }

    /// Its number. It takes constant time.
    pub fn number(&self) -> u32
        ensures { result ≡ self.now.number }
    {
        self.number
    }

    /// Whether a process has its check of the round. It takes constant time.
    pub fn has_check(&self, p: ProcId) -> bool
        requires { p < length self.now.checks }
        ensures { (history : List Process) → IsTurning history self.now
            → result ≡ has_check_of self.now.number (tape_at history p) }
    {
        self.checks[p.get() as usize] != 0
    }

    /// Whether every process but this one has its check of the round, so that its own completes the
    /// round. It looks once at each process.
    pub fn is_last(&self, p: ProcId) -> bool
        ensures { (history : List Process) → IsTurning history self.now
            → (IsTrue result
            ↔ ((q : ℕ) → q < length history → q ≢ p
            → IsTrue (has_check_of self.now.number (tape_at history q)))) }
    {
        for (q, check) in self.checks.iter().enumerate() {
            if q != p.get() as usize && *check == 0 {
                return false;
            }
        }
        true
    }

    /// The line where this process stands now, and each other one at its check of the round, or at
    /// its initial state if it has none yet. It takes one step for each process, and no memory.
    pub fn line(&self, p: ProcId) -> Line
        requires { p < length self.now.checks }
        ensures { IsLastLine self.now p result }
    {
        let mut line = Line::new();
        for check in &self.checks {
            line.push(Choice::Check(*check));
        }
        line.set(p, Choice::Now);
        line
    }

    /// A process takes its check of the round, which has that index on its tape. It takes constant
    /// time.
    pub fn check(&mut self, p: ProcId, index: u32)
        requires { p < length self.old.checks }
        ensures number { self.new.number ≡ self.old.number }
        ensures count { length self.new.checks ≡ length self.old.checks }
        ensures turning { (history : List Process) (state : List ℕ) → IsTurning history self.old
            → has_check_of self.old.number (tape_at history p) ≡ false
            → index ≡ checks (tape_at history p) + 1
            → IsTurning (with_event history p (Check state (Some self.old.number))) self.new }
    {
        self.checks[p.get() as usize] = index;
    }

    /// The index of each process's check, or 0, in the order of the processes. It takes no memory.
    pub fn into_checks(self) -> Vec<u32>
        ensures { result.items ≡ self.checks }
    {
        self.checks
    }
}
