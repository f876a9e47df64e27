//! How many sends stand before each choice of a line.
ghost use Rattle.std.specs.Prelude.{◌≡◌, ◌<◌, ◌≤◌, length, replicate, slice_set, IfOk};

use line_names::{MOST_PROCESSES, ProcId};
use std::alloc::{AllocError, Global};
use std::marker::Model;

/// For each process, how many of its sends stand before its choice of a line.
#[derive(Drop)]
pub struct Sent {
    counts: Vec<u32>,
}

impl Model for Sent {
    ghost use Rattle.std.specs.Prelude.{List, ℕ, ◌≤◌, length};
    ghost use Rattle.line_names.specs.declared.limits.TheConstants.{MOST_PROCESSES};

    ghost Value = { List ℕ };

    ghost view = { λ s. s.counts.items };

    ghost invariant = { λ s. length s.counts.items ≤ MOST_PROCESSES };
}

impl Sent {
    /// No sends of any of `n` processes.
    pub fn new(alloc: Global, n: u32) -> Result<Sent, AllocError>
        requires { n ≤ MOST_PROCESSES }
        ensures { IfOk result (λ sent. sent ≡ replicate n 0) }
    {
        let counts = vec![in alloc; 0; n as usize]?;
        Ok(Sent { counts })
    }

    /// Puts a count in place of the one that a process has.
    pub fn set(&mut self, p: ProcId, count: u32)
        requires { p < length self.old }
        ensures { self.new ≡ slice_set self.old p count }
    {
        self.counts[p.get() as usize] = count;
    }

    /// The counts in the order of the processes.
    pub fn counts(&self) -> &[u32]
        ensures { result.now ≡ self.now }
    {
        self.counts.as_slice()
    }
}
