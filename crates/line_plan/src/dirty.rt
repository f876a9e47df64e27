//! Which processes are to be visited.
ghost use Rattle.std.specs.Prelude.{◌≡◌, ◌≢◌, ℕ, true, replicate, slice_set};
ghost use Rattle.line_names.specs.Sets.{is_member};

use line_names::{MOST_PROCESSES, ProcId};
use std::marker::Model;

/// The processes that may have received an orphan: each other one has received none.
#[derive(Drop)]
pub struct Dirty {
    members: [bool; MOST_PROCESSES],
}

impl Model for Dirty {
    ghost use Rattle.std.specs.Prelude.{Bool, List};

    ghost Value = { List Bool };

    ghost view = { λ d. d.members };
}

impl Dirty {
    /// All processes.
    pub fn everyone() -> Dirty
        ensures { result ≡ replicate MOST_PROCESSES true }
    {
        Dirty {
            members: [true; MOST_PROCESSES],
        }
    }

    /// Whether a process is to be visited.
    pub fn has(&self, p: ProcId) -> bool
        ensures { result ≡ is_member self.now p }
    {
        self.members[p.get() as usize]
    }

    /// Notes whether a process is to be visited.
    pub fn set(&mut self, p: ProcId, dirty: bool)
        ensures value { self.new ≡ slice_set self.old p dirty }
        ensures member { is_member self.new p ≡ dirty }
        ensures others { (q : ℕ) → q ≢ p → is_member self.new q ≡ is_member self.old q }
    {
        self.members[p.get() as usize] = dirty;
    }
}
