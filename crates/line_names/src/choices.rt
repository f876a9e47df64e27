//! Where a process may go on from.
ghost use Rattle.std.specs.Prelude.{◌≡◌, ◌↔◌, IsTrue};
ghost use Rattle.line_names.specs.Order.{IsNoLater};

/// A place where a process may go on from: one of its checks, or where it stands now.
///
/// Check 0 is the initial state; the others are numbered from 1 as they were taken. `Now` is later
/// than every check, also where nothing happened since the last one.
#[derive(Clone, Copy, Debug, PartialEq, Eq, PartialOrd, Ord, Hash)]
pub enum Choice {
    /// The check of this index; 0 is the initial state.
    Check(u32),
    /// Where the process stands now, its volatile state.
    Now,
}

impl Choice {
    /// Whether this choice of a process is another one of it or earlier.
    pub fn is_no_later(self, other: Choice) -> bool
        ensures { IsTrue result ↔ IsNoLater self other }
    {
        match (self, other) {
            (Choice::Check(a), Choice::Check(b)) => a <= b,
            (Choice::Check(_), Choice::Now) => true,
            (Choice::Now, Choice::Check(_)) => false,
            (Choice::Now, Choice::Now) => true,
        }
    }
}

impl Default for Choice {
    ghost use Rattle.std.specs.Prelude.{◌≡◌};
    ghost use Rattle.line_names.specs.declared.choices.Choice.TheVariants.{Check};

    ghost is_default = { λ c. c ≡ Check 0 };

    /// The initial state.
    fn default() -> Self {
        Choice::Check(0)
    }
}
