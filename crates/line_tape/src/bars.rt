//! Bars: checks after which a process must not resume.
ghost use Rattle.std.specs.Prelude.{◌≡◌, ◌<◌, ℕ, length, map, replicate, slice_index_or, slice_set};
ghost use Rattle.std.specs.Prelude.{IfOk, None, Some};

use std::alloc::{AllocError, Global};
use std::marker::Model;
use thiserror::Error;

/// The check that each process is barred at, if it is.
#[derive(Drop)]
pub(crate) struct Bars {
    checks: Vec<Option<u32>>,
}

impl Model for Bars {
    ghost use Rattle.std.specs.Prelude.{List, Option, ℕ};

    ghost Value = { List (Option ℕ) };

    ghost view = { λ b. b.checks.items };
}

impl Bars {
    /// No bars yet, for `n` processes.
    pub fn new(alloc: Global, n: u32) -> Result<Bars, AllocError>
        ensures { IfOk result (λ bars. bars ≡ replicate n None) }
    {
        let checks = vec![in alloc; None; n as usize]?;
        Ok(Bars { checks })
    }

    /// The check that a process is barred at.
    pub fn at(&self, p: usize) -> Option<u32>
        ensures { result ≡ slice_index_or self.now p None }
    {
        match self.checks.get(p) {
            Some(bar) => *bar,
            None => None,
        }
    }

    /// Bars a process at a check, in place of the bar that it has.
    pub fn set(&mut self, p: usize, check: u32)
        requires { p < length self.old }
        ensures { self.new ≡ slice_set self.old p (Some check) }
    {
        self.checks[p] = Some(check);
    }

    /// Takes all bars away. It takes no memory.
    pub fn clear(&mut self)
        ensures { self.new ≡ replicate (length self.old) None }
    {
        self.checks.fill(None);
    }

    /// The same bars in memory of their own.
    pub fn copy(&self, alloc: Global) -> Result<Bars, AllocError>
        ensures { IfOk result (λ bars. bars ≡ self.now) }
    {
        let checks = Vec::from_slice(alloc, self.checks.as_slice())?;
        Ok(Bars { checks })
    }
}

/// Why a process was not barred at a check.
#[derive(Clone, Copy, Debug, PartialEq, Eq, Hash, Error)]
pub enum BarError {
    /// The process has no such check.
    #[error("the process has no such check")]
    NoSuchCheck = 4,
    /// The process is barred at that check or an earlier one already.
    #[error("the process is barred at that check or an earlier one already")]
    BarNotLower = 40,
}

impl BarError {
    /// The number of the refusal, as replies show it.
    pub fn code(self) -> u32
        ensures check { self ≡ BarError.NoSuchCheck → result ≡ 4 }
        ensures lower { self ≡ BarError.BarNotLower → result ≡ 40 }
    {
        self as u32
    }
}
