//! Why a round or a marker was not taken.
ghost use Rattle.std.specs.Prelude.{◌≡◌};

use std::alloc::AllocError;
use thiserror::Error;

/// Why a round was not begun.
#[derive(Clone, Copy, Debug, PartialEq, Eq, Hash, Error)]
pub enum BeginError {
    /// Memory was refused.
    #[error("out of memory")]
    OutOfMemory = 0,
    /// The round is not greater than those known.
    #[error("the round is not greater than those known")]
    RoundNotNew = 9,
}

impl BeginError {
    /// The number of the refusal, as replies show it.
    pub fn code(self) -> u32
        ensures memory { self ≡ BeginError.OutOfMemory → result ≡ 0 }
        ensures not_new { self ≡ BeginError.RoundNotNew → result ≡ 9 }
    {
        self as u32
    }
}

impl From<AllocError> for BeginError {
    ghost use Rattle.std.specs.Prelude.{◌≡◌};
    ghost use Rattle.line_rounds.specs.declared.errors.BeginError.TheVariants.{OutOfMemory};

    ghost from_gives = { λ _ e. e ≡ OutOfMemory };

    fn from(_refused: AllocError) -> BeginError {
        BeginError::OutOfMemory
    }
}

/// Why a marker was not taken.
#[derive(Clone, Copy, Debug, PartialEq, Eq, Hash, Error)]
pub enum MarkerError {
    /// Memory was refused.
    #[error("out of memory")]
    OutOfMemory = 0,
    /// A marker of this round came from this process before.
    #[error("that channel of that round is closed")]
    MarkerRepeated = 10,
}

impl MarkerError {
    /// The number of the refusal, as replies show it.
    pub fn code(self) -> u32
        ensures memory { self ≡ MarkerError.OutOfMemory → result ≡ 0 }
        ensures repeated { self ≡ MarkerError.MarkerRepeated → result ≡ 10 }
    {
        self as u32
    }
}

impl From<AllocError> for MarkerError {
    ghost use Rattle.std.specs.Prelude.{◌≡◌};
    ghost use Rattle.line_rounds.specs.declared.errors.MarkerError.TheVariants.{OutOfMemory};

    ghost from_gives = { λ _ e. e ≡ OutOfMemory };

    fn from(_refused: AllocError) -> MarkerError {
        MarkerError::OutOfMemory
    }
}
