//! Why nothing is let go, and why no machine is opened anew.
ghost use Rattle.std.specs.Prelude.{◌≡◌};

use std::alloc::AllocError;
use thiserror::Error;

/// Why a world lets nothing go.
#[derive(Clone, Copy, Debug, PartialEq, Eq, Hash, Error)]
pub enum ForgetError {
    /// Memory was refused.
    #[error("out of memory")]
    OutOfMemory = 0,
    /// Links keep no order: their copies are never lost.
    #[error("the links keep no order")]
    WrongMode = 22,
    /// A round is open.
    #[error("a round is open")]
    RoundOpen = 20,
    /// No round of that number is listed.
    #[error("no round of that number is listed")]
    NoSuchRound = 48,
    /// A check of the round is damaged, or its process is barred before it.
    #[error("a check of the round is damaged, or a process is barred before it")]
    RoundLost = 49,
    /// Of a process more would be let go in all than there are numbers for: `MOST_LET_GO`.
    #[error("more of a process would be let go than there are numbers for")]
    NoMoreNumbers = 50,
}

impl ForgetError {
    /// The number of the refusal, as replies show it.
    pub fn code(self) -> u32
        ensures memory { self ≡ ForgetError.OutOfMemory → result ≡ 0 }
        ensures mode { self ≡ ForgetError.WrongMode → result ≡ 22 }
        ensures open { self ≡ ForgetError.RoundOpen → result ≡ 20 }
        ensures listed { self ≡ ForgetError.NoSuchRound → result ≡ 48 }
        ensures lost { self ≡ ForgetError.RoundLost → result ≡ 49 }
        ensures numbers { self ≡ ForgetError.NoMoreNumbers → result ≡ 50 }
    {
        self as u32
    }
}

impl From<AllocError> for ForgetError {
    ghost use Rattle.std.specs.Prelude.{◌≡◌};
    ghost use Rattle.line_live.specs.declared.refusals.ForgetError.TheVariants.{OutOfMemory};

    ghost from_gives = { λ _ e. e ≡ OutOfMemory };

    fn from(_refused: AllocError) -> ForgetError {
        ForgetError::OutOfMemory
    }
}

/// Why no machine is opened of the parts of one.
#[derive(Clone, Copy, Debug, PartialEq, Eq, Hash, Error)]
pub enum ResumeError {
    /// Memory was refused.
    #[error("out of memory")]
    OutOfMemory,
    /// The floor is of another number of processes than the history.
    #[error("the floor is of another number of processes")]
    ForeignFloor,
    /// Of a process more was let go than there are numbers for: `MOST_LET_GO`.
    #[error("more of a process was let go than there are numbers for")]
    NoMoreNumbers,
    /// The listed rounds do not stand in the order of their numbers, or one is later than the last
    /// round begun.
    #[error("the listed rounds are not in order, or one was not begun")]
    RoundsDisordered,
    /// The tapes are none that links in order lead to while no round is open, or a round on one is
    /// later than the last round begun.
    #[error("the tapes are not those of processes between which no round is open")]
    NotIdle,
    /// The checks that the processes begin with are not all there, one is damaged, a process is
    /// barred before its own, or they make no consistent line.
    #[error("the checks that the processes begin with are lost")]
    FloorLost,
    /// The checks of a listed round make no consistent line, or one is an initial state.
    #[error("the checks of a listed round make no consistent line, or one is an initial state")]
    NotConsistent,
}

impl From<AllocError> for ResumeError {
    ghost use Rattle.std.specs.Prelude.{◌≡◌};
    ghost use Rattle.line_live.specs.declared.refusals.ResumeError.TheVariants.{OutOfMemory};

    ghost from_gives = { λ _ e. e ≡ OutOfMemory };

    fn from(_refused: AllocError) -> ResumeError {
        ResumeError::OutOfMemory
    }
}
