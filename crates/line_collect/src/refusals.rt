//! Why a report is not taken.

ghost use Rattle.std.specs.Prelude.{◌≡◌, ◌↔◌, IsTrue};
ghost use Rattle.line_collect.specs.Refusals.{report_error_code};

use line_names::MOST_BODY;
use line_tape::{LAST_INCARNATION, MOST_EVENTS, MOST_STATE};
use std::alloc::AllocError;
use thiserror::Error;

/// Why a report was not taken, or a plan not made.
#[derive(Clone, Copy, Debug, PartialEq, Eq, Hash, Error)]
pub enum CollectError {
    /// Memory was refused.
    #[error("out of memory")]
    OutOfMemory = 0,
    /// The body is longer than a message may have.
    #[error("the body is longer than {MOST_BODY} bytes")]
    BodyTooLong = 2,
    /// The tape has as many events as a tape may have.
    #[error("the tape has no room under {MOST_EVENTS} events")]
    TapeFull = 3,
    /// The process has no such check.
    #[error("the tape has no such check")]
    NoSuchCheck = 4,
    /// The state is longer than a check may store.
    #[error("the state is longer than {MOST_STATE} bytes")]
    StateTooLong = 5,
    /// The check is the initial state, which is never damaged.
    #[error("the initial state of a process cannot be damaged")]
    InitialDamage = 7,
    /// The check is marked already.
    #[error("the check is marked already")]
    AlreadyDamaged = 8,
    /// A process that goes back has incarnation `LAST_INCARNATION`.
    #[error("a process that goes back has incarnation {LAST_INCARNATION}")]
    NoMoreIncarnations = 24,
    /// The sender neither sent a message of that name nor can send one still.
    #[error("a received message has a name that its sender did not give it")]
    NamesDisagree = 38,
    /// The process is barred at that check or an earlier one already.
    #[error("the process is barred at that check or an earlier one already")]
    BarNotLower = 40,
    /// The process did that under another incarnation than its present one.
    #[error("the process did that under another incarnation than its present one")]
    StaleReport = 47,
}

impl CollectError {
    /// Whether memory ran out, so that the report may be taken once there is more.
    pub fn is_out_of_memory(self) -> bool
        ensures { IsTrue result ↔ (self ≡ CollectError.OutOfMemory) }
    {
        self == CollectError::OutOfMemory
    }

    /// The number of the refusal, as answers show it.
    pub fn code(self) -> u32
        ensures { result ≡ report_error_code self }
    {
        self as u32
    }
}

impl From<AllocError> for CollectError {
    ghost use Rattle.std.specs.Prelude.{◌≡◌};
    ghost use Rattle.line_collect.specs.declared.refusals.CollectError.TheVariants.{OutOfMemory};

    ghost from_gives = { λ _ e. e ≡ OutOfMemory };

    fn from(_refused: AllocError) -> CollectError {
        CollectError::OutOfMemory
    }
}
