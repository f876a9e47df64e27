//! What the machine answers.
ghost use Rattle.std.specs.Prelude.{◌≡◌, ◌↔◌, IsTrue};
ghost use Rattle.line_world.specs.Codes.{refusal_code};
ghost use Rattle.line_world.specs.Delivered.{delivered_reply};

use line_catalogue::DamageError;
use line_names::{MsgName, ProcId};
use line_plan::{Plan, PlanError};
use line_tape::{BarError, LAST_INCARNATION, LAST_ROUND, MOST_EVENTS, MOST_STATE, State};
use std::alloc::AllocError;
use thiserror::Error;

/// What a step that was done is answered.
#[derive(Debug, Drop)]
pub enum Reply {
    /// A message was sent.
    Sent {
        /// Its name.
        message: MsgName,
    },
    /// A message was taken.
    Took {
        /// Its name.
        message: MsgName,
        /// The round of the check that the process took before it, if it took one.
        forced: Option<u32>,
    },
    /// A marker was taken.
    Marked {
        /// Its round.
        round: u32,
        /// Whether the process had to take its check of that round first.
        forced: bool,
    },
    /// A copy was looked at whose send is no longer on the sender's tape.
    Stale {
        /// Its name.
        message: MsgName,
    },
    /// A copy was looked at that the process has received before.
    Repeated {
        /// Its name.
        message: MsgName,
    },
    /// A process took a check.
    Checked {
        /// The process.
        at: ProcId,
        /// The index of the check.
        check: u32,
    },
    /// A process took a check and began a round by it.
    Begun {
        /// The process.
        at: ProcId,
        /// The index of the check.
        check: u32,
        /// The round.
        round: u32,
    },
    /// A process took its check of the open round.
    Turned {
        /// The process.
        at: ProcId,
        /// The index of the check.
        check: u32,
        /// The round.
        round: u32,
    },
    /// A check is marked as damaged now.
    Damaged {
        /// The process.
        at: ProcId,
        /// The index of the check.
        check: u32,
    },
    /// A process is barred now.
    Barred {
        /// The process.
        at: ProcId,
        /// The index of the check that it is barred at.
        check: u32,
    },
    /// All processes go on from the planned line.
    Recovered {
        /// The line, its certificate, and the messages that are sent again.
        plan: Box<Plan>,
        /// For each process the state that it goes on from; none if it stays where it stands.
        states: Vec<Option<State>>,
        /// For each process its incarnation after the restart.
        incarnations: Vec<u16>,
    },
}

/// What a delivery that was done did. It has no room for a plan, so it is handed on at less cost
/// than a `Reply`.
#[derive(Clone, Copy)]
pub(crate) enum Delivered {
    /// A message was taken.
    Took {
        /// Its name.
        message: MsgName,
        /// The round of the check that the process took before it, if it took one.
        forced: Option<u32>,
    },
    /// A marker was taken.
    Marked {
        /// Its round.
        round: u32,
        /// Whether the process had to take its check of that round first.
        forced: bool,
    },
    /// A copy was looked at whose send is no longer on the sender's tape.
    Stale {
        /// Its name.
        message: MsgName,
    },
    /// A copy was looked at that the process has received before.
    Repeated {
        /// Its name.
        message: MsgName,
    },
}

impl Delivered {
    /// The reply that tells it.
    #[inline(always)]
    pub(crate) fn reply(self) -> Reply
        ensures { result ≡ delivered_reply self }
    {
        match self {
            Delivered::Took { message, forced } => Reply::Took { message, forced },
            Delivered::Marked { round, forced } => Reply::Marked { round, forced },
            Delivered::Stale { message } => Reply::Stale { message },
            Delivered::Repeated { message } => Reply::Repeated { message },
        }
    }
}

/// The reply of a step, or its refusal.
#[derive(Debug, Drop)]
pub enum Answer {
    /// The step was done.
    Done(Reply),
    /// The step was refused, and changed nothing.
    Refused(StepError),
}

/// A run that stopped because memory ran out.
#[derive(Debug, Drop, Error)]
#[error("out of memory after {} steps", .done.len())]
pub struct RunStopped {
    /// The answers of the steps before the one that it stopped at.
    pub done: Vec<Answer>,
}

/// Why a step was not done.
#[derive(Clone, Copy, Debug, PartialEq, Eq, Hash, Error)]
pub enum StepError {
    /// Memory ran out.
    #[error("out of memory")]
    OutOfMemory = 0,
    /// A process number is not below the number of processes.
    #[error("a process number is not below the number of processes")]
    NoSuchProcess = 1,
    /// The tape has no room under `MOST_EVENTS` for what the step adds.
    #[error("the tape has no room under {MOST_EVENTS} events")]
    TapeFull = 3,
    /// The tape has no such check.
    #[error("the tape has no such check")]
    NoSuchCheck = 4,
    /// The state is longer than `MOST_STATE` bytes.
    #[error("the state is longer than {MOST_STATE} bytes")]
    StateTooLong = 5,
    /// The initial state of a process cannot be damaged.
    #[error("the initial state of a process cannot be damaged")]
    InitialDamage = 7,
    /// The check is marked already.
    #[error("the check is marked already")]
    AlreadyDamaged = 8,
    /// A process has no link to itself.
    #[error("a process has no link to itself")]
    ToSelf = 17,
    /// The link holds nothing.
    #[error("the link holds nothing")]
    LinkEmpty = 18,
    /// The link has nothing to take at that place.
    #[error("the link has nothing to take at that place")]
    BadPick = 19,
    /// The last round begun is not completed.
    #[error("the last round begun is not completed")]
    RoundOpen = 20,
    /// No round is open of which the process has no check yet.
    #[error("no round is open of which the process has no check")]
    NothingToTurn = 21,
    /// Links of this kind have no such step.
    #[error("links of this kind have no such step")]
    WrongMode = 22,
    /// The last round begun has number `LAST_ROUND`.
    #[error("the last round begun has number {LAST_ROUND}")]
    NoMoreRounds = 23,
    /// A process that goes back has incarnation `LAST_INCARNATION`.
    #[error("a process that goes back has incarnation {LAST_INCARNATION}")]
    NoMoreIncarnations = 24,
    /// The process is barred at that check or an earlier one already.
    #[error("the process is barred at that check or an earlier one already")]
    BarNotLower = 40,
}

impl StepError {
    /// Whether memory ran out, so that the step may be done once there is more.
    pub fn is_out_of_memory(self) -> bool
        ensures { IsTrue result ↔ (self ≡ StepError.OutOfMemory) }
    {
        self == StepError::OutOfMemory
    }

    /// The number of the refusal, as replies show it.
    pub fn code(self) -> u32
        ensures { result ≡ refusal_code self }
    {
        self as u32
    }
}

impl From<AllocError> for StepError {
    ghost use Rattle.std.specs.Prelude.{◌≡◌};
    ghost use Rattle.line_world.specs.declared.replies.StepError.TheVariants.{OutOfMemory};

    ghost from_gives = { λ _ e. e ≡ OutOfMemory };

    fn from(_refused: AllocError) -> StepError {
        StepError::OutOfMemory
    }
}

impl From<DamageError> for StepError {
    ghost use Rattle.std.specs.Prelude.{◌≡◌};
    ghost use Rattle.line_world.specs.Marked.{damage_error};

    ghost from_gives = { λ d e. e ≡ damage_error d };

    fn from(error: DamageError) -> StepError {
        match error {
            DamageError::OutOfMemory => StepError::OutOfMemory,
            DamageError::NoSuchCheck => StepError::NoSuchCheck,
            DamageError::InitialDamage => StepError::InitialDamage,
            DamageError::AlreadyDamaged => StepError::AlreadyDamaged,
        }
    }
}

impl From<BarError> for StepError {
    ghost use Rattle.std.specs.Prelude.{◌≡◌};
    ghost use Rattle.line_world.specs.Marked.{bar_error};

    ghost from_gives = { λ b e. e ≡ bar_error b };

    fn from(error: BarError) -> StepError {
        match error {
            BarError::NoSuchCheck => StepError::NoSuchCheck,
            BarError::BarNotLower => StepError::BarNotLower,
        }
    }
}

impl From<PlanError> for StepError {
    ghost use Rattle.std.specs.Prelude.{◌≡◌};
    ghost use Rattle.line_world.specs.declared.replies.StepError.TheVariants.{OutOfMemory};

    ghost from_gives = { λ _ e. e ≡ OutOfMemory };

    fn from(error: PlanError) -> StepError {
        match error {
            PlanError::OutOfMemory => StepError::OutOfMemory,
        }
    }
}
