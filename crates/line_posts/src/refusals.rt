//! Why a call of a worker, of a fleet, of a gathering or of a restart is refused.
ghost use Rattle.std.specs.Prelude.{◌≡◌};

use line_names::Body;
use std::alloc::AllocError;
use thiserror::Error;

/// Why there is no fleet.
#[derive(Clone, Copy, Debug, PartialEq, Eq, Hash, Error)]
pub enum FleetError {
    /// Out of memory.
    #[error("out of memory")]
    OutOfMemory = 0,
    /// The number of workers is not from 1 to 64.
    #[error("the number of workers is not from 1 to 64")]
    BadCount = 6,
    /// The capacity is not from 1 to 1,024.
    #[error("the capacity is not from 1 to 1,024")]
    BadCapacity = 31,
}

impl FleetError {
    /// The number of the refusal, as replies show it.
    pub fn code(self) -> u32
        ensures memory { self ≡ FleetError.OutOfMemory → result ≡ 0 }
        ensures count { self ≡ FleetError.BadCount → result ≡ 6 }
        ensures capacity { self ≡ FleetError.BadCapacity → result ≡ 31 }
    {
        self as u32
    }
}

impl From<AllocError> for FleetError {
    ghost use Rattle.std.specs.Prelude.{◌≡◌};
    ghost use Rattle.line_posts.specs.declared.refusals.FleetError.TheVariants.{OutOfMemory};

    ghost from_gives = { λ _ e. e ≡ OutOfMemory };

    fn from(_refused: AllocError) -> FleetError {
        FleetError::OutOfMemory
    }
}

/// Why a message was not sent.
#[derive(Clone, Copy, Debug, PartialEq, Eq, Hash, Error)]
pub enum SendWhy {
    /// Out of memory.
    #[error("out of memory")]
    OutOfMemory = 0,
    /// The number is not below the number of processes.
    #[error("the number is not below the number of processes")]
    NoSuchProcess = 1,
    /// A process sends nothing to itself.
    #[error("a process sends nothing to itself")]
    ToSelf = 17,
    /// The tape is full.
    #[error("the tape is full")]
    TapeFull = 3,
    /// The ring shows no free slot.
    #[error("the ring shows no free slot")]
    RingFull = 25,
}

impl SendWhy {
    /// The number of the refusal, as replies show it.
    pub fn code(self) -> u32
        ensures memory { self ≡ SendWhy.OutOfMemory → result ≡ 0 }
        ensures process { self ≡ SendWhy.NoSuchProcess → result ≡ 1 }
        ensures own { self ≡ SendWhy.ToSelf → result ≡ 17 }
        ensures full { self ≡ SendWhy.TapeFull → result ≡ 3 }
        ensures ring { self ≡ SendWhy.RingFull → result ≡ 25 }
    {
        self as u32
    }
}

/// A message that was not sent: why, and its body.
#[derive(Debug, Drop)]
pub struct SendRefused {
    pub why: SendWhy,
    pub body: Body,
}

/// Why nothing was received.
#[derive(Clone, Copy, Debug, PartialEq, Eq, Hash, Error)]
pub enum ReceiveWhy {
    /// Out of memory.
    #[error("out of memory")]
    OutOfMemory = 0,
    /// The number is not below the number of processes.
    #[error("the number is not below the number of processes")]
    NoSuchProcess = 1,
    /// A process receives nothing from itself.
    #[error("a process receives nothing from itself")]
    ToSelf = 17,
    /// The state is longer than 4,096 bytes.
    #[error("the state is longer than 4,096 bytes")]
    StateTooLong = 5,
    /// The ring shows nothing.
    #[error("the ring shows nothing")]
    NothingThere = 26,
    /// The tape is full.
    #[error("the tape is full")]
    TapeFull = 3,
    /// A ring shows no free slot for a marker.
    #[error("a ring shows no free slot for a marker")]
    RingFull = 25,
}

impl ReceiveWhy {
    /// The number of the refusal, as replies show it.
    pub fn code(self) -> u32
        ensures memory { self ≡ ReceiveWhy.OutOfMemory → result ≡ 0 }
        ensures process { self ≡ ReceiveWhy.NoSuchProcess → result ≡ 1 }
        ensures own { self ≡ ReceiveWhy.ToSelf → result ≡ 17 }
        ensures long { self ≡ ReceiveWhy.StateTooLong → result ≡ 5 }
        ensures nothing { self ≡ ReceiveWhy.NothingThere → result ≡ 26 }
        ensures full { self ≡ ReceiveWhy.TapeFull → result ≡ 3 }
        ensures ring { self ≡ ReceiveWhy.RingFull → result ≡ 25 }
    {
        self as u32
    }
}

/// Why no round was begun.
#[derive(Clone, Copy, Debug, PartialEq, Eq, Hash, Error)]
pub enum BeginWhy {
    /// Out of memory.
    #[error("out of memory")]
    OutOfMemory = 0,
    /// Only process 0 begins rounds.
    #[error("only process 0 begins rounds")]
    NotLead = 27,
    /// The state is longer than 4,096 bytes.
    #[error("the state is longer than 4,096 bytes")]
    StateTooLong = 5,
    /// The last round is still open.
    #[error("the last round is still open")]
    RoundOpen = 20,
    /// There is no further round number.
    #[error("there is no further round number")]
    NoMoreRounds = 23,
    /// The tape is full.
    #[error("the tape is full")]
    TapeFull = 3,
    /// A ring shows no free slot for a marker.
    #[error("a ring shows no free slot for a marker")]
    RingFull = 25,
}

impl BeginWhy {
    /// The number of the refusal, as replies show it.
    pub fn code(self) -> u32
        ensures memory { self ≡ BeginWhy.OutOfMemory → result ≡ 0 }
        ensures lead { self ≡ BeginWhy.NotLead → result ≡ 27 }
        ensures long { self ≡ BeginWhy.StateTooLong → result ≡ 5 }
        ensures round { self ≡ BeginWhy.RoundOpen → result ≡ 20 }
        ensures last { self ≡ BeginWhy.NoMoreRounds → result ≡ 23 }
        ensures full { self ≡ BeginWhy.TapeFull → result ≡ 3 }
        ensures ring { self ≡ BeginWhy.RingFull → result ≡ 25 }
    {
        self as u32
    }
}

/// Why nothing was reported.
#[derive(Clone, Copy, Debug, PartialEq, Eq, Hash, Error)]
pub enum ReportError {
    /// Out of memory.
    #[error("out of memory")]
    OutOfMemory = 0,
}

impl ReportError {
    /// The number of the refusal, as replies show it.
    pub fn code(self) -> u32
        ensures { result ≡ 0 }
    {
        self as u32
    }
}

impl From<AllocError> for ReportError {
    fn from(_refused: AllocError) -> ReportError {
        ReportError::OutOfMemory
    }
}

/// Why nothing was let go.
#[derive(Clone, Copy, Debug, PartialEq, Eq, Hash, Error)]
pub enum ForgetWhy {
    /// Out of memory.
    #[error("out of memory")]
    OutOfMemory = 0,
    /// Of a process more would be let go in all than there are numbers for: `MOST_LET_GO`.
    #[error("more of a process would be let go than there are numbers for")]
    NoMoreNumbers = 50,
}

impl ForgetWhy {
    /// The number of the refusal, as replies show it.
    pub fn code(self) -> u32
        ensures memory { self ≡ ForgetWhy.OutOfMemory → result ≡ 0 }
        ensures numbers { self ≡ ForgetWhy.NoMoreNumbers → result ≡ 50 }
    {
        self as u32
    }
}

impl From<AllocError> for ForgetWhy {
    ghost use Rattle.std.specs.Prelude.{◌≡◌};
    ghost use Rattle.line_posts.specs.declared.refusals.ForgetWhy.TheVariants.{OutOfMemory};

    ghost from_gives = { λ _ e. e ≡ OutOfMemory };

    fn from(_refused: AllocError) -> ForgetWhy {
        ForgetWhy::OutOfMemory
    }
}

/// Why nothing was gathered.
#[derive(Clone, Copy, Debug, PartialEq, Eq, Hash, Error)]
pub enum GatherWhy {
    /// Out of memory.
    #[error("out of memory")]
    OutOfMemory = 0,
    /// A failed process is not below the number of processes.
    #[error("a failed process is not below the number of processes")]
    NoSuchProcess = 1,
    /// The posts are not one for each process, in order.
    #[error("the posts are not one for each process, in order")]
    Unfinished = 28,
}

impl GatherWhy {
    /// The number of the refusal, as replies show it.
    pub fn code(self) -> u32
        ensures memory { self ≡ GatherWhy.OutOfMemory → result ≡ 0 }
        ensures process { self ≡ GatherWhy.NoSuchProcess → result ≡ 1 }
        ensures unfinished { self ≡ GatherWhy.Unfinished → result ≡ 28 }
    {
        self as u32
    }
}

/// Why what was gathered did not go on.
#[derive(Clone, Copy, Debug, PartialEq, Eq, Hash, Error)]
pub enum RestartWhy {
    /// Out of memory.
    #[error("out of memory")]
    OutOfMemory = 0,
    /// A process that goes back has incarnation 65,535.
    #[error("a process that goes back has incarnation 65,535")]
    NoMoreIncarnations = 24,
}

impl RestartWhy {
    /// The number of the refusal, as replies show it.
    pub fn code(self) -> u32
        ensures memory { self ≡ RestartWhy.OutOfMemory → result ≡ 0 }
        ensures incarnations { self ≡ RestartWhy.NoMoreIncarnations → result ≡ 24 }
    {
        self as u32
    }
}
