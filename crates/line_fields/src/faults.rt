//! What may be wrong with a text, and why a part of it was not read.

ghost use Rattle.std.specs.Prelude.{◌≡◌};
ghost use Rattle.line_fields.specs.Faults.{code_of};

use std::alloc::{AllocError, AllocFailed};
use thiserror::Error;

/// A fault of a text. It is shown by its name, and its number is `code`.
#[derive(Clone, Copy, Debug, PartialEq, Eq, Error)]
pub enum Fault {
    /// A process number isn't below the number of processes.
    #[error("NoSuchProcess")]
    NoSuchProcess,
    /// A body has more bytes than a message may have.
    #[error("BodyTooLong")]
    BodyTooLong,
    /// A tape has more events than a tape may have.
    #[error("TapeFull")]
    TapeFull,
    /// A state has more bytes than a check may store.
    #[error("StateTooLong")]
    StateTooLong,
    /// The number of processes isn't one that a history may have.
    #[error("BadCount")]
    BadCount,
    /// The initial state is marked as damaged.
    #[error("InitialDamage")]
    InitialDamage,
    /// A check is marked as damaged twice.
    #[error("AlreadyDamaged")]
    AlreadyDamaged,
    /// A process is barred at a check that is not lower than its bar before.
    #[error("BarNotLower")]
    BarNotLower,
    /// An unknown first field or mode, a wrong number of fields, a record out of its place, or a
    /// byte that no text has.
    #[error("BadRecord")]
    BadRecord,
    /// A field isn't a number of its range, or isn't pairs of hexadecimal digits.
    #[error("BadNumber")]
    BadNumber,
    /// The first record is missing, or isn't the one that its kind of text begins with.
    #[error("NoWorld")]
    NoWorld,
    /// The version isn't known.
    #[error("BadVersion")]
    BadVersion,
}

impl Fault {
    /// The fault's number, as it is shown beside its name.
    pub fn code(self) -> u32
        ensures { result ≡ code_of self }
    {
        match self {
            Fault::NoSuchProcess => 1,
            Fault::BodyTooLong => 2,
            Fault::TapeFull => 3,
            Fault::StateTooLong => 5,
            Fault::BadCount => 6,
            Fault::InitialDamage => 7,
            Fault::AlreadyDamaged => 8,
            Fault::BarNotLower => 40,
            Fault::BadRecord => 32,
            Fault::BadNumber => 33,
            Fault::NoWorld => 34,
            Fault::BadVersion => 35,
        }
    }
}

/// Why a part of a text was not read.
#[derive(Clone, Copy, Debug, PartialEq, Eq, Error)]
pub enum ReadError {
    /// A growth was refused.
    #[error("OutOfMemory")]
    OutOfMemory,
    /// The text has this fault.
    #[error(transparent)]
    Fault(Fault),
}

impl From<AllocError> for ReadError {
    ghost use Rattle.line_fields.specs.declared.faults.ReadError.TheVariants.{OutOfMemory};

    ghost from_gives = { λ _ e. e ≡ OutOfMemory };

    fn from(_e: AllocError) -> ReadError {
        ReadError::OutOfMemory
    }
}

impl<T: Drop> From<AllocFailed<T>> for ReadError {
    ghost use Rattle.line_fields.specs.declared.faults.ReadError.TheVariants.{OutOfMemory};

    ghost from_gives = { λ _ e. e ≡ OutOfMemory };

    fn from(_e: AllocFailed<T>) -> ReadError {
        ReadError::OutOfMemory
    }
}

impl From<Fault> for ReadError {
    ghost use Rattle.line_fields.specs.declared.faults.ReadError.TheVariants as errors;

    ghost from_gives = { λ fault e. e ≡ errors.Fault fault };

    fn from(fault: Fault) -> ReadError {
        ReadError::Fault(fault)
    }
}
