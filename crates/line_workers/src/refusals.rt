//! Why a drill did not end well, and where.
ghost use Rattle.std.specs.Prelude.{◌≡◌};
ghost use Rattle.line_workers.specs.Faults.{name_of_why, number_of_why, of_no_order};

use line_posts::{FleetError, MOST_CAPACITY, MOST_WORKERS};
use line_tape::MOST_STATE;
use std::fmt;
use thiserror::Error;

/// Why a drill did not end well.
#[derive(Clone, Copy, Debug, PartialEq, Eq, Hash, Error)]
pub enum DrillWhy {
    /// Memory was refused.
    #[error("out of memory")]
    OutOfMemory = 0,
    /// The number is not below the number of processes.
    #[error("the number is not below the number of processes")]
    NoSuchProcess = 1,
    /// The tape has as many events as a tape may have.
    #[error("the tape is full")]
    TapeFull = 3,
    /// The state is longer than a check may store.
    #[error("the state is longer than {MOST_STATE} bytes")]
    StateTooLong = 5,
    /// The number of scripts is not from 1 to `MOST_WORKERS`.
    #[error("the number of scripts is not from 1 to {MOST_WORKERS}")]
    BadCount = 6,
    /// A process exchanges nothing with itself.
    #[error("a process exchanges nothing with itself")]
    ToSelf = 17,
    /// A drill has no rounds, and a marker came.
    #[error("a drill has no rounds, and a marker came")]
    WrongMode = 22,
    /// The gate did not open within the turns.
    #[error("the gate did not open within the turns")]
    HeldOut = 29,
    /// No free slot and no message came within the turns.
    #[error("no free slot and no message came within the turns")]
    WaitedOut = 30,
    /// The capacity is not from 1 to `MOST_CAPACITY`.
    #[error("the capacity is not from 1 to {MOST_CAPACITY}")]
    BadCapacity = 31,
    /// A thread could not be started.
    #[error("a thread could not be started")]
    NoThread = 39,
}

impl DrillWhy {
    /// The number of the refusal, as replies show it.
    pub fn code(self) -> u32
        ensures { result ≡ number_of_why self }
    {
        self as u32
    }

    /// The name that stands beside the number.
    pub fn name(self) -> &'static str
        ensures { result.now ≡ name_of_why self }
    {
        match self {
            DrillWhy::OutOfMemory => "OutOfMemory",
            DrillWhy::NoSuchProcess => "NoSuchProcess",
            DrillWhy::TapeFull => "TapeFull",
            DrillWhy::StateTooLong => "StateTooLong",
            DrillWhy::BadCount => "BadCount",
            DrillWhy::ToSelf => "ToSelf",
            DrillWhy::WrongMode => "WrongMode",
            DrillWhy::HeldOut => "HeldOut",
            DrillWhy::WaitedOut => "WaitedOut",
            DrillWhy::BadCapacity => "BadCapacity",
            DrillWhy::NoThread => "NoThread",
        }
    }
}

/// Why a drill did not end well, and at which order of which worker. Neither is named where the
/// fault is of no order.
#[derive(Clone, Copy, Debug, PartialEq, Eq, Error)]
#[error(fmt = write_fault)]
pub struct DrillError {
    pub worker: Option<u32>,
    /// The place of the order in the worker's script, from 0.
    pub order: Option<u32>,
    pub why: DrillWhy,
}

// Writes the number and the name of the fault, after the order that it is of, if it is of one.
fn write_fault<W: fmt::Write>(
    worker: &Option<u32>,
    order: &Option<u32>,
    why: &DrillWhy,
    f: &mut fmt::Formatter<W>,
) -> fmt::Result {
    let code = why.code();
    let name = why.name();
    match (worker, order) {
        (Some(p), Some(k)) => write!(f, "worker {p} order {k}: {code} {name}"),
        _ => write!(f, "{code} {name}"),
    }
}

/// A fault of no order.
pub(crate) fn of_no_order(why: DrillWhy) -> DrillError
    ensures { result ≡ of_no_order why }
{
    DrillError {
        worker: None,
        order: None,
        why,
    }
}

impl From<FleetError> for DrillError {
    ghost use Rattle.std.specs.Prelude.{◌≡◌};
    ghost use Rattle.line_workers.specs.Faults.{of_no_order, why_of_fleet};

    ghost from_gives = { λ why e. e ≡ of_no_order (why_of_fleet why) };

    fn from(why: FleetError) -> DrillError {
        of_no_order(match why {
            FleetError::OutOfMemory => DrillWhy::OutOfMemory,
            FleetError::BadCount => DrillWhy::BadCount,
            FleetError::BadCapacity => DrillWhy::BadCapacity,
        })
    }
}
