//! What the machine is asked to do.

use crate::events::State;
use line_names::{Body, ProcId, ProcSet};

/// One step.
#[derive(Debug, Drop)]
pub enum Step {
    /// A process sends a message to another.
    Send {
        from: ProcId,
        to: ProcId,
        body: Body,
    },
    /// A process takes the item at place `pick` of the link from another, or looks at it if it is
    /// the copy of a message that the process does not take. The state may not be too long in any
    /// case, and is stored if the item has the process take a check.
    Deliver {
        from: ProcId,
        to: ProcId,
        pick: u64,
        state: State,
    },
    /// A process takes a check.
    Check {
        at: ProcId,
        state: State,
    },
    /// A process begins the next round: it takes its check of it, and if links keep their order it
    /// puts a marker on each of its own.
    Begin {
        at: ProcId,
        state: State,
    },
    /// A process takes its check of the round that is open, without waiting for a message of it.
    /// There are such turns only where links keep no order.
    Turn {
        at: ProcId,
        state: State,
    },
    /// A check of a process is found to be damaged, and no line goes back to it from then on.
    Damage {
        at: ProcId,
        check: u32,
    },
    /// An operator bars a process, for instance because its results are known to be wrong from this
    /// check on: until the next recovery none of its choices later than the check survives. Check 0
    /// is the initial state.
    Bar {
        at: ProcId,
        check: u32,
    },
    /// The processes of the set failed, and all go on from the latest line.
    Recover {
        failed: ProcSet,
    },
}

/// A step whose message, state or set is lent, so that the caller keeps it. It stands for the step
/// that `shown` says.
#[derive(Clone, Copy, Debug)]
pub enum StepRef<'a> {
    /// A process sends a message of at most `MOST_BODY` bytes to another.
    Send {
        from: ProcId,
        to: ProcId,
        body: &'a [u8],
    },
    /// A process takes the item at place `pick` of the link from another, or looks at it.
    Deliver {
        from: ProcId,
        to: ProcId,
        pick: u64,
        state: &'a [u8],
    },
    /// A process takes a check.
    Check {
        at: ProcId,
        state: &'a [u8],
    },
    /// A process begins the next round.
    Begin {
        at: ProcId,
        state: &'a [u8],
    },
    /// A process takes its check of the round that is open.
    Turn {
        at: ProcId,
        state: &'a [u8],
    },
    /// A check of a process is found to be damaged.
    Damage {
        at: ProcId,
        check: u32,
    },
    /// An operator bars a process.
    Bar {
        at: ProcId,
        check: u32,
    },
    /// The processes of the set failed, and all go on from the latest line.
    Recover {
        failed: &'a ProcSet,
    },
}
