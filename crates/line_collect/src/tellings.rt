//! What becomes of a report that is taken.

use line_names::{MsgName, ProcId};

/// What became of a report that was taken.
#[derive(Clone, Copy, Debug, PartialEq, Eq)]
pub enum Told {
    /// A message was sent. It has this name.
    Sent(MsgName),
    /// A message was received.
    Took(MsgName),
    /// A process took a check.
    Checked {
        /// The process.
        at: ProcId,
        /// The index of the check.
        check: u32,
    },
    /// The marker of a round came to a process.
    Marked(u32),
    /// A check is marked as damaged now.
    Damaged {
        /// The process.
        at: ProcId,
        /// The index of the check.
        check: u32,
    },
    /// A process is barred now.
    Barred {
        /// The process.
        at: ProcId,
        /// The index of the check that it is barred at.
        check: u32,
    },
}
