//! What a planner writes down of its way to a line.

use crate::choices::Choice;
use crate::messages::MsgName;
use crate::processes::ProcId;

/// An entry of a certificate: a choice that was passed over, and a message that is an orphan where
/// it is kept.
#[derive(Clone, Copy, Debug, PartialEq, Eq, Hash)]
pub struct Passed {
    pub at: ProcId,
    pub choice: Choice,
    pub message: MsgName,
}

/// The entries in the order in which they are to be tested.
pub type Certificate = Vec<Passed>;
