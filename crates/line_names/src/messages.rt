//! Names of messages.

use crate::processes::ProcId;

/// The name of a message: its sender, the incarnation that the sender had, and its number among the
/// sends of the sender's tape, from 0.
///
/// Names are ordered by these fields. After a restart a process sends under a new incarnation, so
/// the message that takes an old one's place has another name.
#[derive(Clone, Copy, Debug, PartialEq, Eq, PartialOrd, Ord, Hash)]
pub struct MsgName {
    pub from: ProcId,
    pub inc: u16,
    pub number: u32,
}
