//! What an answer to a recovery says beside its line: where each process goes on, and which
//! messages are sent again.

use line_names::{Body, Line, MsgName, Passed, ProcId};
use line_tape::State;

/// Where a process goes on.
#[derive(Debug, Drop)]
pub struct Start {
    /// The incarnation that it goes on in.
    pub inc: u16,
    /// The state that it goes on from; none where it goes on from where it stands.
    pub state: Option<State>,
}

/// A message that is sent again.
#[derive(Debug, Drop)]
pub struct Replay {
    /// Its name.
    pub message: MsgName,
    /// The process that it is for.
    pub to: ProcId,
    /// How many events stand before its Send on the tape of its sender.
    pub place: u32,
    /// What it carries.
    pub body: Body,
}

/// A message that is sent again, its body lent.
#[derive(Clone, Copy, Debug)]
pub struct ReplayRef<'a> {
    /// Its name.
    pub message: MsgName,
    /// The process that it is for.
    pub to: ProcId,
    /// How many events stand before its Send on the tape of its sender.
    pub place: u32,
    /// What it carries.
    pub body: &'a [u8],
}

/// The answer to a recovery, lent: a line and the certificate that it is the latest, where each
/// process goes on, and the messages that are sent again, by sender, then number.
#[derive(Clone, Copy)]
pub struct AnswerRef<'a> {
    /// The line.
    pub line: &'a Line,
    /// The entries of its certificate, in the order in which they are to be tested.
    pub certificate: &'a [Passed],
    /// Where each process goes on, in the order of the processes.
    pub starts: &'a [Start],
    /// The messages that are sent again.
    pub replays: &'a [Replay],
}
