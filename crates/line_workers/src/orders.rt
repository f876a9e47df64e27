//! What a worker of a drill does.
use line_names::{Body, ProcId};
use line_tape::State;

/// One order of a script.
#[derive(Debug, Drop)]
pub enum Order {
    /// A message goes to another process.
    Send { to: ProcId, body: Body },
    /// The next message from another process is received.
    Receive { from: ProcId },
    /// A check stores this state.
    Check { state: State },
}
