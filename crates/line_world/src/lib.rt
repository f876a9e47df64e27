//! The core machine: processes that send, deliver, take checks and recover, one step at a time.
//!
//! A `World` holds what each process did and answers steps, as the machine of `specs/` may answer
//! them. That machine has no queues where links keep their order: there a link holds what was sent
//! on it and not received yet. Without an order each link holds copies, which stay when they are
//! delivered. What a step does to the tapes, the links and the rounds is in `line_moves`; what
//! refuses a step, and what it is answered, is here. Snapshots are taken in rounds: of markers
//! where links keep their order (Chandy and Lamport, ACM TOCS 3(1), 1985), of colours where they do
//! not (Lai and Yang, Information Processing Letters 25(3), 1987).
#![tactic(auto)]

mod idle;
mod laws;
mod protocols;
mod replies;
mod worlds;

pub use idle::is_idle;
pub use laws::{runs_keep_rounds, runs_name_apart};
pub use line_moves::Round;
pub use line_tape::{Mode, Step, StepRef};
pub use replies::{Answer, Reply, RunStopped, StepError};
pub use worlds::World;
