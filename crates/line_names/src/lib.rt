//! What processes, messages, choices, lines and certificates are called.
//!
//! These are the words that every other crate of recline speaks in. Nothing here takes memory, but
//! for a `Certificate` that grows.
#![tactic(auto)]

mod bodies;
mod certificates;
mod choices;
mod limits;
mod lines;
mod messages;
mod processes;

pub use bodies::{Body, BodyError};
pub use certificates::{Certificate, Passed};
pub use choices::Choice;
pub use limits::{MOST_BODY, MOST_PROCESSES};
pub use lines::Line;
pub use messages::MsgName;
pub use processes::{ProcId, ProcIdError, ProcSet};
