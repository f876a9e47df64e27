//! What becomes of a message that a delivery picks.

/// What becomes of the message.
#[derive(Clone, Copy)]
pub enum Fate {
    /// The process takes it.
    Taken,
    /// Its sender's tape no longer holds it.
    Stale,
    /// The process has received it before.
    Repeated,
}
