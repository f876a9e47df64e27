//! How far a lane counts.

/// The greatest number that a message can have: 4,294,967,295. One more than it is no `u32`, so a
/// vector keeps it as the number before it; no tape has as many sends as either.
pub const LAST_NUMBER: u32 = u32::MAX;
