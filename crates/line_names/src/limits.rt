//! How many, and how long.

/// The greatest number of processes of one computation.
pub const MOST_PROCESSES: usize = 256;

/// The greatest length of a message's body, in bytes.
pub const MOST_BODY: usize = 64;
