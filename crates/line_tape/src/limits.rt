//! How many, and how long.

/// The greatest number of events of one tape.
pub const MOST_EVENTS: usize = 1_000_000;

/// The greatest length of the state that a check stores, in bytes.
pub const MOST_STATE: usize = 4_096;

/// The last incarnation of a process: from it none goes back.
pub const LAST_INCARNATION: u16 = u16::MAX;

/// The number of the last round that can begin.
pub const LAST_ROUND: u32 = 65_535;
