//! How many workers a generation has, and how many slots a ring.

/// The greatest number of workers of one generation, each of which runs in a thread of its own. A
/// history may have more processes than that: `MOST_PROCESSES` of line_names.
pub const MOST_WORKERS: usize = 64;

/// The greatest capacity of a ring.
pub const MOST_CAPACITY: usize = 1_024;
