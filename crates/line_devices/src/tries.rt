//! How long a call is made again.

/// How often a call is made that a signal interrupts each time, at most. After that the device has
/// failed.
pub(crate) const TRIES: u32 = 1_000_000;
