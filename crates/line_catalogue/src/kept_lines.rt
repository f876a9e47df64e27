//! A line that a ledger keeps.

use line_names::MsgName;

/// A line that is kept, lent: what stands before it, and what was in transit there.
#[derive(Clone, Copy)]
pub struct KeptLine<'a> {
    /// How many sends of each process stand before the line.
    pub starts: &'a [u32],
    /// How many events of each process stand before the line.
    pub places: &'a [u32],
    /// The messages in transit there, by sender and then by number.
    pub left: &'a [MsgName],
    /// Whether the line is closed: all that was received before it is known to be sent before it.
    pub closed: bool,
}
