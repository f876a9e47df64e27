//! What links carry.
use line_names::MsgName;

/// An item of a link: a message, or the marker of a round.
#[derive(Clone, Copy, Debug, PartialEq, Eq)]
pub enum Item {
    /// A message, by its name.
    Message(MsgName),
    /// The marker of a round, by the round's number.
    Marker(u32),
}
