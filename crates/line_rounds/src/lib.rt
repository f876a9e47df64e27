//! Rounds of checks: the rules by which one process takes part, and what a machine keeps of rounds
//! so that no step looks through a tape.
//!
//! On links that keep their order, Chandy and Lamport's two rules (ACM TOCS 3(1), 1985). A process
//! that records its state sends a marker on each outgoing channel before any further message. A
//! process that receives a marker of a round that it has not recorded records first, and the
//! channel on which the marker came is empty in that round; one that has recorded takes the
//! messages that came on that channel after its recording and before the marker. Channels lose
//! nothing and keep the order of sending. A `Marker` keeps what one process has recorded of each
//! round; sending markers, and taking the check of the round, is its caller's.
//!
//! On links that keep no order, the rule of Lai and Yang (Information Processing Letters 25(3),
//! 1987).
//! In that snapshot a process is white, and turns red when it takes its part; a message has the
//! colour that its sender has where it is sent, and a white process takes its part before it
//! receives a red message. So channels need not keep the order of sending, and there are no
//! markers. Here rounds have numbers from 1 in place of the two colours, so that one snapshot can
//! follow another: a process's colour is the greatest round number of the checks on its tape, or 0
//! where it has none; a message has its sender's colour where its send stands; and before a
//! receiver takes a message of a greater colour it takes a check of that number.
//!
//! - `Colour` is the rule for one process. It takes no memory, and each call takes constant time.
//! - `Colours` keeps the colour of each process, and the turns, from which the colour of each
//!   message that it sent is known. The two tell which check a process has to take before it
//!   receives a message.
//! - `Turning` keeps the round that is open: which processes have their check of it, and the line
//!   that these make. An open round of markers keeps its number and its checks by it too.
//! - `Channels` keeps what is in transit at a line from each process to each other: the channels of
//!   a completed round. By `SharedChannels` several rounds share them.
//! - `ReceivedSends` keeps of each send whether it is received, which tells whether a copy comes
//!   again.
//!
//! The tapes are kept elsewhere. Each clause speaks of any history that the value follows, and says
//! how it goes on following it after an event and after a restart.
#![tactic(auto)]

mod by_sender;
mod channels;
mod colours;
mod errors;
mod inboxes;
mod laws;
mod logs;
mod markers;
mod parts;
mod received;
mod rules;
mod runs;
mod shares;
mod spans;
mod turnings;

pub use channels::Channels;
pub use colours::Colours;
pub use errors::{BeginError, MarkerError};
pub use laws::{last_check_completes, other_events_keep};
pub use markers::{Effect, Marker};
pub use received::ReceivedSends;
pub use rules::{Colour, ColourError};
pub use shares::SharedChannels;
pub use turnings::Turning;
