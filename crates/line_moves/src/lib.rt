//! What each kind of step does to the tapes, the links and the rounds: the lower half of the core
//! machine.
//!
//! A move changes the parts that it is given: a catalogue of the tapes, the `Links`, the open round
//! of markers or of colours, and the listed rounds. It asks for all its memory before it changes a
//! tape. The crate above decides whether a step is refused and what it is answered, and proves that
//! a move leaves the tapes, links and rounds of a machine.
//!
//! Room on a tape is made by `Catalogue::reserve`. That takes constant time, except that after some
//! thousands of events it looks at the messages sent and received since it last did so. On average
//! that is a constant for each event.
#![tactic(auto)]

mod counts;
mod fates;
mod kept_recorders;
mod leanings;
mod link_items;
mod link_queues;
mod links;
mod listings;
mod moves;
mod openings;
mod recorders;
mod restarts;
mod restores;
mod round_moves;
mod rounds;

pub use fates::Fate;
pub use links::Links;
pub use listings::Listing;
pub use moves::{add_check, add_receipt, put_message, take_copy, take_message};
pub use openings::{OpenRound, is_forced, list_completed};
pub use restarts::{restart_copies, restart_links};
pub use restores::{restarted_incarnations, restored_states};
pub use round_moves::{ArrivedMarker, TurnCheck, begin_round, take_marker, turn_round};
pub use rounds::Round;
