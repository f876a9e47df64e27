//! Vectors: how much each process has heard of the others, and how much each has sent before a
//! line.
//!
//! In a history that agrees, a message that was received is sent before a line exactly where its
//! number is below the sends before its sender's choice. So of all that a process received from
//! another the greatest number alone decides, and a vector of such numbers, one lane for each
//! process, decides for all: a choice has received no message that is not sent before the line
//! exactly where no lane of its vector is over the count of sends there. `Reach` is the one vector,
//! `Sent` the other; what is asked of both is asked of kernels, which compare two lists of numbers
//! place by place, eight places at a time (`std::simd`), and what is left one by one.
//!
//! A vector of n processes has n lanes of four bytes. Making one and copying one take memory; no
//! other call does. `ReachRef` is a vector whose lanes something else keeps, as one of many in a
//! list.
#![tactic(auto)]

mod blocks;
mod kernels;
mod laws;
mod limits;
mod parts;
mod reaches;
mod sents;

pub use kernels::{all_le, count_over, first_over, first_over_from, max_into};
pub use laws::{
    kept_vectors_stay, lanes_are_greatest, present_vectors_are_the_choices, receipts_note,
};
pub use limits::LAST_NUMBER;
pub use parts::{PART, part_count, part_of_lanes};
pub use reaches::{Reach, ReachRef};
pub use sents::Sent;
