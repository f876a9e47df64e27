//! Workers in threads: posts with rings between each two of them, and a collector of their reports.
//!
//! Three layers stand on each other. A ring is a channel of bounded capacity, with one sender and
//! one receiver, that loses nothing and keeps the order of sending (Chandy and Lamport, ACM TOCS
//! 3(1), 1985, ask this of channels): `links` makes rings, which are those of `rtrb`, `ends` looks
//! at what has come and takes it, and `rooms` finds free slots and pushes. A worker owns one end of
//! each of its rings; no call locks or waits. Ends stand in lists by the number of the process at
//! the other end, and a contract sees of an end which ring it is of, what has passed it, and which
//! items or free slots it knows of. What the two ends of one ring have to do with each other is
//! known where they meet in one thread (`meet`, `meet_end`).
//!
//! A `Journal` is the tape of one worker and what it has recorded of rounds of markers. The record
//! follows the tape, event by event: for each recorded round it has, from each other process, the
//! messages that were received after the round's check and before that process's marker. One
//! worker sees only what it has popped, and that markers come in the order of the rounds is a fact
//! of all workers; so whether a marker forces a check is asked of the tape. Room is made before
//! events are added, so in a call of a worker no step can fail once one has changed something.
//!
//! Posts, the collector and what is gathered stand on both, and they alone are for callers.
#![tactic(auto)]

mod accounts;
mod collectors;
mod ends;
mod fleets;
mod forgetting;
mod further;
mod gathered_anew;
mod gathering;
mod journals;
mod keeping;
mod laws;
mod limits;
mod links;
mod markers;
mod parcels;
mod posts;
mod queues;
mod receiving;
mod refusals;
mod replays;
mod reports;
mod restarts;
mod rooms;
mod round_checks;
mod rounds;
mod whole_names;

pub use collectors::Collector;
pub use fleets::fleet;
pub use gathering::{GatherRefused, Gathered, gather};
pub use laws::generations_last;
pub use limits::{MOST_CAPACITY, MOST_WORKERS};
pub use posts::Post;
pub use receiving::Received;
pub use refusals::{
    BeginWhy, FleetError, ForgetWhy, GatherWhy, ReceiveWhy, ReportError, RestartWhy, SendRefused,
    SendWhy,
};
pub use reports::Reported;
pub use restarts::RestartRefused;
