//! Tapes and histories, with the definitions that every other crate of recline cites.
//!
//! A history has one tape of events for each process. A choice of a process is its initial state,
//! one of its checks or where it stands now; a line picks one choice for each process. What is
//! consistent, which line is the latest, what is in transit and what a restart leaves is defined in
//! `specs/`, over plain lists of events.
//!
//! What a machine is asked to do, one step at a time, is here too (`Step`, and `StepRef`, which
//! lends what a step carries), so that whoever reads or writes steps needs no machine for it; and
//! how links deliver (`Mode`).
#![tactic(auto)]

mod bars;
mod events;
mod flags;
mod histories;
mod items;
mod limits;
mod lines;
mod logs;
mod marks;
mod modes;
mod receipts;
mod steps;
mod survival;
mod tapes;
mod transits;

pub use bars::BarError;
pub use events::{Event, EventRef, State};
pub use flags::ReceivedFlags;
pub use histories::{CountError, History, HistoryError};
pub use items::Item;
pub use limits::{LAST_INCARNATION, LAST_ROUND, MOST_EVENTS, MOST_STATE};
pub use lines::{is_consistent, is_line, is_sent_before, orphan_among, orphan_on_tape};
pub use logs::Events;
pub use marks::{MarkError, Marks};
pub use modes::Mode;
pub use steps::{Step, StepRef};
pub use survival::{first_ceilings, latest_choice, next_lower, survives};
pub use tapes::{Tape, TapeError};
