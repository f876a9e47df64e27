//! What is left of a history cut at a line of checks, and what it still says of the whole.
//!
//! A process that cannot go back before a check needs nothing from before it. The laws say that
//! what is left answers for the whole: the same lines are consistent, the latest line, its
//! certificate and what is in transit are the same, with names and numbers brought back. The calls
//! find the floor at a line, and make what is left of a history, of its marks and of a catalogue of
//! both.
#![tactic(auto)]

mod agreed;
mod catalogues;
mod cuts;
mod floors;
mod found_floors;
mod histories;
mod laws;
mod left_events;
mod marked;
mod whole_floors;
mod whole_names;

pub use agreed::{agreed_cuts_plan_alike, agreed_floors_follow};
pub use catalogues::cut_catalogue;
pub use cuts::{
    cut_agrees, cut_chain, cut_consistent, cut_goes_on, cut_latest, cut_links, cut_rounds,
    cut_snapshots, cut_transit, cut_twice, floors_are_found, later_floors,
};
pub use floors::{MOST_LET_GO, OwnedFloor};
pub use found_floors::floor_at;
pub use histories::cut_history;
pub use laws::same_marks_plan_alike;
pub use left_events::{cut_name, cut_round};
pub use marked::cut_marks;
pub use whole_floors::whole_floor;
pub use whole_names::{bring_entries, bring_line, bring_names, whole_check, whole_name};

#[cfg(test)]
mod tests;
