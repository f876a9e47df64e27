//! Laws of tapes and histories: what the definitions of `line_tape` lead to, on every history.
//!
//! A law is a function that does nothing, whose contract is what is proved. The crates above cite
//! the lemmas that the laws rest on; who reads recline's promises begins with `chain_makes_latest`.
#![tactic(auto)]

mod colours;
mod copies;
mod fits;
mod incarnations;
mod laws;
mod links;
mod rounds;

pub use colours::{
    colour_round_holds, colours_change, colours_hold, forced_checks_suffice, turns_tell,
};
pub use copies::copies_hold;
pub use fits::event_fits;
pub use incarnations::names_apart;
pub use laws::{chain_makes_latest, chain_passes_each, latest_is_unique, now_is_latest};
pub use links::{fronts_decide_transit, kept_checks, ordered_fits, restart_fits, transit_parts};
pub use rounds::{
    channels_grow, latest_reaches, marker_round_holds, markers_follow_checks, rounds_complete,
    rounds_stay, snapshots_stay,
};
