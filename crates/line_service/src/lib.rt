//! A service that stays: records of a script come for as long as they like, and each is answered
//! before more is asked for.
#![tactic(auto)]

mod file_reads;
mod files;
mod laws;
mod machines;
mod nowhere;
mod services;
mod texts;

pub use files::open_saved_text;
pub use laws::{
    faults_change_nothing, pieces_are_answered_alike, saved_machines_are_served,
    saved_scripts_are_served_as_they_run, saved_texts_are_read_by_lines,
    scripts_are_served_as_they_run,
};
pub use line_text::{MOST_LINE, Outcome, ServeError};
pub use services::{Service, serve, serve_from, serve_turn};
