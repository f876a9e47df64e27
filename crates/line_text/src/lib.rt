//! Runs of texts: a script is read, its steps are taken and their replies written; and check texts
//! are judged.
//!
//! Also what runs and services stand on: commands one by one, each of which is done, and what it is
//! told is written; and conversations, in which records come for as long as they like, in bytes
//! that are cut anywhere, and each is answered before more is asked for, whoever answers.
#![tactic(auto)]

mod answerers;
mod commands;
mod conversations;
mod ends;
mod engines;
mod faults;
mod forgets;
mod halts;
mod hearings;
mod judgings;
mod laws;
mod limits;
mod lines;
mod listings;
mod live_laws;
mod openings;
mod outcomes;
mod records;
mod replies;
mod rounds;
mod saves;
mod seats;
mod stops;
mod texts;
mod turns;
mod views;
mod windows;

pub use answerers::Answerer;
pub use commands::do_command;
pub use conversations::Conversation;
pub use engines::{Done, run_text};
pub use faults::ServeError;
pub use forgets::{put_let_go, refusal_number};
pub use halts::Halt;
pub use judgings::check_text;
pub use laws::{
    claims_are_judged_alike_whatever_was_let_go, claims_of_version_1_are_judged_alike_in_version_2,
    scripts_of_both_versions_run_alike,
};
pub use limits::MOST_LINE;
pub use line_claims::{Claim, TextFault, name_of, read_certificate, read_history, write_history};
pub use line_scripts::{Command, Script, read_script};
pub use live_laws::live_lines_stay;
pub use openings::{OpenError, open_saved};
pub use outcomes::Outcome;
pub use replies::{put_certificate, put_refusal, put_replays, put_reply, write_reply};
pub use stops::Stop;
pub use texts::{put_left_claim, put_left_history};
pub use turns::{converse, hear_out, take_turn};
pub use views::everybody;
