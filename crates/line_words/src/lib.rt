//! The command line of the program: the job that its words ask for, or why they ask for none.
#![tactic(auto)]

mod commands;
mod faults;
mod helps;
mod jobs;
mod readings;
mod remedies;
mod words;

pub use faults::WordsFault;
pub use jobs::{Job, MOST_DRILL_WORKERS};
pub use readings::fault_of_reading;
pub use remedies::line_with_file;
pub use words::{command_of, jobs_are_taken};
