//! The tests of the core, and histories worked by hand.
//!
//! A test shows what no clause says and no text reaches: the core called as the program does not
//! call it. Each test, and each law that is computed in the logic, is named for what it shows. The
//! crate has no edits, so that the gate proves each test once.
#![tactic(auto)]

mod worked;

pub use worked::{
    barred_process, consistent_checks, damaged_round, domino, received_after_the_line, replay,
    restart_after_a_replay,
};

#[cfg(test)]
mod tests;
