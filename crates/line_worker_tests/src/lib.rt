//! The tests of posts, of workers in threads, and of drills: what no clause says.
//!
//! That calls succeed with ample memory, step by step on one thread and in threads of their own;
//! what is lost of a worker that fails; that a gate is asked. Each test is named for what it shows.
//! The crate has no edits, so that the gate proves each test once.
#![tactic(auto)]

#[cfg(test)]
mod tests;
