//! The tests of the texts: what no clause says and no input of the program reaches.
//!
//! Devices that fail, or that give a byte at a time; what is put at once of long replies; records
//! beside those of `csv`. Each test is named for what it shows. The crate has no edits, so that the
//! gate proves each test once.
#![tactic(auto)]

#[cfg(test)]
mod tests;
