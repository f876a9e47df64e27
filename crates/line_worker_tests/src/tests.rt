//! Workers, and drills of them.
use std::alloc::Global;
use std::fmt::Display;

mod drills;
mod workers;

/// Whether a value reads so.
fn reads<D: Display + Drop>(alloc: Global, value: D, words: &str) -> bool {
    match format!(in alloc; "{value}") {
        Ok(text) => text.as_str() == words,
        Err(_) => false,
    }
}
