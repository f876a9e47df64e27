//! Short callers of `recline`, one for each job: what to write, and what is proved of it.
//!
//! `docs/LIBRARY.md` shows them. Each answers an `anyhow::Result`, so that `?` takes the errors of
//! all modules; a caller who tells them apart matches on their enums instead.
#![tactic(auto)]

mod claims;
mod histories;
mod recoveries;
mod services;
mod texts;
mod workers;
mod worlds;

pub use claims::{certificate_text, is_latest, is_right};
pub use histories::plan_history;
pub use recoveries::{run_first, run_generation, run_next};
pub use services::answers_to;
pub use texts::replies_to;
pub use workers::plan_exchange;
pub use worlds::run_world;

#[cfg(test)]
mod tests;
