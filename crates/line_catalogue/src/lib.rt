//! Catalogues: a history that agrees with itself and its marks of damage, kept as one value that
//! answers what a planner asks.
//!
//! A history agrees where each received message is named as its sender sent it, or as the sender
//! would send it later under its present incarnation. A catalogue takes no other history, and no
//! event that would make it disagree; its marks are on checks that there are.
#![tactic(auto)]

mod additions;
mod agreement;
mod candidates;
mod catalogues;
mod ends;
mod kept_lines;
mod kept_rows;
mod known;
mod laid;
mod laws;
mod ledgers;
mod numbers;
mod olds;
mod refusals;
mod rows;
mod senders;
mod settlings;
mod strangers;
mod tables;
mod transits;

pub use catalogues::Catalogue;
pub use kept_rows::{Row, Rows};
pub use laws::{lanes_name_orphans, numbers_decide, vectors_decide};
pub use refusals::{AddError, CatalogueError, DamageError};
