//! The planner: the latest line of surviving choices that has no orphan, and a certificate that it
//! is.
#![tactic(auto)]

mod dirty;
mod orphans;
mod planner;
mod plans;

pub use planner::plan;
pub use plans::{Plan, PlanError};
