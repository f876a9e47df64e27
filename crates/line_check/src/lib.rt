//! The checker: whether a claimed line is the latest one, and whether the whole answer to a
//! recovery is right, judged from the history alone.
//!
//! It knows the tapes, the marks of damage, the bars and who failed, and nothing of how the claim
//! was made: whoever does not trust a planner can have its plan judged here. No call takes memory.
#![tactic(auto)]

mod answers;
mod checker;
mod cursors;
mod faults;
mod laws;
mod replays;
mod shapes;
mod starts;
mod verdicts;

pub use answers::{AnswerRef, Replay, ReplayRef, Start};
pub use checker::{check_certificate, check_consistent};
pub use cursors::{ReplayCursor, next_replay};
pub use faults::{CertFault, FaultCode, LineFault};
pub use laws::{plans_make_right_answers, right_answers_restart};
pub use verdicts::check_answer;
