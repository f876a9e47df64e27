//! `recline collect`: reports of what processes did come in any order between processes, and lines
//! are planned from what has come.
#![tactic(auto)]

mod answerers;
mod answering;
mod collections;
mod keeping;
mod kinds;
mod laws;
mod live_collections;
mod live_laws;
mod names;
mod numbers;
mod plan_records;
mod readers;
mod refusals;
mod reports;
mod tellings;
mod whole_names;

pub use answerers::collect;
pub use collections::Collection;
pub use laws::{
    cut_messages_are_not_received, faults_and_refusals_change_nothing,
    histories_follow_each_process, live_lines_stay_consistent, recovered_lines_stay_consistent,
    reports_in_pieces_are_answered_alike,
};
pub use line_text::{MOST_LINE, Outcome, ServeError};
pub use live_collections::LiveCollection;
pub use live_laws::{
    forgets_leave_what_is_left, live_answers_are_of_all, live_collections_answer_as_all,
    live_plans_are_of_all,
};
pub use readers::ReportReader;
pub use refusals::CollectError;
pub use reports::{Report, ReportRef, reports_of};
pub use tellings::Told;
