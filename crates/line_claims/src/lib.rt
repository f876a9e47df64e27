//! History texts and check texts: what they say, as values.
//!
//! A history text has the tapes of all processes. A check text is a history text and a claim on it:
//! the checks that are damaged, the processes that are barred, those that failed, a line, and the
//! certificate of that line. From version 3 on it may have the whole answer to a recovery: where
//! each process goes on, and the messages that are sent again. A text of version 4 is of what is
//! left of a history, and tells what was let go of each process before it.
#![tactic(auto)]

mod answers;
mod claims;
mod entries;
mod events;
mod faults;
mod floors;
mod histories;
mod judgements;
mod kept;
mod laws;
mod marks;
mod numbers;
mod parts;
mod readers;
mod replays;
mod saved_readers;
mod saved_rounds;
mod saved_texts;
mod saved_writers;
mod spellings;
mod texts;
mod versions;
mod writers;

pub use answers::{put_answer, put_answer_from, put_check_text_from};
pub use claims::Claim;
pub use entries::failed_of;
pub use faults::{TextError, TextFault, error_at, fault_at, name_of, told};
pub use floors::{FloorRef, put_floors};
pub use judgements::{ClaimRef, put_check_text, put_pass};
pub use kept::{write_check_text, write_history};
pub use laws::{
    claims_are_read_again, histories_are_read_again, saved_machines_are_read_again,
    version_2_reads_version_1,
};
pub use numbers::{plain, round, want};
pub use readers::CheckReader;
pub use saved_readers::SavedReader;
pub use saved_rounds::{SavedRound, SavedText};
pub use saved_texts::read_saved;
pub use saved_writers::{put_saved_end, put_saved_front, put_saved_round};
pub use spellings::{choice_field, number_field, numbers_of};
pub use texts::{CheckText, read_certificate, read_check_text, read_history};
pub use versions::{
    LAST_CHECK_VERSION, LAST_VERSION, MOST_IN_FIRST_VERSION, earliest_version, most_in,
};
pub use writers::{put_history, put_history_from};
