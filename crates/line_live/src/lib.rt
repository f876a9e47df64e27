//! The machine that lets go what stands before a line of checks, and the code by which what is left
//! becomes a world of its own.
#![tactic(auto)]

mod forgets;
mod held;
mod kept_steps;
mod laws;
mod life_laws;
mod listed;
mod live_floors;
mod lives;
mod machine_laws;
mod refusals;
mod resumed;
mod whole_names;
mod worlds;

pub use forgets::forget_round;
pub use laws::{
    found_floors_may_be_taken, kept_machines_answer_as_whole, kept_machines_let_go_further,
    same_machines_answer_alike,
};
pub use life_laws::{live_steps_answer_as_whole, lives_answer_as_whole};
pub use line_cuts::{
    MOST_LET_GO, OwnedFloor, cut_catalogue, cut_history, cut_marks, floor_at,
    same_marks_plan_alike, whole_floor,
};
pub use live_floors::forget_live;
pub use lives::Live;
pub use machine_laws::{
    forgets_as_one, lives_as_whole, lives_begin, lives_go_further, lives_go_on, lives_stay_sound,
    runs_as_whole,
};
pub use refusals::{ForgetError, ResumeError};
pub use resumed::RoundChecks;
pub use worlds::cut_world;
