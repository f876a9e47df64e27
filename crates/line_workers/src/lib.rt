//! Workers in threads of their own: what a caller of `line_posts` writes, proved.
//!
//! A caller opens a generation by `fleet`, gives each post, and the collector, to a thread, joins
//! the threads, and calls `gather`. Each thread may make any calls of its own post. `gather` asks
//! for posts and a collector of one generation, and they still are when they come back: this
//! follows from what each thread promises of its own post, or of the collector. `run_crew` starts
//! and joins the threads for any `Work`, and `run` does all of it, from the fleet to the gathered
//! history.
//!
//! A drill has workers that each do a script. What comes of it follows from the scripts alone,
//! however the threads take turns: where it ends well, each tape is the one that the scripts make.
//! A gate can hold workers back before each order, so that a caller tries turns of its own choice.
//! `drill_text` makes up a drill for so many workers and rounds, and writes the history that is
//! gathered of it.
#![tactic(auto)]

mod crews;
mod drills;
mod gates;
mod loads;
mod made_drills;
mod orders;
mod refusals;
mod routines;
mod runs;
mod workers;

pub use crews::{NoThread, Work, run_crew};
pub use drills::drill;
pub use gates::Gate;
pub use loads::{Exchange, Stream};
pub use made_drills::drill_text;
pub use orders::Order;
pub use refusals::{DrillError, DrillWhy};
pub use routines::Routine;
pub use runs::{RunError, run};
