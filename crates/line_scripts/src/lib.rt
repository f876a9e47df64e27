//! Scripts: the commands that the records of a text spell, or its first fault.
#![tactic(auto)]

mod alone;
mod beginnings;
mod blocks;
mod commands;
mod keeping;
mod kinds;
mod laws;
mod names;
mod pieces;
mod readers;
mod scripts;

pub use beginnings::KeptMachine;
pub use blocks::Commands;
pub use commands::{Command, CommandRef, world_of};
pub use laws::{
    scripts_are_read_again, scripts_are_run_as_read, scripts_of_saved_machines_are_read_again,
    version_2_reads_scripts_of_version_1,
};
pub use pieces::ScriptReader;
pub use readers::CommandReader;
pub use scripts::{KeptScript, Script, keep_script, read_script};
