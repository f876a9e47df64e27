//! The command of one record at a time.

ghost use Rattle.std.specs.Prelude.{◌≡◌, ◌≤◌};
ghost use Rattle.line_fields.specs.Fields.{Gives};
ghost use Rattle.line_names.specs.declared.limits.TheConstants.{MOST_PROCESSES};
ghost use Rattle.line_scripts.specs.Scripts.{command_in};
ghost use Rattle.line_scripts.specs.Shown.{HasShortBodyInStep, command_of_ref};

use crate::commands::{Command, CommandRef, command_in};
use crate::keeping::{Kept, lent, long_of};
use line_fields::{FieldRow, ReadError};
use std::alloc::Global;
use std::marker::Model;

/// The command that a record spells, in room that is used again for the next record.
///
/// It is for records that come one by one, which no script keeps. The room is as large as the bytes
/// of the longest message or state so far.
#[derive(Drop)]
pub struct CommandReader {
    alloc: Global,
    kept: Kept,
    // What it carries, at its beginning.
    bytes: Vec<u8>,
}

impl Model for CommandReader {
    ghost use Rattle.std.specs.Prelude.{◌≤◌, length, take};
    ghost use Rattle.line_scripts.specs.declared.commands.Command.{Command};

    ghost Value = { Command };

    ghost use Rattle.line_scripts.specs.Keeping.{HasShortMessage, long_of, with_bytes};

    ghost view = { λ s. with_bytes s.kept (take (long_of s.kept) s.bytes.items) };

    ghost invariant = { λ s. (long_of s.kept ≤ length s.bytes.items) × HasShortMessage s.kept };
}

impl CommandReader {
    /// A reader that has read no record: its command is `Rounds`. It takes no memory.
    pub fn new(alloc: Global) -> CommandReader
        ensures { result ≡ Command.Rounds }
    {
        CommandReader {
            alloc,
            kept: Kept::Rounds,
            bytes: Vec::new(alloc),
        }
    }

    /// Reads the command that a record after the first spells, among `n` processes, or its first
    /// fault.
    ///
    /// It takes memory for a set of processes, and where the bytes of a message or a state are more
    /// than those of each record before.
    pub fn read(&mut self, n: u32, row: &FieldRow<'_>) -> Result<(), ReadError>
        requires { n ≤ MOST_PROCESSES }
        ensures { Gives (λ _. self.new) result (command_in n row.now) }
    {
        self.kept = Kept::Rounds;
        self.bytes.clear();
        self.kept = command_in(self.alloc, n, row, &mut self.bytes)?;
        Ok(())
    }

    /// The command that was read last, its message, state or set lent.
    pub fn command(&self) -> CommandRef<'_>
        ensures value { command_of_ref result ≡ self.now }
        ensures short { HasShortBodyInStep result }
    {
        lent(&self.kept, &self.bytes[..long_of(&self.kept)])
    }
}
