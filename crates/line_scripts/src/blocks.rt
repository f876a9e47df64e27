//! Commands that wait to be done, in blocks that are let go one by one.

ghost use Rattle.std.specs.Prelude.{◌≡◌, ◌+◌, ◌^◌, ◌≤◌, ◌<◌, ◌∷◌, [], drop, length};
ghost use Rattle.std.specs.Prelude.{IfNone, IfSome, OnErr, OnOk};
ghost use Rattle.std.specs.List.{AllByRecursion};
ghost use Rattle.std.specs.VecDeque.{deque_capacity, deque_len};
ghost use Rattle.line_names.specs.declared.limits.TheConstants.{MOST_PROCESSES};
ghost use Rattle.line_fields.specs.Fields.{Gives};
ghost use Rattle.line_scripts.specs.Blocks.{AreCommandBlocks, AreCommandsLeft, ArePackedFrom};
ghost use Rattle.line_scripts.specs.Blocks.{HasCommand, IsPacked, commands_in, commands_left};
ghost use Rattle.line_scripts.specs.Blocks.{commands_of_blocks, with_command};
ghost use Rattle.line_scripts.specs.Scripts as spec;
ghost use Rattle.line_scripts.specs.Shown.{HasShortBodyInStep, command_of_ref};

use crate::commands::{Command, CommandRef, command_in};
use crate::keeping::{Kept, lent, long_of};
use line_fields::{FieldRow, ReadError};
use std::alloc::{AllocError, Global};
use std::collections::VecDeque;
use std::marker::Model;
use std::mem;

// How many commands a full block has. They take 64 KiB: for a list of 128 KiB or more malloc asks
// the system, which clears each page of it, and gives it back to the system when it is let go.
const IN_BLOCK: usize = 4096;

// The commands of as many full blocks would take 2 ^ 64 bytes.
const MOST_BLOCKS: usize = 281_474_976_710_656;

/// Commands one after another, and the bytes that they carry, in their order.
#[derive(Drop)]
pub(crate) struct Block {
    kept: Vec<Kept>,
    bytes: Vec<u8>,
}

/// Commands that are kept as they are read.
#[derive(Drop)]
pub(crate) struct Blocks {
    full: VecDeque<Block>,
    last: Block,
}

impl Model for Blocks {
    ghost use Rattle.std.specs.Prelude.{List};
    ghost use Rattle.line_scripts.specs.declared.commands.Command.{Command};
    ghost use Rattle.line_scripts.specs.Blocks.{AreCommandBlocks, commands_in};

    ghost Value = { List Command };

    ghost view = { λ b. commands_in b.full.items b.last };

    ghost invariant = { λ b. AreCommandBlocks b.full.items b.last };
}

// Puts the last block, which is full, after the others, and begins a new one.
#[cold]
#[inline(never)]
fn begin_block(
    alloc: Global,
    full: &mut VecDeque<Block>,
    last: &mut Block,
) -> Result<(), AllocError>
    requires blocks { AreCommandBlocks full.old.items last.old }
    requires long { length last.old.kept.items ≡ IN_BLOCK }
    ensures same { commands_in full.new.items last.new ≡ commands_in full.old.items last.old }
    ensures blocks { AreCommandBlocks full.new.items last.new }
    ensures room { OnOk result (length last.new.kept.items < IN_BLOCK) }
{
    if full.len() >= MOST_BLOCKS {
        return Err(AllocError);
    }
    full.reserve(1)?;
    let next = Block {
        kept: Vec::with_capacity(alloc, IN_BLOCK)?,
        bytes: Vec::new(alloc),
    };
    full.push_back_reserved(mem::replace(last, next));
    Ok(())
}

// Where the last block is full, another one is begun.
#[inline(always)]
fn make_room(alloc: Global, full: &mut VecDeque<Block>, last: &mut Block) -> Result<(), AllocError>
    requires { AreCommandBlocks full.old.items last.old }
    ensures same { commands_in full.new.items last.new ≡ commands_in full.old.items last.old }
    ensures blocks { AreCommandBlocks full.new.items last.new }
    ensures room { OnOk result (length last.new.kept.items < IN_BLOCK) }
{
    if last.kept.len() < IN_BLOCK {
        return Ok(());
    }
    begin_block(alloc, full, last)
}

impl Blocks {
    /// No commands. It takes no memory.
    pub(crate) fn new(alloc: Global) -> Blocks
        ensures { result ≡ [] }
    {
        Blocks {
            full: VecDeque::new(alloc),
            last: Block {
                kept: Vec::new(alloc),
                bytes: Vec::new(alloc),
            },
        }
    }

    /// How many they are.
    pub(crate) fn count(&self) -> u64
        ensures count { result ≡ length self.now }
        ensures few { result + 2 ^ 63 < 2 ^ 64 }
    {
        let in_full = self.full.len() as u64 * IN_BLOCK as u64;
        in_full + self.last.kept.len() as u64
    }

    /// Keeps the command of one more record.
    #[inline(always)]
    pub(crate) fn keep(
        &mut self,
        alloc: Global,
        n: u32,
        row: &FieldRow<'_>,
    ) -> Result<(), ReadError>
        requires { n ≤ MOST_PROCESSES }
        ensures exact { Gives (λ _. self.new) result
            (with_command self.old (spec.command_in n row.now)) }
        ensures err { OnErr result (self.new ≡ self.old) }
    {
        make_room(alloc, &mut self.full, &mut self.last)?;
        self.last.kept.reserve(1)?;
        let long = self.last.bytes.len();
        match command_in(alloc, n, row, &mut self.last.bytes) {
            Ok(command) => {
                self.last.kept.push_reserved(command);
                Ok(())
            }
            Err(error) => {
                self.last.bytes.truncate(long);
                Err(error)
            }
        }
    }
}

/// Commands that wait to be done, the first one first.
///
/// Each takes 16 bytes beside those of its message or state, and a pick of more than 32 bits takes
/// 16 more. They stand in blocks of 4096, with their messages and states. Once all commands of a
/// block are done it is let go, unless it is the last one.
#[derive(Drop)]
pub struct Commands {
    // That of the first command that is left.
    block: Block,
    // How many of its commands, the first ones, are done.
    gone: usize,
    // Where the bytes of the first one that is left begin.
    at: usize,
    // Those after it, each of which has a command.
    others: VecDeque<Block>,
}

impl Model for Commands {
    ghost use Rattle.std.specs.Prelude.{List};
    ghost use Rattle.line_scripts.specs.declared.commands.Command.{Command};
    ghost use Rattle.line_scripts.specs.Blocks.{AreCommandsLeft, commands_left};

    ghost Value = { List Command };

    ghost view = { λ c. commands_left c.block c.gone c.at c.others.items };

    ghost invariant = { λ c. AreCommandsLeft c.block c.gone c.at c.others.items };
}

// Puts the last block after the others, if it has a command.
fn put_last(others: &mut VecDeque<Block>, last: Block)
    requires room { deque_len others.old < deque_capacity others.old }
    requires others { AllByRecursion HasCommand others.old.items }
    requires last { IsPacked last }
    ensures same { commands_of_blocks others.new.items ≡ commands_in others.old.items last }
    ensures others { AllByRecursion HasCommand others.new.items }
{
    if !last.kept.is_empty() {
        others.push_back_reserved(last);
    }
}

// Goes on with the next block, if there is one, and lets that one go whose commands are done.
#[cold]
#[inline(never)]
fn begin_next(block: &mut Block, gone: &mut usize, at: &mut usize, others: &mut VecDeque<Block>)
    requires done { gone.old ≡ length block.old.kept.items }
    requires packed { ArePackedFrom block.old gone.old at.old }
    requires others { AllByRecursion HasCommand others.old.items }
    ensures same { commands_left block.new gone.new at.new others.new.items
        ≡ commands_of_blocks others.old.items }
    ensures left { AreCommandsLeft block.new gone.new at.new others.new.items }
{
    let Some(next) = others.pop_front() else {
        return;
    };
    *block = next;
    *gone = 0;
    *at = 0;
}

impl Commands {
    /// Those that were kept, in their order. It takes no memory.
    pub(crate) fn of(blocks: Blocks) -> Commands
        ensures same { result ≡ blocks }
        ensures few { length blocks + 2 ^ 63 < 2 ^ 64 }
    {
        let Blocks { full, last } = blocks;
        let mut others = full;
        let Some(block) = others.pop_front() else {
            return Commands {
                block: last,
                gone: 0,
                at: 0,
                others,
            };
        };
        put_last(&mut others, last);
        Commands {
            block,
            gone: 0,
            at: 0,
            others,
        }
    }

    /// The first one, its message, state or set lent, if there is one.
    pub fn first(&self) -> Option<CommandRef<'_>>
        ensures some { IfSome result
            (λ command. self.now ≡ command_of_ref command ∷ drop 1 self.now) }
        ensures short { IfSome result HasShortBodyInStep }
        ensures none { IfNone result (self.now ≡ []) }
    {
        let first = self.block.kept.get(self.gone)?;
        let own = &self.block.bytes[self.at..self.at + long_of(first)];
        Some(lent(first, own))
    }

    /// Lets the first one go, if there is one.
    pub fn drop_first(&mut self)
        ensures { self.new ≡ drop 1 self.old }
    {
        let Some(first) = self.block.kept.get(self.gone) else {
            return;
        };
        self.at += long_of(first);
        self.gone += 1;
        if self.gone < self.block.kept.len() {
            return;
        }
        begin_next(
            &mut self.block,
            &mut self.gone,
            &mut self.at,
            &mut self.others,
        );
    }
}
