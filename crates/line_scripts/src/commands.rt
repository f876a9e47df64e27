//! What one record of a script says.

ghost use Rattle.std.specs.Prelude.{◌≡◌, ◌≤◌, length, take, IfOk};
ghost use Rattle.line_names.specs.declared.limits.TheConstants.{MOST_PROCESSES};
ghost use Rattle.line_fields.specs.Fields.{Gives};
ghost use Rattle.line_scripts.specs.Keeping.{HasShortMessage, behind, long_of};
ghost use Rattle.line_scripts.specs.Keeping.{with_bytes};
ghost use Rattle.line_scripts.specs.Scripts as spec;

use crate::alone::{kept_history, kept_live, kept_rounds, kept_save};
use crate::keeping::Kept;
use crate::kinds::{
    deliver_of, kept_answer, kept_bar, kept_begin, kept_bundle, kept_checkpoint, kept_damage,
    kept_forget, kept_plan, kept_recover, kept_turn, send_of,
};
use crate::names::{Name, name_in};
use line_claims::{LAST_VERSION, most_in, plain, want};
use line_fields::{Fault, FieldRow, ReadError};
use line_names::ProcSet;
use line_tape::{Mode, Step, StepRef};
use std::alloc::Global;

/// What a record of a script asks for.
#[derive(Debug, Drop)]
pub enum Command {
    /// A step of the machine.
    Do(Step),
    /// The rounds that were completed, and what was on its way at their checks.
    Rounds,
    /// The machine's history, as a text.
    History,
    /// A check text of the machine's history, damage and bars, with the plan for these failed
    /// processes.
    Bundle(ProcSet),
    /// What a recovery would be answered if these processes failed now. Nothing changes.
    Plan(ProcSet),
    /// What a recovery would be answered if every process failed now. Nothing changes, and no later
    /// plan is before this one while its checks are neither damaged nor barred.
    Live,
    /// A check text of the machine's history, damage and bars, with all that a recovery would be
    /// answered if these processes failed now.
    Answer(ProcSet),
    /// That what stands before this listed round is let go, or without one what stands before the
    /// line that all would go back to if every process failed.
    Forget(Option<u32>),
    /// The machine as a saved text, from which it is opened again. Nothing changes.
    Save,
    /// Nothing: a process isn't below the number of processes, or a body is too long. The number of
    /// the refusal tells which.
    Refused(u32),
}

/// What a record of a script asks for, its message, state or set lent, so that the script keeps it.
/// It is the command that `shown` says.
#[derive(Clone, Copy, Debug)]
pub enum CommandRef<'a> {
    /// A step of the machine.
    Do(StepRef<'a>),
    /// The rounds that were completed, and what was on its way at their checks.
    Rounds,
    /// The machine's history, as a text.
    History,
    /// A check text of the machine's history, damage and bars, with the plan for these failed
    /// processes.
    Bundle(&'a ProcSet),
    /// What a recovery would be answered if these processes failed now. Nothing changes.
    Plan(&'a ProcSet),
    /// What a recovery would be answered if every process failed now. Nothing changes, and no later
    /// plan is before this one while its checks are neither damaged nor barred.
    Live,
    /// A check text of the machine's history, damage and bars, with all that a recovery would be
    /// answered if these processes failed now.
    Answer(&'a ProcSet),
    /// That what stands before this listed round is let go, or without one what stands before the
    /// line that all would go back to if every process failed.
    Forget(Option<u32>),
    /// The machine as a saved text, from which it is opened again. Nothing changes.
    Save,
    /// Nothing: a process isn't below the number of processes, or a body is too long. The number of
    /// the refusal tells which.
    Refused(u32),
}

fn mode_named(text: &[u8]) -> Result<Mode, Fault>
    ensures { result ≡ spec.mode_named text.now }
{
    if text == b"fifo".as_slice() {
        Ok(Mode::Fifo)
    } else if text == b"unordered".as_slice() {
        Ok(Mode::Unordered)
    } else {
        Err(Fault::BadRecord)
    }
}

/// The number of processes and how links deliver, as a first record says, or its first fault.
#[tactic(auto, unfolding(crate::specs::Scripts::world_of))]
pub fn world_of(row: &FieldRow<'_>) -> Result<(u32, Mode), Fault>
    ensures exact { result ≡ spec.world_of row.now }
    ensures within { IfOk result (λ world. (1 ≤ world.0) × (world.0 ≤ MOST_PROCESSES)) }
{
    want(row.field(0) == b"world".as_slice(), Fault::NoWorld)?;
    want(row.len() == 4, Fault::BadRecord)?;
    let version = plain(row, 1)?;
    let n = plain(row, 2)?;
    let known = 1 <= version && version <= LAST_VERSION;
    want(known, Fault::BadVersion)?;
    want(1 <= n && n <= most_in(version), Fault::BadCount)?;
    let mode = mode_named(row.field(3))?;
    Ok((n, mode))
}

/// The command that a record after the first spells, or its first fault. The bytes that the command
/// carries are put after those that a list has; of one that is refused they may be there too.
#[inline(always)]
#[tactic(auto, unfolding(crate::specs::Scripts::command_in))]
pub(crate) fn command_in(
    alloc: Global,
    n: u32,
    row: &FieldRow<'_>,
    bytes: &mut Vec<u8>,
) -> Result<Kept, ReadError>
    requires { n ≤ MOST_PROCESSES }
    ensures exact { Gives (λ kept. with_bytes kept (behind bytes.old.items bytes.new.items)) result
        (spec.command_in n row.now) }
    ensures long { IfOk result
        (λ kept. long_of kept ≡ length (behind bytes.old.items bytes.new.items)) }
    ensures short { IfOk result HasShortMessage }
    ensures kept { take (length bytes.old.items) bytes.new.items ≡ bytes.old.items }
{
    let Some(name) = name_in(row.field(0)) else {
        return Err(ReadError::Fault(Fault::BadRecord));
    };
    match name {
        Name::Send => send_of(n, row, bytes),
        Name::Deliver => deliver_of(alloc, n, row, bytes),
        Name::Check => kept_checkpoint(n, row, bytes),
        Name::Begin => kept_begin(n, row, bytes),
        Name::Turn => kept_turn(n, row, bytes),
        Name::Damage => kept_damage(n, row),
        Name::Bar => kept_bar(n, row),
        Name::Recover => kept_recover(alloc, n, row),
        Name::Rounds => kept_rounds(row),
        Name::History => kept_history(row),
        Name::Bundle => kept_bundle(alloc, n, row),
        Name::Plan => kept_plan(alloc, n, row),
        Name::Live => kept_live(row),
        Name::Answer => kept_answer(alloc, n, row),
        Name::Forget => kept_forget(row),
        Name::Save => kept_save(row),
    }
}
