//! The command of a record of each kind, by its fields after the first.

ghost use Rattle.std.specs.Prelude.{◌≡◌, ◌≤◌, ◌==◌, Bool, ℕ, List, length, take, IfOk};
ghost use Rattle.line_names.specs.declared.limits.TheConstants.{MOST_PROCESSES};
ghost use Rattle.line_fields.specs.declared.faults.Fault.TheVariants as faults;
ghost use Rattle.line_fields.specs.Faults.{code_of};
ghost use Rattle.line_fields.specs.Fields.{Gives, hex};
ghost use Rattle.line_fields.specs.Shapes.{alone};
ghost use Rattle.line_tape.specs.declared.steps.Step.{Step};
ghost use Rattle.line_scripts.specs.declared.commands.Command.{Command};
ghost use Rattle.line_scripts.specs.Keeping.{HasShortMessage, behind, long_of, of_found};
ghost use Rattle.line_scripts.specs.Keeping.{with_bytes};
ghost use Rattle.line_scripts.specs.Scripts as spec;

use crate::keeping::{Far, Kept, in_byte};
use line_claims::{failed_of, plain, round, want};
use line_fields::{Fault, FieldRow, ReadError, hex_behind, number};
use line_names::{MOST_BODY, ProcId, ProcSet};
use std::alloc::{AllocError, Global};

// A command that is refused, before any step, of which so many bytes were spelled.
fn refused(fault: Fault, long: usize) -> Kept
    ensures { result ≡ Kept.Refused (code_of fault) long }
{
    Kept::Refused {
        code: fault.code(),
        long,
    }
}

// Puts the bytes that a field spells after those that a list has, and tells how many these are.
#[inline(always)]
#[tactic(auto, using(crate::proofs::BehindLemmas::given_behind))]
fn spell_behind(bytes: &mut Vec<u8>, text: &[u8]) -> Result<usize, ReadError>
    ensures exact { Gives (λ _. behind bytes.old.items bytes.new.items) result (hex text.now) }
    ensures long { IfOk result
        (λ long. long ≡ length (behind bytes.old.items bytes.new.items)) }
    ensures kept { take (length bytes.old.items) bytes.new.items ≡ bytes.old.items }
{
    if text.is_empty() {
        return Ok(0);
    }
    let start = bytes.len();
    match hex_behind(bytes, text) {
        Ok(()) => Ok(bytes.len() - start),
        Err(error) => Err(error),
    }
}

/// The command of a `send` record.
#[tactic(auto, unfolding(crate::specs::Scripts::send_of, line_fields::specs::Shapes::three))]
pub(crate) fn send_of(n: u32, row: &FieldRow<'_>, bytes: &mut Vec<u8>) -> Result<Kept, ReadError>
    requires { n ≤ MOST_PROCESSES }
    ensures exact { Gives (λ kept. with_bytes kept (behind bytes.old.items bytes.new.items)) result
        (spec.send_of n row.now) }
    ensures long { IfOk result
        (λ kept. long_of kept ≡ length (behind bytes.old.items bytes.new.items)) }
    ensures short { IfOk result HasShortMessage }
    ensures kept { take (length bytes.old.items) bytes.new.items ≡ bytes.old.items }
{
    want(row.len() == 4, Fault::BadRecord)?;
    let from = plain(row, 1)?;
    let to = plain(row, 2)?;
    let long = spell_behind(bytes, row.field(3))?;
    let Ok(from) = ProcId::try_new(from, n) else {
        return Ok(refused(Fault::NoSuchProcess, long));
    };
    let Ok(to) = ProcId::try_new(to, n) else {
        return Ok(refused(Fault::NoSuchProcess, long));
    };
    if long > MOST_BODY {
        return Ok(refused(Fault::BodyTooLong, long));
    }
    Ok(Kept::Send {
        from: in_byte(from),
        to: in_byte(to),
        long,
    })
}

/// The command of a `deliver` record.
#[tactic(auto, unfolding(crate::specs::Scripts::deliver_of, line_fields::specs::Shapes::four))]
pub(crate) fn deliver_of(
    alloc: Global,
    n: u32,
    row: &FieldRow<'_>,
    bytes: &mut Vec<u8>,
) -> Result<Kept, ReadError>
    requires { n ≤ MOST_PROCESSES }
    ensures exact { Gives (λ kept. with_bytes kept (behind bytes.old.items bytes.new.items)) result
        (spec.deliver_of n row.now) }
    ensures long { IfOk result
        (λ kept. long_of kept ≡ length (behind bytes.old.items bytes.new.items)) }
    ensures short { IfOk result HasShortMessage }
    ensures kept { take (length bytes.old.items) bytes.new.items ≡ bytes.old.items }
{
    want(row.len() == 5, Fault::BadRecord)?;
    let from = plain(row, 1)?;
    let to = plain(row, 2)?;
    let pick = number(row.field(3), 0, u64::MAX)?;
    let long = spell_behind(bytes, row.field(4))?;
    let Ok(from) = ProcId::try_new(from, n) else {
        return Ok(refused(Fault::NoSuchProcess, long));
    };
    let Ok(to) = ProcId::try_new(to, n) else {
        return Ok(refused(Fault::NoSuchProcess, long));
    };
    let from = in_byte(from);
    let to = in_byte(to);
    if pick <= u32::MAX as u64 {
        return Ok(Kept::Deliver {
            from,
            to,
            pick: pick as u32,
            long,
        });
    }
    let far = Box::new(alloc, Far { pick, long }).map_err(AllocError::from)?;
    Ok(Kept::DeliverFar { from, to, far })
}

// The process of a record with a state, whose bytes the list then has after the others; none where
// there is no such process.
#[tactic(auto, unfolding(crate::specs::Scripts::with_state, line_fields::specs::Shapes::two))]
fn with_state(n: u32, row: &FieldRow<'_>, bytes: &mut Vec<u8>) -> Result<Option<ProcId>, ReadError>
    requires { n ≤ MOST_PROCESSES }
    ensures exact { (step : ℕ → List ℕ → Step)
        → Gives (of_found (λ at. Command.Do (step at (behind bytes.old.items bytes.new.items))))
        result (spec.with_state step n row.now) }
    ensures kept { take (length bytes.old.items) bytes.new.items ≡ bytes.old.items }
{
    want(row.len() == 3, Fault::BadRecord)?;
    let at = plain(row, 1)?;
    spell_behind(bytes, row.field(2))?;
    Ok(ProcId::try_new(at, n).ok())
}

// The process and the check of a record; none where there is no such process.
#[tactic(auto, unfolding(crate::specs::Scripts::with_check, line_fields::specs::Shapes::two))]
fn with_check(n: u32, row: &FieldRow<'_>) -> Result<Option<(ProcId, u32)>, ReadError>
    requires { n ≤ MOST_PROCESSES }
    ensures { (step : ℕ → ℕ → Step)
        → Gives (of_found (λ found. Command.Do (step found.0 found.1))) result
        (spec.with_check step n row.now) }
{
    want(row.len() == 3, Fault::BadRecord)?;
    let at = plain(row, 1)?;
    let check = plain(row, 2)?;
    match ProcId::try_new(at, n) {
        Ok(at) => Ok(Some((at, check))),
        Err(_) => Ok(None),
    }
}

// A set in memory of its own.
fn boxed(alloc: Global, failed: ProcSet) -> Result<Box<ProcSet>, AllocError>
    ensures { IfOk result (λ set. set.value ≡ failed) }
{
    let set = Box::new(alloc, failed).map_err(AllocError::from)?;
    Ok(set)
}

// The fault says that there is no such process.
fn is_of_process(fault: Fault) -> bool
    ensures { result ≡ (code_of fault == code_of faults.NoSuchProcess) }
{
    fault.code() == Fault::NoSuchProcess.code()
}

// The processes of a record; none where there is no such process.
fn with_failed(alloc: Global, n: u32, row: &FieldRow<'_>) -> Result<Option<Box<ProcSet>>, ReadError>
    requires { n ≤ MOST_PROCESSES }
    ensures { (command : List Bool → Command)
        → Gives (of_found (λ failed. command failed.value)) result
        (spec.with_failed command n row.now) }
{
    match failed_of(n, row) {
        Ok(failed) => Ok(Some(boxed(alloc, failed)?)),
        Err(fault) if is_of_process(fault) => Ok(None),
        Err(fault) => Err(ReadError::Fault(fault)),
    }
}

/// The command of a `check` record.
pub(crate) fn kept_checkpoint(
    n: u32,
    row: &FieldRow<'_>,
    bytes: &mut Vec<u8>,
) -> Result<Kept, ReadError>
    requires { n ≤ MOST_PROCESSES }
    ensures exact { Gives (λ kept. with_bytes kept (behind bytes.old.items bytes.new.items)) result
        (spec.with_state Step.Check n row.now) }
    ensures long { IfOk result
        (λ kept. long_of kept ≡ length (behind bytes.old.items bytes.new.items)) }
    ensures short { IfOk result HasShortMessage }
    ensures kept { take (length bytes.old.items) bytes.new.items ≡ bytes.old.items }
{
    let start = bytes.len();
    match with_state(n, row, bytes)? {
        Some(at) => Ok(Kept::Check {
            at: in_byte(at),
            long: bytes.len() - start,
        }),
        None => Ok(refused(Fault::NoSuchProcess, bytes.len() - start)),
    }
}

/// The command of a `begin` record.
pub(crate) fn kept_begin(n: u32, row: &FieldRow<'_>, bytes: &mut Vec<u8>) -> Result<Kept, ReadError>
    requires { n ≤ MOST_PROCESSES }
    ensures exact { Gives (λ kept. with_bytes kept (behind bytes.old.items bytes.new.items)) result
        (spec.with_state Step.Begin n row.now) }
    ensures long { IfOk result
        (λ kept. long_of kept ≡ length (behind bytes.old.items bytes.new.items)) }
    ensures short { IfOk result HasShortMessage }
    ensures kept { take (length bytes.old.items) bytes.new.items ≡ bytes.old.items }
{
    let start = bytes.len();
    match with_state(n, row, bytes)? {
        Some(at) => Ok(Kept::Begin {
            at: in_byte(at),
            long: bytes.len() - start,
        }),
        None => Ok(refused(Fault::NoSuchProcess, bytes.len() - start)),
    }
}

/// The command of a `turn` record.
pub(crate) fn kept_turn(n: u32, row: &FieldRow<'_>, bytes: &mut Vec<u8>) -> Result<Kept, ReadError>
    requires { n ≤ MOST_PROCESSES }
    ensures exact { Gives (λ kept. with_bytes kept (behind bytes.old.items bytes.new.items)) result
        (spec.with_state Step.Turn n row.now) }
    ensures long { IfOk result
        (λ kept. long_of kept ≡ length (behind bytes.old.items bytes.new.items)) }
    ensures short { IfOk result HasShortMessage }
    ensures kept { take (length bytes.old.items) bytes.new.items ≡ bytes.old.items }
{
    let start = bytes.len();
    match with_state(n, row, bytes)? {
        Some(at) => Ok(Kept::Turn {
            at: in_byte(at),
            long: bytes.len() - start,
        }),
        None => Ok(refused(Fault::NoSuchProcess, bytes.len() - start)),
    }
}

/// The command of a `damage` record, which carries no bytes.
#[inline(never)]
pub(crate) fn kept_damage(n: u32, row: &FieldRow<'_>) -> Result<Kept, ReadError>
    requires { n ≤ MOST_PROCESSES }
    ensures exact { (bytes : List ℕ) → Gives (λ kept. with_bytes kept bytes) result
        (spec.with_check Step.Damage n row.now) }
    ensures long { IfOk result (λ kept. long_of kept ≡ 0) }
    ensures short { IfOk result HasShortMessage }
{
    match with_check(n, row)? {
        Some((at, check)) => Ok(Kept::Damage {
            at: in_byte(at),
            check,
        }),
        None => Ok(refused(Fault::NoSuchProcess, 0)),
    }
}

/// The command of a `bar` record, which carries no bytes.
#[inline(never)]
pub(crate) fn kept_bar(n: u32, row: &FieldRow<'_>) -> Result<Kept, ReadError>
    requires { n ≤ MOST_PROCESSES }
    ensures exact { (bytes : List ℕ) → Gives (λ kept. with_bytes kept bytes) result
        (spec.with_check Step.Bar n row.now) }
    ensures long { IfOk result (λ kept. long_of kept ≡ 0) }
    ensures short { IfOk result HasShortMessage }
{
    match with_check(n, row)? {
        Some((at, check)) => Ok(Kept::Bar {
            at: in_byte(at),
            check,
        }),
        None => Ok(refused(Fault::NoSuchProcess, 0)),
    }
}

/// The command of a `recover` record, which carries no bytes.
#[inline(never)]
pub(crate) fn kept_recover(alloc: Global, n: u32, row: &FieldRow<'_>) -> Result<Kept, ReadError>
    requires { n ≤ MOST_PROCESSES }
    ensures exact { (bytes : List ℕ) → Gives (λ kept. with_bytes kept bytes) result
        (spec.with_failed (λ failed. Command.Do (Step.Recover failed)) n row.now) }
    ensures long { IfOk result (λ kept. long_of kept ≡ 0) }
    ensures short { IfOk result HasShortMessage }
{
    match with_failed(alloc, n, row)? {
        Some(failed) => Ok(Kept::Recover(failed)),
        None => Ok(refused(Fault::NoSuchProcess, 0)),
    }
}

/// The command of a `bundle` record, which carries no bytes.
#[inline(never)]
pub(crate) fn kept_bundle(alloc: Global, n: u32, row: &FieldRow<'_>) -> Result<Kept, ReadError>
    requires { n ≤ MOST_PROCESSES }
    ensures exact { (bytes : List ℕ) → Gives (λ kept. with_bytes kept bytes) result
        (spec.with_failed Command.Bundle n row.now) }
    ensures long { IfOk result (λ kept. long_of kept ≡ 0) }
    ensures short { IfOk result HasShortMessage }
{
    match with_failed(alloc, n, row)? {
        Some(failed) => Ok(Kept::Bundle(failed)),
        None => Ok(refused(Fault::NoSuchProcess, 0)),
    }
}

/// The command of a `plan` record, which carries no bytes.
#[inline(never)]
pub(crate) fn kept_plan(alloc: Global, n: u32, row: &FieldRow<'_>) -> Result<Kept, ReadError>
    requires { n ≤ MOST_PROCESSES }
    ensures exact { (bytes : List ℕ) → Gives (λ kept. with_bytes kept bytes) result
        (spec.with_failed Command.Plan n row.now) }
    ensures long { IfOk result (λ kept. long_of kept ≡ 0) }
    ensures short { IfOk result HasShortMessage }
{
    match with_failed(alloc, n, row)? {
        Some(failed) => Ok(Kept::Plan(failed)),
        None => Ok(refused(Fault::NoSuchProcess, 0)),
    }
}

/// The command of an `answer` record, which carries no bytes.
#[inline(never)]
pub(crate) fn kept_answer(alloc: Global, n: u32, row: &FieldRow<'_>) -> Result<Kept, ReadError>
    requires { n ≤ MOST_PROCESSES }
    ensures exact { (bytes : List ℕ) → Gives (λ kept. with_bytes kept bytes) result
        (spec.with_failed Command.Answer n row.now) }
    ensures long { IfOk result (λ kept. long_of kept ≡ 0) }
    ensures short { IfOk result HasShortMessage }
{
    match with_failed(alloc, n, row)? {
        Some(failed) => Ok(Kept::Answer(failed)),
        None => Ok(refused(Fault::NoSuchProcess, 0)),
    }
}

/// The command of a `forget` record, which has no other field or the number of a round.
#[inline(never)]
#[tactic(auto, unfolding(crate::specs::Scripts::forget_of, line_fields::specs::Shapes::alone))]
pub(crate) fn kept_forget(row: &FieldRow<'_>) -> Result<Kept, ReadError>
    ensures exact { (bytes : List ℕ) → Gives (λ kept. with_bytes kept bytes) result
        (spec.forget_of row.now) }
    ensures long { IfOk result (λ kept. long_of kept ≡ 0) }
    ensures short { IfOk result HasShortMessage }
{
    if row.len() == 2 {
        let number = round(row, 1)?;
        return Ok(Kept::Forget(Some(number)));
    }
    want(row.len() == 1, Fault::BadRecord)?;
    Ok(Kept::Forget(None))
}
