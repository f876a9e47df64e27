//! What the records of a claim spell.

ghost use Rattle.std.specs.Prelude.{◌≡◌, ◌≤◌, ◌+◌, Ok, Err, IfErr, OnOk, drop, length};
ghost use Rattle.line_names.specs.declared.limits.TheConstants.{MOST_PROCESSES};
ghost use Rattle.line_claims.specs.Entries as spec;
ghost use Rattle.line_claims.specs.Numbers.{choices};
ghost use Rattle.line_claims.specs.Reads.{Steps};

use crate::numbers::{choice, incarnation, plain, plain_at, process, state_or_none, want};
use crate::versions::most_in;
use line_check::{Replay, Start};
use line_fields::{Fault, FieldRow, ReadError, hex_into};
use line_names::{Body, Certificate, Line, MOST_BODY, MsgName, Passed, ProcId, ProcSet};
use line_tape::{BarError, MOST_STATE, MarkError, Marks, State};

/// Adds the mark of `damage,P,C`.
#[tactic(auto, unfolding(crate::specs::Entries::damage_of, crate::specs::Entries::one_mark_more, line_fields::specs::Shapes::two))]
pub(crate) fn damage_of(marks: &mut Marks, n: u32, row: &FieldRow<'_>) -> Result<(), ReadError>
    requires few { n ≤ MOST_PROCESSES }
    requires whole { length marks.old.damaged ≡ n }
    ensures exact { Steps result (spec.damage_of n marks.old row.now) marks.new }
    ensures whole { length marks.new.damaged ≡ n }
{
    want(row.len() == 3, Fault::BadRecord)?;
    let p = plain(row, 1)?;
    let check = plain(row, 2)?;
    let p = process(n, p)?;
    match marks.mark(p, check) {
        Ok(()) => Ok(()),
        Err(MarkError::OutOfMemory) => Err(ReadError::OutOfMemory),
        Err(MarkError::InitialDamage) => Err(ReadError::Fault(Fault::InitialDamage)),
        Err(MarkError::AlreadyDamaged) => Err(ReadError::Fault(Fault::AlreadyDamaged)),
    }
}

/// Adds the bar of `bar,P,C`.
#[tactic(auto, unfolding(crate::specs::Entries::bar_of, crate::specs::Entries::one_bar_more, line_fields::specs::Shapes::two))]
pub(crate) fn bar_of(marks: &mut Marks, n: u32, row: &FieldRow<'_>) -> Result<(), Fault>
    requires few { n ≤ MOST_PROCESSES }
    requires whole { length marks.old.damaged ≡ n }
    ensures ok { OnOk result (spec.bar_of n marks.old row.now ≡ Ok marks.new) }
    ensures err { IfErr result (λ fault. spec.bar_of n marks.old row.now ≡ Err fault) }
    ensures whole { length marks.new.damaged ≡ n }
{
    want(row.len() == 3, Fault::BadRecord)?;
    let p = plain(row, 1)?;
    let bar = plain(row, 2)?;
    let p = process(n, p)?;
    match marks.bar(p, bar) {
        Ok(()) => Ok(()),
        Err(BarError::BarNotLower) => Err(Fault::BarNotLower),
        Err(BarError::NoSuchCheck) => unreachable!(),
    }
}

/// The processes of a record such as `failed` or `failed,P,..`: those of the fields after the
/// first, a process that is not below `n` being a fault once all fields are numbers.
pub fn failed_of(n: u32, row: &FieldRow<'_>) -> Result<ProcSet, Fault>
    requires { n ≤ MOST_PROCESSES }
    ensures { result ≡ spec.failed_of n row.now }
{
    let mut failed = ProcSet::empty();
    let mut below = true;
    for place in 1..row.len() {
        let p = plain(row, place)?;
        match ProcId::try_new(p, n) {
            Ok(p) => failed = failed.with(p),
            Err(_) => below = false,
        }
    }
    if !below {
        return Err(Fault::NoSuchProcess);
    }
    Ok(failed)
}

// The choices of the fields after the first.
fn choices_of(row: &FieldRow<'_>) -> Result<Line, Fault>
    requires { length row.now ≤ MOST_PROCESSES + 1 }
    ensures { result ≡ choices (drop 1 row.now) }
{
    let mut line = Line::new();
    for place in 1..row.len() {
        let choice = choice(row, place)?;
        line.push(choice);
    }
    Ok(line)
}

/// The choices of `line,CHOICE,..`.
#[tactic(auto, unfolding(crate::specs::Entries::line_of))]
pub(crate) fn line_of(version: u32, row: &FieldRow<'_>) -> Result<Line, Fault>
    ensures { result ≡ spec.line_of version row.now }
{
    let most = most_in(version) as usize;
    want(2 <= row.len() && row.len() <= most + 1, Fault::BadRecord)?;
    choices_of(row)
}

/// Adds the entry of `pass,P,CHOICE,FROM,INC,NUMBER`.
#[tactic(auto, unfolding(crate::specs::Entries::entry_of, crate::specs::Entries::passed_of, line_fields::specs::Shapes::five))]
pub(crate) fn entry_of(
    certificate: &mut Certificate,
    n: u32,
    row: &FieldRow<'_>,
) -> Result<(), ReadError>
    requires { n ≤ MOST_PROCESSES }
    ensures { Steps result (spec.entry_of n certificate.old.items row.now) certificate.new.items }
{
    want(row.len() == 6, Fault::BadRecord)?;
    let at = plain(row, 1)?;
    let choice = choice(row, 2)?;
    let from = plain(row, 3)?;
    let inc = incarnation(row, 4)?;
    let number = plain(row, 5)?;
    let at = process(n, at)?;
    let from = process(n, from)?;
    let message = MsgName { from, inc, number };
    certificate.push(Passed {
        at,
        choice,
        message,
    })?;
    Ok(())
}

// Whether a state is no longer than a check may store.
fn is_short(state: &Option<State>) -> bool
    ensures { result ≡ spec.is_short state.now }
{
    match state {
        None => true,
        Some(state) => state.bytes().len() <= MOST_STATE,
    }
}

/// Adds where the next process goes on, of `start,P,INC,HEX`.
#[tactic(auto, unfolding(crate::specs::Entries::start_of, line_fields::specs::Shapes::three))]
pub(crate) fn start_of(starts: &mut Vec<Start>, n: u32, row: &FieldRow<'_>) -> Result<(), ReadError>
    requires { n ≤ MOST_PROCESSES }
    ensures exact { Steps result (spec.start_of n starts.old.items row.now) starts.new.items }
    ensures more { OnOk result (length starts.new.items ≡ length starts.old.items + 1) }
{
    let alloc = *starts.allocator();
    want(row.len() == 4, Fault::BadRecord)?;
    let p = plain(row, 1)?;
    let inc = incarnation(row, 2)?;
    let state = state_or_none(alloc, row, 3)?;
    let p = process(n, p)?;
    want(p.get() as usize == starts.len(), Fault::BadRecord)?;
    want(is_short(&state), Fault::StateTooLong)?;
    starts.push(Start { inc, state })?;
    Ok(())
}

/// Adds the message of `replay,FROM,INC,NUMBER,TO,PLACE,HEX`. Its bytes take the place of those of
/// a list.
#[tactic(auto, unfolding(crate::specs::Entries::replay_of))]
pub(crate) fn replay_of(
    replays: &mut Vec<Replay>,
    n: u32,
    row: &FieldRow<'_>,
    bytes: &mut Vec<u8>,
) -> Result<(), ReadError>
    requires { n ≤ MOST_PROCESSES }
    ensures { Steps result (spec.replay_of n replays.old.items row.now) replays.new.items }
{
    want(row.len() == 7, Fault::BadRecord)?;
    let from = plain_at(row, 1)?;
    let inc = incarnation(row, 2)?;
    let number = plain_at(row, 3)?;
    let to = plain_at(row, 4)?;
    let place = plain_at(row, 5)?;
    hex_into(bytes, row.field(6))?;
    let from = process(n, from)?;
    let to = process(n, to)?;
    want(bytes.len() <= MOST_BODY, Fault::BodyTooLong)?;
    let body = Body::try_new(bytes.as_slice()).unwrap();
    let message = MsgName { from, inc, number };
    replays.reserve(1)?;
    replays.push_reserved(Replay {
        message,
        to,
        place,
        body,
    });
    Ok(())
}
