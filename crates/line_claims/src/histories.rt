//! Histories, taken record by record.

ghost use Rattle.std.specs.Prelude.{◌≡◌, ◌≤◌, ◌<◌, ◌+◌, ◌^◌, ◌++◌, ◌⊎◌, false, [], ◌∷◌, ℕ, suc};
ghost use Rattle.std.specs.Prelude.{List, Ok, Err, codes, length, replicate, IfErr, IfOk};
ghost use Rattle.std.specs.Prelude.{MatchBool, OnOk, nat_lt};
ghost use Rattle.line_names.specs.declared.limits.TheConstants.{MOST_PROCESSES};
ghost use Rattle.line_fields.specs.declared.faults.Fault.TheVariants as faults;
ghost use Rattle.line_fields.specs.Fields as fields;
ghost use Rattle.line_fields.specs.Records.{Record, field};
ghost use Rattle.line_tape.specs.History.{fresh, tape_at};
ghost use Rattle.line_tape.specs.Views.{room_at};
ghost use Rattle.line_claims.specs.Events.{is_event, kind_text};
ghost use Rattle.line_claims.specs.Histories as spec;
ghost use Rattle.line_claims.specs.Reads.{FailsText, Steps, Yields, error_at};
ghost use Rattle.line_claims.specs.Stages.{Goes, floors_left, tapes_left, with_tape};

use crate::events::{Kind, kind_of};
use crate::faults::{TextError, error_at, fault_at};
use crate::numbers::{incarnation, plain, process, round, round_or_none, want};
use crate::parts::is_named;
use crate::versions::{LAST_CHECK_VERSION, most_in};
use line_fields::{Fault, FieldRow, ReadError, RecordReader, hex, hex_into};
use line_names::{MOST_BODY, MsgName, ProcId};
use line_tape::{CountError, Event, History, MOST_EVENTS, MOST_STATE, State};
use std::alloc::Global;

// The version and the number of processes that `history,V,N` announces.
#[tactic(auto, unfolding(crate::specs::Histories::head_of, line_fields::specs::Shapes::two))]
fn head_of(row: &FieldRow<'_>) -> Result<(u32, u32), Fault>
    ensures exact { result ≡ spec.head_of row.now }
    ensures within { IfOk result (λ head. (1 ≤ head.1) × (head.1 ≤ MOST_PROCESSES)) }
{
    want(row.len() == 3, Fault::BadRecord)?;
    let version = plain(row, 1)?;
    let n = plain(row, 2)?;
    let known = 1 <= version && version <= LAST_CHECK_VERSION;
    want(known, Fault::BadVersion)?;
    want(1 <= n && n <= most_in(version), Fault::BadCount)?;
    Ok((version, n))
}

/// The version and the number of processes that the first record of a text announces.
pub(crate) fn head_at(row: &FieldRow<'_>) -> Result<(u32, u32), TextError>
    ensures exact { (rest : List Record)
        → Yields (λ head. head) result (spec.head_in (row.now ∷ rest)) }
    ensures within { IfOk result (λ head. (1 ≤ head.1) × (head.1 ≤ MOST_PROCESSES)) }
{
    if !is_named(row, b"history") {
        return Err(fault_at(1, Fault::NoWorld));
    }
    match head_of(row) {
        Ok(head) => Ok(head),
        Err(fault) => Err(fault_at(1, fault)),
    }
}

// Adds what was let go of the next process, of `floor,P,C,SENDS`.
#[tactic(auto, unfolding(crate::specs::Histories::one_floor_more, line_fields::specs::Shapes::three))]
fn add_floor(floors: &mut Vec<(u32, u32)>, row: &FieldRow<'_>) -> Result<(), ReadError>
    ensures exact { Steps result (spec.one_floor_more floors.old.items row.now) floors.new.items }
    ensures more { OnOk result (length floors.new.items ≡ length floors.old.items + 1) }
{
    want(row.len() == 4, Fault::BadRecord)?;
    let p = plain(row, 1)?;
    let check = plain(row, 2)?;
    let sends = plain(row, 3)?;
    want(p as usize == floors.len(), Fault::BadRecord)?;
    floors.push((check, sends))?;
    Ok(())
}

/// Takes what was let go of the next process, where that of one more is to come.
pub(crate) fn take_floor(
    floors: &mut Vec<(u32, u32)>,
    number: u64,
    row: &FieldRow<'_>,
) -> Result<(), TextError>
    ensures exact { (others : ℕ)
        → Goes result (floors_left (suc others) floors.old.items number)
        (λ _. floors_left others floors.new.items (number + 1)) row.now }
    ensures more { OnOk result (length floors.new.items ≡ length floors.old.items + 1) }
{
    if !is_named(row, b"floor") {
        return Err(fault_at(number, Fault::BadRecord));
    }
    match add_floor(floors, row) {
        Ok(()) => Ok(()),
        Err(error) => Err(error_at(number, error)),
    }
}

// Begins the tape of a process, by `tape,P,INC`.
#[tactic(auto, unfolding(crate::specs::Histories::tape_of, line_fields::specs::Shapes::two))]
fn tape_of(history: &mut History, at: ProcId, row: &FieldRow<'_>) -> Result<(), Fault>
    requires { at < length history.old.processes }
    ensures ok { OnOk result
        (spec.tape_of at history.old.processes row.now ≡ Ok history.new.processes) }
    ensures err { IfErr result
        (λ fault. spec.tape_of at history.old.processes row.now ≡ Err fault) }
    ensures same { length history.new.processes ≡ length history.old.processes }
{
    want(row.len() == 3, Fault::BadRecord)?;
    let p = plain(row, 1)?;
    let inc = incarnation(row, 2)?;
    want(p == at.get(), Fault::BadRecord)?;
    history.set_incarnation(at, inc);
    Ok(())
}

// Makes room for one more event of a process, where its tape may have one.
fn make_room(history: &mut History, at: ProcId) -> Result<(), ReadError>
    requires { at < length history.old.processes }
    ensures exact { Steps result
        (fields.want (nat_lt (length (tape_at history.old.processes at)) MOST_EVENTS)
        faults.TapeFull) tt }
    ensures same { history.new.processes ≡ history.old.processes }
    ensures few { OnOk result (length (tape_at history.old.processes at) < MOST_EVENTS) }
    ensures room { OnOk result (0 < room_at history.new at) }
{
    let events = history.tape(at).len();
    want((events as usize) < MOST_EVENTS, Fault::TapeFull)?;
    history.reserve(at, 1)?;
    Ok(())
}

// Adds the event of `send,TO,INC,HEX` to the tape of a process. The bytes of the message take the
// place of those of a list.
#[inline(always)]
#[tactic(auto, unfolding(crate::specs::Histories::event_at, crate::specs::Events::send_event_of, line_fields::specs::Shapes::three))]
fn send_at(
    history: &mut History,
    at: ProcId,
    row: &FieldRow<'_>,
    bytes: &mut Vec<u8>,
) -> Result<(), ReadError>
    requires there { at < length history.old.processes }
    requires kind { field row.now 0 ≡ codes "send" }
    ensures exact { Steps result (spec.event_at at history.old.processes row.now)
        history.new.processes }
    ensures same { length history.new.processes ≡ length history.old.processes }
{
    want(row.len() == 4, Fault::BadRecord)?;
    let to = plain(row, 1)?;
    let inc = incarnation(row, 2)?;
    hex_into(bytes, row.field(3))?;
    let to = process(history.n(), to)?;
    want(bytes.len() <= MOST_BODY, Fault::BodyTooLong)?;
    make_room(history, at)?;
    history.append_send(at, to, inc, bytes.as_slice());
    Ok(())
}

// Adds the event of `recv,FROM,INC,NUMBER` to the tape of a process.
#[inline(always)]
#[tactic(auto, unfolding(crate::specs::Histories::event_at, crate::specs::Events::recv_event_of, line_fields::specs::Shapes::three))]
fn recv_at(history: &mut History, at: ProcId, row: &FieldRow<'_>) -> Result<(), ReadError>
    requires there { at < length history.old.processes }
    requires kind { field row.now 0 ≡ codes "recv" }
    ensures exact { Steps result (spec.event_at at history.old.processes row.now)
        history.new.processes }
    ensures same { length history.new.processes ≡ length history.old.processes }
{
    want(row.len() == 4, Fault::BadRecord)?;
    let from = plain(row, 1)?;
    let inc = incarnation(row, 2)?;
    let number = plain(row, 3)?;
    let from = process(history.n(), from)?;
    make_room(history, at)?;
    history.append_receipt(at, &MsgName { from, inc, number });
    Ok(())
}

// Adds the event of `check,HEX,ROUND` to the tape of a process. It stands apart: its event is
// large.
#[inline(never)]
#[tactic(auto, unfolding(crate::specs::Histories::event_at, crate::specs::Events::check_event_of, line_fields::specs::Shapes::two))]
fn check_at(
    alloc: Global,
    history: &mut History,
    at: ProcId,
    row: &FieldRow<'_>,
) -> Result<(), ReadError>
    requires there { at < length history.old.processes }
    requires kind { field row.now 0 ≡ codes "check" }
    ensures exact { Steps result (spec.event_at at history.old.processes row.now)
        history.new.processes }
    ensures same { length history.new.processes ≡ length history.old.processes }
{
    want(row.len() == 3, Fault::BadRecord)?;
    let bytes = hex(alloc, row.field(1))?;
    let round = round_or_none(row, 2)?;
    want(bytes.len() <= MOST_STATE, Fault::StateTooLong)?;
    make_room(history, at)?;
    let state = State::of(bytes);
    history.append(at, Event::Check { state, round });
    Ok(())
}

// Adds the event of `mark,FROM,ROUND` to the tape of a process.
#[inline(always)]
#[tactic(auto, unfolding(crate::specs::Histories::event_at, crate::specs::Events::mark_event_of, line_fields::specs::Shapes::two))]
fn mark_at(history: &mut History, at: ProcId, row: &FieldRow<'_>) -> Result<(), ReadError>
    requires there { at < length history.old.processes }
    requires kind { field row.now 0 ≡ codes "mark" }
    ensures exact { Steps result (spec.event_at at history.old.processes row.now)
        history.new.processes }
    ensures same { length history.new.processes ≡ length history.old.processes }
{
    want(row.len() == 3, Fault::BadRecord)?;
    let from = plain(row, 1)?;
    let round = round(row, 2)?;
    let from = process(history.n(), from)?;
    make_room(history, at)?;
    history.append_mark(at, from, round);
    Ok(())
}

// Adds the event of a record to the tape of a process, by its parts.
#[inline(always)]
fn event_at(
    alloc: Global,
    history: &mut History,
    at: ProcId,
    kind: Kind,
    row: &FieldRow<'_>,
    bytes: &mut Vec<u8>,
) -> Result<(), ReadError>
    requires there { at < length history.old.processes }
    requires kind { field row.now 0 ≡ kind_text kind }
    ensures exact { Steps result (spec.event_at at history.old.processes row.now)
        history.new.processes }
    ensures same { length history.new.processes ≡ length history.old.processes }
{
    match kind {
        Kind::Send => send_at(history, at, row, bytes),
        Kind::Recv => recv_at(history, at, row),
        Kind::Check => check_at(alloc, history, at, row),
        Kind::Mark => mark_at(history, at, row),
    }
}

/// Takes the events of the tape that was begun last, if one was, from the record in the row on, and
/// says whether the row then has a record that is none.
pub(crate) fn take_open_tape<'a>(
    records: &mut RecordReader<'a>,
    history: &mut History,
    tapes: u32,
    number: &mut u64,
    row: &mut FieldRow<'a>,
    bytes: &mut Vec<u8>,
) -> Result<bool, TextError>
    requires there { tapes ≤ length history.old.processes }
    requires room { number.old + length records.old + 1 < 2 ^ 64 }
    ensures ok { IfOk result (λ more. MatchBool more
        (((tapes ≡ 0) ⊎ (is_event row.new ≡ false))
        × (number.new + length records.new ≤ number.old + length records.old)
        × ((rest : List Record)
        → tapes_left (length history.old.processes) tapes history.old.processes number.old
        (row.old ∷ (records.old ++ rest))
        ≡ tapes_left (length history.old.processes) tapes history.new.processes number.new
        (row.new ∷ (records.new ++ rest))))
        ((number.new ≤ number.old + length records.old + 1)
        × ((rest : List Record)
        → tapes_left (length history.old.processes) tapes history.old.processes number.old
        (row.old ∷ (records.old ++ rest))
        ≡ tapes_left (length history.old.processes) tapes history.new.processes number.new rest))) }
    ensures err { IfErr result (λ error. (rest : List Record)
        → FailsText error
        (tapes_left (length history.old.processes) tapes history.old.processes number.old
        (row.old ∷ (records.old ++ rest)))) }
    ensures count { number.old ≤ number.new }
    ensures same { length history.new.processes ≡ length history.old.processes }
{
    if tapes == 0 {
        return Ok(true);
    }
    let alloc = *bytes.allocator();
    let Ok(at) = ProcId::try_new(tapes - 1, history.n()) else {
        unreachable!()
    };
    'events: loop {
        let Some(kind) = kind_of(row) else {
            return Ok(true);
        };
        match event_at(alloc, history, at, kind, row, bytes) {
            Ok(()) => {}
            Err(error) => return Err(error_at(*number, error)),
        }
        *number += 1;
        if !records.next_row(row)? {
            return Ok(false);
        }
    }
}

/// Takes an event of the tape that was begun last, if one was, and answers false where the record
/// is none.
pub(crate) fn take_event(
    alloc: Global,
    history: &mut History,
    tapes: u32,
    number: u64,
    row: &FieldRow<'_>,
    bytes: &mut Vec<u8>,
) -> Result<bool, TextError>
    requires there { tapes ≤ length history.old.processes }
    ensures exact { IfOk result (λ taken. MatchBool taken
        ((rest : List Record)
        → tapes_left (length history.old.processes) tapes history.old.processes number
        (row.now ∷ rest)
        ≡ tapes_left (length history.old.processes) tapes history.new.processes (number + 1) rest)
        ((history.new.processes ≡ history.old.processes)
        × ((tapes ≡ 0) ⊎ (is_event row.now ≡ false)))) }
    ensures err { IfErr result (λ error. (rest : List Record)
        → FailsText error
        (tapes_left (length history.old.processes) tapes history.old.processes number
        (row.now ∷ rest))) }
    ensures same { length history.new.processes ≡ length history.old.processes }
{
    if tapes == 0 {
        return Ok(false);
    }
    let Ok(at) = ProcId::try_new(tapes - 1, history.n()) else {
        unreachable!()
    };
    let Some(kind) = kind_of(row) else {
        return Ok(false);
    };
    match event_at(alloc, history, at, kind, row, bytes) {
        Ok(()) => Ok(true),
        Err(error) => Err(error_at(number, error)),
    }
}

/// Takes the record with which the next tape begins, where another one follows those that were
/// begun, and answers false where the record stands after the last tape.
pub(crate) fn take_next_tape(
    history: &mut History,
    tapes: &mut u32,
    number: u64,
    row: &FieldRow<'_>,
) -> Result<bool, TextError>
    requires there { tapes.old ≤ length history.old.processes }
    requires other { (tapes.old ≡ 0) ⊎ (is_event row.now ≡ false) }
    ensures exact { Goes result
        (tapes_left (length history.old.processes) tapes.old history.old.processes number)
        (λ more. with_tape more (length history.old.processes) tapes.new history.new.processes
        number row.now)
        row.now }
    ensures same { length history.new.processes ≡ length history.old.processes }
    ensures there { tapes.new ≤ length history.old.processes }
{
    let n = history.n();
    if *tapes == n {
        return Ok(false);
    }
    let Ok(at) = ProcId::try_new(*tapes, n) else {
        unreachable!()
    };
    if !is_named(row, b"tape") {
        return Err(fault_at(number, Fault::BadRecord));
    }
    match tape_of(history, at, row) {
        Ok(()) => {
            *tapes += 1;
            Ok(true)
        }
        Err(fault) => Err(fault_at(number, fault)),
    }
}

/// Refuses a history that ends before its last tape; the record that is missing has that number.
pub(crate) fn close_tapes(history: &History, tapes: u32, number: u64) -> Result<(), TextError>
    requires { tapes ≤ length history.now.processes }
    ensures { Yields (λ _. record { value = history.now.processes; number = number; left = [] })
        result
        (tapes_left (length history.now.processes) tapes history.now.processes number []) }
{
    if tapes < history.n() {
        return Err(fault_at(number, Fault::BadRecord));
    }
    Ok(())
}

/// The history of `n` processes of which nothing was read yet.
pub(crate) fn begin_history(alloc: Global, n: u32) -> Result<History, TextError>
    requires { (1 ≤ n) × (n ≤ MOST_PROCESSES) }
    ensures exact { IfOk result (λ history. history.processes ≡ replicate n fresh) }
    ensures long { IfOk result (λ history. length history.processes ≡ n) }
    ensures err { IfErr result (λ error. error ≡ TextError.OutOfMemory) }
{
    match History::new(alloc, n) {
        Ok(history) => Ok(history),
        Err(CountError::OutOfMemory) => Err(TextError::OutOfMemory),
        Err(CountError::BadCount) => unreachable!(),
    }
}
