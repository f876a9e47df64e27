//! The floor at a line.
ghost use Rattle.std.specs.Prelude.{◌≡◌, ◌<◌, ◌↔◌, ℕ, All, Contains, IfOk, IfSome, IsTrue, length};
ghost use Rattle.std.specs.Prelude.{map, slice_index_or, vec_len};
ghost use Rattle.std.specs.List.{range_with_len};
ghost use Rattle.std.specs.Option.{SomeIff};
ghost use Rattle.line_names.specs.declared.messages.MsgName.{MsgName as Sent};
ghost use Rattle.line_tape.specs.Event.{sends};
ghost use Rattle.line_tape.specs.Line.{events_before, IsConsistent, IsLine};
ghost use Rattle.line_cuts.specs.Cuts.{IsFloor};
ghost use Rattle.line_cuts.specs.Floors.{check_index_of, floor_of_line, sends_up_to, IsOfChecks};

use crate::floors::OwnedFloor;
use line_catalogue::Catalogue;
use line_names::{Choice, Line, MsgName, ProcId};
use line_tape::History;
use std::alloc::{AllocError, Global};

/// Whether each choice of a line is a check, or an initial state.
fn is_of_checks(line: &Line) -> bool
    ensures { IsTrue result ↔ IsOfChecks line.now }
{
    let choices = line.choices();
    for choice in choices {
        match choice {
            Choice::Check(_) => {}
            Choice::Now => return false,
        }
    }
    true
}

/// The check that a choice is.
fn check_index_of(choice: Choice) -> u32
    ensures { result ≡ check_index_of choice }
{
    match choice {
        Choice::Check(check) => check,
        Choice::Now => 0,
    }
}

/// The checks of a line.
fn checks_of(alloc: Global, line: &Line) -> Result<Vec<u32>, AllocError>
    ensures { IfOk result (λ checks. checks.items ≡ map check_index_of line.now) }
{
    line.choices()
        .iter()
        .map(|choice| check_index_of(*choice))
        .collect(alloc)
}

/// How many sends of each process stand before a line.
fn sends_before(alloc: Global, history: &History, line: &Line) -> Result<Vec<u32>, AllocError>
    requires { IsLine history.now.processes line.now }
    ensures { IfOk result (λ counts. counts.items
        ≡ map (λ p. sends (events_before history.now.processes line.now p))
        (range_with_len 0 (length history.now.processes))) }
{
    let n = history.n();
    let mut counts = Vec::with_capacity(alloc, n as usize)?;
    for q in 0..n {
        let p = ProcId::try_new(q, n).unwrap();
        counts.push(history.tape(p).sends_before(line.at(p)))?;
    }
    Ok(counts)
}

/// Puts the number of the first of some messages that a process sent in place of the number that
/// the process has, for each process that sent one of them.
fn put_first_numbers(counts: &mut Vec<u32>, messages: &Vec<MsgName>)
    requires { All (λ (message : Sent). message.from < vec_len counts.old) messages.now.items }
    ensures count { vec_len counts.new ≡ vec_len counts.old }
    ensures first { (p : ℕ) → slice_index_or counts.new.items p 0
        ≡ sends_up_to p messages.now.items (slice_index_or counts.old.items p 0) }
{
    let mut left = messages.len();
    while left > 0 {
        left -= 1;
        let message = &messages[left];
        counts[message.from.get() as usize] = message.number;
    }
}

/// The floor at a line of checks, given the last round begun: each process begins with its check of
/// the line, and lets go the sends before its first message that is in transit there. None where
/// the line has where a process stands now.
///
/// It costs what `Catalogue::transit` does, which finds what is in transit, and looks once at each
/// process.
pub fn floor_at(
    alloc: Global,
    catalogue: &Catalogue,
    line: &Line,
    round: u32,
) -> Result<Option<OwnedFloor>, AllocError>
    requires { IsLine catalogue.now.processes line.now }
    ensures value { IfOk result (λ floor. SomeIff floor (IsOfChecks line.now)
        (floor_of_line catalogue.now.processes line.now round)) }
    ensures floor { IfOk result (λ floor. IfSome floor (λ floor.
        IsConsistent catalogue.now.processes line.now → IsFloor catalogue.now.processes floor)) }
{
    if !is_of_checks(line) {
        return Ok(None);
    }
    let messages = catalogue.transit(alloc, line)?;
    let checks = checks_of(alloc, line)?;
    let mut sends = sends_before(alloc, catalogue.history(), line)?;
    put_first_numbers(&mut sends, &messages);
    Ok(Some(OwnedFloor::of(checks, sends, round)))
}
