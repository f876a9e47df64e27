//! Which sends to look at.
ghost use Rattle.std.specs.Prelude.{◌≡◌, ◌<◌, ◌≤◌, ℕ, true, length, IfOk};
ghost use Rattle.line_tape.specs.Event.{sends};
ghost use Rattle.line_tape.specs.History.{tape_at};
ghost use Rattle.line_tape.specs.Line.{events_before, IsLine};
ghost use Rattle.line_catalogue.specs.Left.{events_between, place_at, start_at, AreCandidates};
ghost use Rattle.line_catalogue.specs.Left.{AreStrangers};

use crate::numbers::{Numbers, add_receipts, empty_rows};
use line_names::{Choice, Line, ProcId, ProcSet};
use line_tape::{Events, History};
use std::alloc::{AllocError, Global};

/// What a process did after its choice, among its first `kept` events.
fn events_between<'a>(history: &'a History, line: &Line, q: ProcId, kept: u32) -> Events<'a>
    requires line { IsLine history.now.processes line.now }
    requires process { q < length history.now.processes }
    requires kept { kept ≤ length (tape_at history.now.processes q) }
    ensures { result ≡ events_between history.now.processes line.now q kept }
{
    let tape = history.tape(q);
    let place = tape.place(line.at(q)).unwrap();
    let end = kept.max(place);
    tape.front(Choice::Now)
        .first(end as usize)
        .behind(place as usize)
}

/// Whether no process has a send before its end.
fn are_none(ends: &[u32]) -> bool
    ensures { result ≡ true → (p : ℕ) → start_at ends.now p ≡ 0 }
{
    for end in ends {
        if *end != 0 {
            return false;
        }
    }
    true
}

/// For each process the numbers of sends to look at among as many first ones as its end tells,
/// beside those that were kept: of what is received after the line, but before the kept line. Where
/// all ends are 0 there are none, and no event is walked, nor are those of strangers.
pub fn candidates(
    history: &History,
    ends: &[u32],
    places: &[u32],
    strangers: &ProcSet,
    alloc: Global,
    line: &Line,
) -> Result<Vec<Numbers>, AllocError>
    requires line { IsLine history.now.processes line.now }
    requires count { length places.now ≡ length history.now.processes }
    requires ends { (p : ℕ)
        → start_at ends.now p ≤ sends (events_before history.now.processes line.now p) }
    requires strangers { AreStrangers history.now.processes line.now strangers.now }
    requires places { (q : ℕ) → place_at places.now q ≤ length (tape_at history.now.processes q) }
    ensures { IfOk result (λ rows.
        AreCandidates history.now.processes line.now ends.now places.now rows.items) }
{
    let n = history.n();
    let mut rows = empty_rows(alloc, n, 0)?;
    if are_none(ends) {
        return Ok(rows);
    }
    for receiver in 0..n {
        let q = ProcId::try_new(receiver, n).unwrap();
        if !strangers.has(q) {
            let events = events_between(history, line, q, places[receiver as usize]);
            add_receipts(&events, ends, &mut rows)?;
        }
    }
    Ok(rows)
}
