//! What is in transit at the checks of a completed round of colours (Lai and Yang, Information
//! Processing Letters 25(3), 1987).
ghost use Rattle.std.specs.Prelude.{◌≡◌, ◌≢◌, ◌<◌, ℕ, List, All, true, false, length, IfOk};
ghost use Rattle.std.specs.Prelude.{Some};
ghost use Rattle.line_names.specs.declared.choices.Choice.TheVariants.{Check as AtCheck};
ghost use Rattle.line_tape.specs.declared.events.Event.TheVariants.{Check};
ghost use Rattle.line_tape.specs.Front.{front, HasChoice};
ghost use Rattle.line_tape.specs.History.{tape_at, with_event};
ghost use Rattle.line_tape.specs.Line.{IsLine};
ghost use Rattle.line_tape.specs.Rounds.{check_line, has_check_of};
ghost use Rattle.line_tape.specs.Transit.{in_transit_between, letters, names_received};
ghost use Rattle.line_rounds.specs.Turning.{IsTurning};
ghost use Rattle.line_moves.specs.Listed.{IsSnapshotOf};
ghost use Rattle.line_moves.specs.Openings.{AreCountedAtLast};
ghost use Rattle.line_moves.specs.Openings.{IsCountedAtRound};

use crate::rounds::Round;
use line_catalogue::Catalogue;
use line_names::{Choice, Line, ProcId};
use line_rounds::{Channels, SharedChannels, Turning};
use line_tape::{History, Tape};
use std::alloc::{AllocError, Global};

/// Whether a choice is no earlier than a check, and only checks stand between the two. It takes
/// constant time.
pub(crate) fn are_checks_between(tape: &Tape, check: u32, choice: Choice) -> bool
    requires check { HasChoice tape.now.events (AtCheck check) }
    requires choice { HasChoice tape.now.events choice }
    ensures sent { result ≡ true → (p : ℕ) → letters p 0 (front tape.now.events (AtCheck check))
        ≡ letters p 0 (front tape.now.events choice) }
    ensures received { result ≡ true → names_received (front tape.now.events (AtCheck check))
        ≡ names_received (front tape.now.events choice) }
{
    let before = tape.front(Choice::Check(check)).len();
    let after = tape.front(choice).len();
    let checks = match choice {
        Choice::Check(check) => check,
        Choice::Now => tape.checks(),
    };
    before <= after && after + check as usize == before + checks as usize
}

/// Whether the line is no earlier than the checks of the round, and only checks stand between. It
/// takes one step for each process.
fn is_still_at(history: &History, round: &Round, line: &Line) -> bool
    requires round { IsLine history.now.processes (check_line round.now.checks) }
    requires line { IsLine history.now.processes line.now }
    ensures { result ≡ true → (p q : ℕ)
        → in_transit_between history.now.processes (check_line round.now.checks) p q
        ≡ in_transit_between history.now.processes line.now p q }
{
    let n = history.n();
    'each: for q in 0..n {
        let p = ProcId::try_new(q, n).unwrap();
        if !are_checks_between(history.tape(p), round.check(p), line.at(p)) {
            return false;
        }
    }
    true
}

/// These channels; if the last round has the same, both rounds share them.
///
/// It looks at no more messages than the smaller of the two holds.
fn shared(alloc: Global, rounds: &[Round], channels: Channels) -> Result<SharedChannels, AllocError>
    ensures { IfOk result (λ shared. shared ≡ channels) }
{
    if let Some(round) = rounds.last() {
        if let Some(counted) = round.counted() {
            if counted.is_same(&channels) {
                return counted.share();
            }
        }
    }
    SharedChannels::new(alloc, channels)
}

/// What is in transit at the line where this process stands now, and each other one at its check of
/// the open round.
///
/// If nothing was sent or received since the checks of the last round, these are that round's
/// channels, and finding them takes one step for each process. Else, if the last round has the same
/// in transit, both rounds share it. The catalogue keeps it too, so that the next count looks at no
/// other message that was sent before this line. A line is a large value, so this stands apart from
/// the function that each check calls.
#[inline(never)]
fn count_at_last(
    alloc: Global,
    catalogue: &mut Catalogue,
    turning: &Turning,
    rounds: &[Round],
    at: ProcId,
) -> Result<SharedChannels, AllocError>
    requires at { at < length catalogue.old.processes }
    requires turning { IsTurning catalogue.old.processes turning.now }
    requires others { (q : ℕ) → q < length catalogue.old.processes → q ≢ at
        → has_check_of turning.now.number (tape_at catalogue.old.processes q) ≡ true }
    requires rounds { All (IsSnapshotOf catalogue.old.processes) rounds.now }
    ensures channels { IfOk result (AreCountedAtLast catalogue.old.processes turning.now at) }
    ensures processes { catalogue.new.processes ≡ catalogue.old.processes }
    ensures marks { catalogue.new.marks ≡ catalogue.old.marks }
    ensures rooms { catalogue.new.rooms ≡ catalogue.old.rooms }
{
    let line = turning.line(at);
    if let Some(round) = rounds.last() {
        if let Some(channels) = round.counted() {
            if is_still_at(catalogue.history(), round, &line) {
                return channels.share();
            }
        }
    }
    let messages = catalogue.transit(alloc, &line)?;
    let held = Channels::of(alloc, catalogue.history(), &messages)?;
    let channels = shared(alloc, rounds, held)?;
    catalogue.keep_transit(&line, messages);
    Ok(channels)
}

/// What is in transit at the checks of the open round, if a check of this process now completes it.
pub fn count_channels(
    alloc: Global,
    catalogue: &mut Catalogue,
    turning: &Turning,
    rounds: &[Round],
    at: ProcId,
) -> Result<Option<SharedChannels>, AllocError>
    requires at { at < length catalogue.old.processes }
    requires first { has_check_of turning.now.number (tape_at catalogue.old.processes at) ≡ false }
    requires turning { IsTurning catalogue.old.processes turning.now }
    requires rounds { All (IsSnapshotOf catalogue.old.processes) rounds.now }
    ensures channels { IfOk result (λ channels. (state : List ℕ) → IsCountedAtRound
        (with_event catalogue.old.processes at (Check state (Some turning.now.number)))
        turning.now.number channels) }
    ensures processes { catalogue.new.processes ≡ catalogue.old.processes }
    ensures marks { catalogue.new.marks ≡ catalogue.old.marks }
    ensures rooms { catalogue.new.rooms ≡ catalogue.old.rooms }
{
    if !turning.is_last(at) {
        return Ok(None);
    }
    let channels = count_at_last(alloc, catalogue, turning, rounds, at)?;
    Ok(Some(channels))
}
