//! What is left of a history.
ghost use Rattle.std.specs.Prelude.{◌≡◌, ◌≢◌, ◌<◌, [], ℕ, IfOk, OnOk, length};
ghost use Rattle.line_tape.specs.History.{incarnation_at, process_at, tape_at};
ghost use Rattle.line_cuts.specs.Cuts.{cut_history, cut_tape};

use crate::floors::OwnedFloor;
use crate::left_events::{TapePlace, add_left};
use line_names::{Choice, ProcId};
use line_tape::{CountError, History};
use std::alloc::{AllocError, Global};

/// Adds what is left of the tape of a process to the same process of another history, which has no
/// events yet.
fn cut_tape(
    alloc: Global,
    history: &History,
    floor: &OwnedFloor,
    p: ProcId,
    cut: &mut History,
) -> Result<(), AllocError>
    requires process { p < length history.now.processes }
    requires count { length cut.old.processes ≡ length history.now.processes }
    requires empty { tape_at cut.old.processes p ≡ [] }
    ensures count { OnOk result (length cut.new.processes ≡ length cut.old.processes) }
    ensures tape { OnOk result (tape_at cut.new.processes p
        ≡ cut_tape floor.now p (tape_at history.now.processes p)) }
    ensures incarnation { OnOk result
        (incarnation_at cut.new.processes p ≡ incarnation_at cut.old.processes p) }
    ensures others { OnOk result ((q : ℕ) → q ≢ p
        → process_at cut.new.processes q ≡ process_at cut.old.processes q) }
{
    let events = history.tape(p).front(Choice::Now);
    let mut place = TapePlace {
        process: p,
        number: 0,
        skip: floor.check(p),
    };
    for i in 0..events.len() {
        let event = events.at(i);
        add_left(alloc, floor, &place, &event, cut)?;
        place = place.after(&event);
    }
    Ok(())
}

/// What is left of a history that is cut at a floor, in memory of its own.
///
/// It looks once at each event, and takes memory for those that are left.
pub fn cut_history(
    alloc: Global,
    history: &History,
    floor: &OwnedFloor,
) -> Result<History, AllocError>
    ensures { IfOk result
        (λ cut. cut.processes ≡ cut_history floor.now history.now.processes) }
{
    let n = history.n();
    let mut cut = match History::new(alloc, n) {
        Ok(cut) => cut,
        Err(CountError::OutOfMemory) => return Err(AllocError),
        Err(CountError::BadCount) => unreachable!(),
    };
    for q in 0..n {
        let p = ProcId::try_new(q, n).unwrap();
        cut.set_incarnation(p, history.incarnation(p));
        cut_tape(alloc, history, floor, p, &mut cut)?;
    }
    Ok(cut)
}
