//! Whether what is kept has its floor, and the floor survives.
ghost use Rattle.std.specs.Prelude.{◌≡◌, ◌↔◌, ◌≤◌, IfOk, IsTrue, length};
ghost use Rattle.line_names.specs.declared.limits.TheConstants.{MOST_PROCESSES};
ghost use Rattle.line_tape.specs.Line.{IsConsistent, IsLine};
ghost use Rattle.line_vectors.specs.Reach.{sents_of};
ghost use Rattle.line_cuts.specs.Cuts.{floor_check, floor_line, FloorSurvives};
ghost use Rattle.line_live.specs.Resumed.{kept_floor, HasFloor, IsFloorOfAll};

use line_catalogue::Catalogue;
use line_cuts::OwnedFloor;
use line_names::{Choice, Line, ProcId, ProcSet};
use line_tape::is_line;
use line_vectors::Sent;
use std::alloc::{AllocError, Global};

/// How many sends of each process stand before its choice of a line.
fn sents_before(alloc: Global, catalogue: &Catalogue, line: &Line) -> Result<Sent, AllocError>
    requires { IsLine catalogue.now.processes line.now }
    ensures { IfOk result (λ sent. sent ≡ sents_of catalogue.now.processes line.now) }
{
    let n = catalogue.n();
    let mut sent = Sent::new(alloc, n)?;
    for q in 0..n {
        let p = ProcId::try_new(q, n).unwrap();
        sent.set(p, catalogue.history().tape(p).sends_before(line.at(p)));
    }
    Ok(sent)
}

/// Whether a line of a catalogue is consistent. It looks at a vector of each process.
pub(crate) fn is_consistent_at(
    alloc: Global,
    catalogue: &Catalogue,
    line: &Line,
) -> Result<bool, AllocError>
    requires { IsLine catalogue.now.processes line.now }
    ensures { IfOk result
        (λ consistent. IsTrue consistent ↔ IsConsistent catalogue.now.processes line.now) }
{
    let n = catalogue.n();
    let sent = sents_before(alloc, catalogue, line)?;
    'each: for q in 0..n {
        let p = ProcId::try_new(q, n).unwrap();
        if !catalogue.reach(p, line.at(p)).fits(&sent) {
            return Ok(false);
        }
    }
    Ok(true)
}

/// The check that a process begins with, in what is kept: its first, or its initial state.
fn first_check(floor: &OwnedFloor, p: ProcId) -> u32
    ensures { result ≡ floor_check (kept_floor floor.now) p }
{
    floor.check(p).saturating_sub(floor.checks_lost(p))
}

/// The line of the checks that `n` processes begin with, in what is kept.
fn kept_line(floor: &OwnedFloor, n: u32) -> Line
    requires few { n ≤ MOST_PROCESSES }
    requires count { length floor.now.checks ≡ n }
    ensures { result ≡ floor_line (kept_floor floor.now) }
{
    let mut line = Line::new();
    for q in 0..n {
        let p = ProcId::try_new(q, n).unwrap();
        line.push(Choice::Check(first_check(floor, p)));
    }
    line
}

/// Whether the checks that processes begin with survive, whoever failed.
fn does_survive(catalogue: &Catalogue, floor: &OwnedFloor) -> bool
    ensures { IsTrue result
        ↔ FloorSurvives catalogue.now.processes catalogue.now.marks (kept_floor floor.now) }
{
    let nobody = ProcSet::empty();
    let n = catalogue.n();
    'each: for q in 0..n {
        let p = ProcId::try_new(q, n).unwrap();
        if !catalogue.survives(p, Choice::Check(first_check(floor, p)), &nobody) {
            return false;
        }
    }
    true
}

/// Whether what is kept has the floor, and the floor survives. It looks at a vector of each
/// process.
pub(crate) fn has_floor(
    alloc: Global,
    catalogue: &Catalogue,
    floor: &OwnedFloor,
) -> Result<bool, AllocError>
    requires { IsFloorOfAll (length catalogue.now.processes) floor.now }
    ensures { IfOk result (λ held.
        IsTrue held ↔ HasFloor catalogue.now.processes catalogue.now.marks floor.now) }
{
    let line = kept_line(floor, catalogue.n());
    if !is_line(catalogue.history(), &line) {
        return Ok(false);
    }
    if !does_survive(catalogue, floor) {
        return Ok(false);
    }
    is_consistent_at(alloc, catalogue, &line)
}
