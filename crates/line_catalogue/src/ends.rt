//! How many first sends of each process need no look.
ghost use Rattle.std.specs.Prelude.{◌≡◌, length, IfOk};
ghost use Rattle.line_tape.specs.Line.{IsLine};
ghost use Rattle.line_catalogue.specs.Left.{AreEnds};

use line_names::{Line, ProcId};
use line_tape::History;
use std::alloc::{AllocError, Global};

/// For each process how many of its first sends need no look unless their numbers are told: those
/// before its start and before the line.
pub fn ends_before(
    history: &History,
    starts: &[u32],
    alloc: Global,
    line: &Line,
) -> Result<Vec<u32>, AllocError>
    requires line { IsLine history.now.processes line.now }
    requires count { length starts.now ≡ length history.now.processes }
    ensures { IfOk result (λ ends. AreEnds history.now.processes starts.now line.now ends.items) }
{
    let n = history.n();
    let mut ends = Vec::with_capacity(alloc, n as usize)?;
    for q in 0..n {
        let p = ProcId::try_new(q, n).unwrap();
        let sends = history.tape(p).sends_before(line.at(p));
        ends.push_reserved(starts[q as usize].min(sends));
    }
    Ok(ends)
}
