//! What is in transit at a line.
ghost use Rattle.std.specs.Prelude.{◌≡◌, true, IfOk};
ghost use Rattle.line_tape.specs.Line.{IsLine};
ghost use Rattle.line_tape.specs.Transit.{in_transit};
ghost use Rattle.line_catalogue.specs.Left.{AreClosed, AreLeft, AreStrangers};

use crate::candidates::candidates;
use crate::ends::ends_before;
use crate::kept_lines::KeptLine;
use crate::known::find_known;
use crate::olds::{find_old, is_quiet};
use crate::senders::{Sender, add_first, add_since};
use line_names::{Line, MsgName, ProcId, ProcSet};
use line_tape::History;
use std::alloc::{AllocError, Global};

/// The messages in transit at a line, by sender, then number: of as many first ones of each sender
/// as its end tells, those that are left and those whose numbers its row has; and of the later ones
/// those that their marks tell. No message of a process that sent one before the line was received
/// by the strangers.
pub fn find_transit(
    history: &History,
    kept: KeptLine<'_>,
    strangers: &ProcSet,
    alloc: Global,
    line: &Line,
) -> Result<Vec<MsgName>, AllocError>
    requires line { IsLine history.now.processes line.now }
    requires left { AreLeft history.now.processes kept.starts.now kept.places.now kept.left.now }
    requires closed { kept.closed ≡ true
        → AreClosed history.now.processes kept.starts.now kept.places.now }
    requires strangers { AreStrangers history.now.processes line.now strangers.now }
    ensures { IfOk result (λ messages. messages.items ≡ in_transit history.now.processes line.now) }
{
    let n = history.n();
    let bounds = ends_before(history, kept.starts, alloc, line)?;
    let ends = bounds.as_slice();
    let rows = candidates(history, ends, kept.places, strangers, alloc, line)?;
    let received = find_known(history, ends, kept.places, kept.left.len(), alloc, line);
    let old = find_old(history, &received, kept, line);
    let mut messages = Vec::with_capacity(alloc, kept.left.len())?;
    for p in 0..n {
        let id = ProcId::try_new(p, n).unwrap();
        let sender = Sender {
            p: id,
            end: ends[p as usize],
            left: kept.left,
            row: &rows[p as usize],
            base: received.base(p),
            marks: received.row(p),
            closed: kept.closed,
            quiet: is_quiet(&old, id),
        };
        add_first(history, line, &sender, &mut messages)?;
        add_since(history, line, &sender, None, &mut messages)?;
    }
    Ok(messages)
}
