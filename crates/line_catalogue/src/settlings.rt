//! How a ledger settles: which sends have not to be looked at again, but for what is left of them.
ghost use Rattle.std.specs.Prelude.{◌≡◌, ◌<◌, ◌≤◌, ◌++◌, true, length, IfOk};
ghost use Rattle.line_tape.specs.Event.{sends};
ghost use Rattle.line_tape.specs.Line.{events_before, IsLine};
ghost use Rattle.line_catalogue.specs.Known.{AreReceived, AreMarksExact, AreMarksExactSince};
ghost use Rattle.line_catalogue.specs.Known.{AreOldUnreceived};
ghost use Rattle.line_catalogue.specs.Left.{open_first, AreLeft, AreSent, AreSettledUpTo};
ghost use Rattle.line_catalogue.specs.Left.{ComeInOrder, HasOpenBeside};

use crate::candidates::candidates;
use crate::ends::ends_before;
use crate::kept_lines::KeptLine;
use crate::known::find_known;
use crate::olds::{find_old, is_quiet};
use crate::senders::{Sender, add_first, add_since};
use line_names::{Line, MsgName, ProcId, ProcSet};
use line_tape::History;
use std::alloc::{AllocError, Global};

// Of so many sends of a process one message is kept at most.
const SENDS_FOR_A_MESSAGE: usize = 8;

/// For each process how many of its first sends have not to be looked at again, but for those that
/// are left.
#[derive(Drop)]
pub struct Settled {
    pub starts: Vec<u32>,
    pub left: Vec<MsgName>,
}

/// Adds what is in transit of a process, and answers at how many of its sends it need not look
/// again. These are all, unless the credit is less than the sends to look at, or the messages in
/// transit are more than an eighth of all its sends: then they are as many as before, and only what
/// is in transit of these is added.
fn settle_sender(
    history: &History,
    line: &Line,
    sender: &Sender<'_>,
    credit: &mut usize,
    messages: &mut Vec<MsgName>,
) -> Result<u32, AllocError>
    requires line { IsLine history.now.processes line.now }
    requires process { sender.now.p < length history.now.processes }
    requires end { sender.now.end ≤ sends (events_before history.now.processes line.now
        sender.now.p) }
    requires order { ComeInOrder sender.now.left.now }
    requires sent { AreSent history.now.processes sender.now.left.now }
    requires held { HasOpenBeside history.now.processes line.now sender.now.p sender.now.end
        sender.now.row.now sender.now.left.now }
    requires known { AreReceived history.now.processes line.now sender.now.p sender.now.base
        sender.now.marks.now }
    requires told { AreMarksExact history.now.processes line.now sender.now.p sender.now.base
        sender.now.marks.now sender.now.left.now }
    requires quiet { sender.now.quiet ≡ true → AreOldUnreceived history.now.processes line.now
        sender.now.p sender.now.base sender.now.left.now }
    requires told_since { sender.now.closed ≡ true
        → AreMarksExactSince history.now.processes line.now sender.now.p sender.now.end
        sender.now.base sender.now.marks.now }
    ensures before { IfOk result (λ start.
        start ≤ sends (events_before history.now.processes line.now sender.now.p)) }
    ensures left { IfOk result (λ start. messages.new.items
        ≡ messages.old.items ++ open_first history.now.processes line.now sender.now.p start) }
{
    let end = sender.end;
    let sends = history.tape(sender.p).sends_before(line.at(sender.p));
    let most = messages
        .len()
        .saturating_add(sends as usize / SENDS_FOR_A_MESSAGE);
    add_first(history, line, sender, messages)?;
    let first = messages.len();
    let asked = sends.saturating_sub(end) as usize;
    if *credit < asked {
        return Ok(end);
    }
    *credit -= asked;
    let looked = add_since(history, line, sender, Some(most), messages)?;
    if looked == sends {
        return Ok(sends);
    }
    messages.truncate(first);
    Ok(end)
}

/// Settles each sender at a line, as far as the credit goes.
pub fn find_settled(
    history: &History,
    kept: KeptLine<'_>,
    alloc: Global,
    line: &Line,
    credit: &mut usize,
) -> Result<Settled, AllocError>
    requires line { IsLine history.now.processes line.now }
    requires left { AreLeft history.now.processes kept.starts.now kept.places.now kept.left.now }
    ensures { IfOk result (λ settled. AreSettledUpTo history.now.processes line.now
        settled.starts.items settled.left.items) }
{
    let n = history.n();
    let bounds = ends_before(history, kept.starts, alloc, line)?;
    let ends = bounds.as_slice();
    let rows = candidates(history, ends, kept.places, &ProcSet::empty(), alloc, line)?;
    let received = find_known(history, ends, kept.places, kept.left.len(), alloc, line);
    let old = find_old(history, &received, kept, line);
    let mut moved = Vec::with_capacity(alloc, n as usize)?;
    let mut messages = Vec::with_capacity(alloc, kept.left.len())?;
    for p in 0..n {
        let id = ProcId::try_new(p, n).unwrap();
        let sender = Sender {
            p: id,
            end: ends[p as usize],
            left: kept.left,
            row: &rows[p as usize],
            base: received.base(p),
            marks: received.row(p),
            closed: false,
            quiet: is_quiet(&old, id),
        };
        let start = settle_sender(history, line, &sender, credit, &mut messages)?;
        moved.push_reserved(start);
    }
    Ok(Settled {
        starts: moved,
        left: messages,
    })
}
