//! Whose old messages are received between two lines: those from before the sender's base, which
//! have no marks.
ghost use Rattle.std.specs.Prelude.{◌≡◌, ◌<◌, ◌≤◌, ℕ, Bool, false, true, List, length, drop};
ghost use Rattle.std.specs.Prelude.{Contains, IfSome, Some};
ghost use Rattle.line_names.specs.declared.messages.MsgName.{MsgName};
ghost use Rattle.line_names.specs.Sets.{is_member};
ghost use Rattle.line_tape.specs.declared.events.Event.TheVariants.{Recv};
ghost use Rattle.line_tape.specs.Line.{events_before, IsLine};
ghost use Rattle.line_tape.specs.Shown.{event_of_ref};
ghost use Rattle.line_catalogue.specs.Known.{AreOldNoted};
ghost use Rattle.line_catalogue.specs.Left.{start_at, ComeInOrder};

use crate::kept_lines::KeptLine;
use crate::known::{Known, Receiver};
use line_names::{Line, MsgName, ProcId, ProcSet};
use line_tape::{EventRef, History};

// So many messages for each process have to be kept, before it is asked whether some are old: it
// costs about as much for each sender as a third of the search for one old message.
const KEPT_FOR_A_LOOK: usize = 16;

/// Whether none of the messages is from before its sender's base. They come by sender and then by
/// number, so the first of each sender tells; where the next sender begins is searched for by
/// halves.
fn are_none(known: &Known, messages: &[MsgName]) -> bool
    requires { ComeInOrder messages.now }
    ensures { result ≡ true → (message : MsgName) → Contains messages.now message
        → start_at known.now.bases.items message.from ≤ message.number }
{
    let mut at = 0;
    while at < messages.len() {
        let first = messages[at];
        let p = first.from;
        if first.number < known.base(p.get()) {
            return false;
        }
        at = messages.partition_point(|message| message.from.get() <= p.get());
    }
    true
}

/// Notes the sender of what an event receives, if that is from before the sender's base.
fn note_receipt(known: &Known, event: &EventRef<'_>, senders: &mut ProcSet)
    ensures kept { (p : ℕ) → is_member senders.old p ≡ true → is_member senders.new p ≡ true }
    ensures noted { (message : MsgName) → event_of_ref event.now ≡ Recv message
        → message.number < start_at known.now.bases.items message.from
        → is_member senders.new message.from ≡ true }
{
    match event {
        EventRef::Recv { message } => {
            if message.number < known.base(message.from.get()) {
                *senders = senders.with(message.from);
            }
        }
        EventRef::Send { .. } => {}
        EventRef::Check { .. } => {}
        EventRef::Mark { .. } => {}
    }
}

/// Notes the senders of the old messages that a process receives after its place and before the
/// line.
fn note_receipts(
    history: &History,
    line: &Line,
    receiver: Receiver,
    known: &Known,
    senders: &mut ProcSet,
)
    requires line { IsLine history.now.processes line.now }
    requires process { receiver.p < length history.now.processes }
    ensures kept { (p : ℕ) → is_member senders.old p ≡ true → is_member senders.new p ≡ true }
    ensures noted { (message : MsgName)
        → Contains (drop receiver.place (events_before history.now.processes line.now receiver.p))
        (Recv message)
        → message.number < start_at known.now.bases.items message.from
        → is_member senders.new message.from ≡ true }
{
    let q = receiver.p;
    let events = history.tape(q).front(line.at(q));
    for i in receiver.place as usize..events.len() {
        note_receipt(known, &events.at(i), senders);
    }
}

/// The senders of which some old message that was kept is received after the places of the kept
/// line and before the new line, and others; none where so few messages were kept that searching
/// for each old one costs less. Where nothing old was kept no event is walked.
pub fn find_old(
    history: &History,
    known: &Known,
    kept: KeptLine<'_>,
    line: &Line,
) -> Option<ProcSet>
    requires line { IsLine history.now.processes line.now }
    requires places { length kept.places.now ≡ length history.now.processes }
    requires order { ComeInOrder kept.left.now }
    ensures { IfSome result (λ senders. AreOldNoted history.now.processes line.now
        kept.entry.places.now known.now.bases.items kept.entry.left.now senders) }
{
    let n = history.n();
    if kept.left.len() / (n as usize) < KEPT_FOR_A_LOOK {
        return None;
    }
    let mut senders = ProcSet::empty();
    if are_none(known, kept.left) {
        return Some(senders);
    }
    for q in 0..n {
        let receiver = Receiver {
            p: ProcId::try_new(q, n).unwrap(),
            place: kept.places[q as usize],
        };
        note_receipts(history, line, receiver, known, &mut senders);
    }
    Some(senders)
}

/// Whether it is known that a process is not among the senders.
pub fn is_quiet(senders: &Option<ProcSet>, p: ProcId) -> bool
    ensures { result ≡ true → (set : List Bool) × (senders.now ≡ Some set)
        × (is_member set p ≡ false) }
{
    match senders {
        Some(senders) => !senders.has(p),
        None => false,
    }
}
