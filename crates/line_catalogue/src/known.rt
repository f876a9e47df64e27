//! Which sends are known to be received, so that they need not be asked for.
ghost use Rattle.std.specs.Prelude.{◌≡◌, ◌<◌, ◌≤◌, ◌+◌, ◌-◌, ◌↔◌, ℕ, List, Bool, false, true};
ghost use Rattle.std.specs.Prelude.{length, slice_get, slice_index_or, Contains, IfOk, IsTrue};
ghost use Rattle.std.specs.Prelude.{[], None};
ghost use Rattle.std.specs.List.Sorted.{IsNonDecreasing};
ghost use Rattle.line_names.specs.declared.choices.Choice.{Choice};
ghost use Rattle.line_tape.specs.declared.events.Event.TheVariants.{Recv};
ghost use Rattle.line_tape.specs.Event.{NamesBelow};
ghost use Rattle.line_tape.specs.Fit.{IsSentTo};
ghost use Rattle.line_tape.specs.Line.{events_before, IsLine};
ghost use Rattle.line_tape.specs.Shown.{event_of_ref};
ghost use Rattle.line_tape.specs.Transit.{has_received};
ghost use Rattle.line_catalogue.specs.Known.{AreAllReceiptsMarked, AreKnown, AreMarkRows};
ghost use Rattle.line_catalogue.specs.Known.{AreReceiptsMarkedSince};
ghost use Rattle.line_catalogue.specs.Known.{HasMark, IsReceiptMarked};
ghost use Rattle.line_catalogue.specs.Left.{start_at};

use line_names::{Line, MsgName, ProcId};
use line_tape::{EventRef, History};
use std::alloc::{AllocError, Global};

// So many events are walked at most for each send that is to be asked of otherwise: less work than
// to ask of it.
const EVENTS_FOR_A_SEND: u64 = 8;

// So many sends since the kept line may be marked at most for each event that is walked and each
// message that was kept: others are asked of in vain.
const SENDS_FOR_AN_EVENT: u64 = 8;

// So many marks are there before the kept line for each message that was kept, on the average. The
// messages that were sent before these are asked of, unless nothing of their sender from before
// these is received since.
const MARKS_FOR_A_MESSAGE: usize = 8;

/// For each process marks at its sends from its base on that stand before a line. Those of all
/// processes stand one after another, so that memory is not asked for process by process.
#[derive(Drop)]
pub struct Known {
    // For each process its first send that has a mark.
    pub bases: Vec<u32>,
    // Where the marks of each process begin, and after the last one where they end.
    pub starts: Vec<usize>,
    pub marks: Vec<bool>,
}

impl Known {
    /// No marks.
    fn none(alloc: Global) -> Known
        ensures starts { result.starts.items ≡ [] }
    {
        Known {
            bases: Vec::new(alloc),
            starts: Vec::new(alloc),
            marks: Vec::new(alloc),
        }
    }

    /// The first send of a process that has a mark.
    pub fn base(&self, p: u32) -> u32
        ensures { result ≡ start_at self.now.bases.items p }
    {
        match self.bases.as_slice().get(p as usize) {
            Some(base) => *base,
            None => 0,
        }
    }

    /// The marks of a process; none where there was no memory for them.
    pub fn row(&self, p: u32) -> &[bool]
        ensures marked { (k : ℕ) → slice_index_or result.now k false ≡ true
            → HasMark self.now.starts.items self.now.marks.items p k }
        ensures within { (k : ℕ) → k < length result.now
            → start_at self.now.starts.items p + k < start_at self.now.starts.items (p + 1) }
        ensures same { (k : ℕ) → k < length result.now → slice_index_or result.now k false
            ≡ slice_index_or self.now.marks.items (start_at self.now.starts.items p + k) false }
    {
        let p = p as usize;
        let starts = self.starts.as_slice();
        let marks = self.marks.as_slice();
        if p + 1 >= starts.len() {
            return &[];
        }
        let start = starts[p];
        let end = starts[p + 1];
        if start <= end && end <= marks.len() {
            &marks[start..end]
        } else {
            &[]
        }
    }
}

/// The mark of a send, where the marks begin at `base`; none where it has none.
pub fn mark_of(marks: &[bool], base: u32, number: u32) -> Option<bool>
    ensures before { number < base → result ≡ None }
    ensures since { base ≤ number → result ≡ slice_get marks.now (number - base) }
{
    if number < base {
        return None;
    }
    marks.get((number - base) as usize).copied()
}

/// Where the marks of each process begin: after those of the processes before it.
fn find_starts(
    history: &History,
    bases: &[u32],
    alloc: Global,
    line: &Line,
) -> Result<Vec<usize>, AllocError>
    requires line { IsLine history.now.processes line.now }
    requires count { length bases.now ≡ length history.now.processes }
    ensures count { IfOk result (λ starts.
        length starts.items ≡ length history.now.processes + 1) }
    ensures sorted { IfOk result (λ starts. IsNonDecreasing starts.items) }
{
    let n = history.n();
    let mut starts = Vec::with_capacity(alloc, n as usize + 1)?;
    let mut start = 0usize;
    for q in 0..n {
        starts.push_reserved(start);
        let p = ProcId::try_new(q, n).unwrap();
        let sends = history.tape(p).sends_before(line.at(p));
        // No history has so many sends that this ends at the greatest number.
        start = start.saturating_add(sends.saturating_sub(bases[q as usize]) as usize);
    }
    starts.push_reserved(start);
    Ok(starts)
}

/// Whether there are sends to ask of otherwise, and the events between the places and the line are
/// neither many nor few beside them. If they are many, to ask costs less than to walk them; if they
/// are few, most sends since the kept line get no mark. Of what was kept each message that has no
/// mark is known, too.
fn is_worth_walking(
    history: &History,
    ends: &[u32],
    places: &[u32],
    kept: usize,
    line: &Line,
) -> bool
    requires line { IsLine history.now.processes line.now }
    requires count { length ends.now ≡ length history.now.processes }
    requires places { length places.now ≡ length history.now.processes }
{
    let n = history.n();
    let mut events = 0u64;
    let mut sends = 0u64;
    for q in 0..n {
        let p = ProcId::try_new(q, n).unwrap();
        let tape = history.tape(p);
        let place = tape.place(line.at(p)).unwrap();
        let between = place.saturating_sub(places[q as usize]);
        events = events.saturating_add(u64::from(between));
        let asked = tape
            .sends_before(line.at(p))
            .saturating_sub(ends[q as usize]);
        sends = sends.saturating_add(u64::from(asked));
    }
    let kept = kept as u64;
    let asked = sends.saturating_add(kept);
    0 < asked
        && events <= asked.saturating_mul(EVENTS_FOR_A_SEND)
        && sends
            <= events
                .saturating_add(kept)
                .saturating_mul(SENDS_FOR_AN_EVENT)
}

/// Whether the sender's tape holds the message, and its send is to process `q`.
fn is_sent_to(history: &History, message: &MsgName, q: ProcId) -> bool
    requires { message.now.from < length history.now.processes }
    ensures { IsTrue result ↔ IsSentTo history.now.processes q message.now }
{
    let tape = history.tape(message.from);
    match tape.addressee(message.number) {
        Some(to) => to.get() == q.get() && tape.sent_under(message.number) == Some(message.inc),
        None => false,
    }
}

/// Marks the send of a message that process `q` receives before the line, if it was sent to `q`.
fn mark_send(
    history: &History,
    q: ProcId,
    message: &MsgName,
    bases: &[u32],
    starts: &[usize],
    marks: &mut [bool],
)
    requires sender { message.now.from < length history.now.processes }
    requires bases { length bases.now ≡ length history.now.processes }
    requires rows { AreMarkRows history.now.processes starts.now marks.old }
    ensures known { (line : List Choice)
        → has_received (events_before history.now.processes line q) message.now ≡ true
        → AreKnown history.now.processes line bases.now starts.now marks.old
        → AreKnown history.now.processes line bases.now starts.now marks.new }
    ensures kept { (i : ℕ) → slice_index_or marks.old i false ≡ true
        → slice_index_or marks.new i false ≡ true }
    ensures noted { IsReceiptMarked history.now.processes bases.now starts.now marks.new q
        (Recv message.now) }
{
    let p = message.from.get() as usize;
    let base = bases[p];
    if base <= message.number {
        let k = (message.number - base) as usize;
        let start = starts[p];
        if k < starts[p + 1] - start && is_sent_to(history, message, q) {
            marks[start + k] = true;
        }
    }
}

/// Marks what an event of process `q` before the line receives.
fn mark_receipt(
    history: &History,
    q: ProcId,
    event: &EventRef<'_>,
    bases: &[u32],
    starts: &[usize],
    marks: &mut [bool],
)
    requires names { NamesBelow (length history.now.processes) (event_of_ref event.now) }
    requires bases { length bases.now ≡ length history.now.processes }
    requires rows { AreMarkRows history.now.processes starts.now marks.old }
    ensures known { (line : List Choice)
        → Contains (events_before history.now.processes line q) (event_of_ref event.now)
        → AreKnown history.now.processes line bases.now starts.now marks.old
        → AreKnown history.now.processes line bases.now starts.now marks.new }
    ensures kept { (i : ℕ) → slice_index_or marks.old i false ≡ true
        → slice_index_or marks.new i false ≡ true }
    ensures noted { IsReceiptMarked history.now.processes bases.now starts.now marks.new q
        (event_of_ref event.now) }
{
    match event {
        EventRef::Recv { message } => mark_send(history, q, message, bases, starts, marks),
        EventRef::Send { .. } => {}
        EventRef::Check { .. } => {}
        EventRef::Mark { .. } => {}
    }
}

/// A process, and how many of its first events are not walked.
#[derive(Clone, Copy)]
pub struct Receiver {
    pub p: ProcId,
    pub place: u32,
}

/// Marks what a process receives after its place and before the line.
fn mark_receipts(
    history: &History,
    line: &Line,
    receiver: Receiver,
    bases: &[u32],
    starts: &[usize],
    marks: &mut [bool],
)
    requires line { IsLine history.now.processes line.now }
    requires process { receiver.p < length history.now.processes }
    requires bases { length bases.now ≡ length history.now.processes }
    requires rows { AreMarkRows history.now.processes starts.now marks.old }
    ensures known { AreKnown history.now.processes line.now bases.now starts.now marks.old
        → AreKnown history.now.processes line.now bases.now starts.now marks.new }
    ensures kept { (i : ℕ) → slice_index_or marks.old i false ≡ true
        → slice_index_or marks.new i false ≡ true }
    ensures noted { AreReceiptsMarkedSince history.now.processes line.now bases.now starts.now
        marks.new receiver.p receiver.place }
{
    let q = receiver.p;
    let events = history.tape(q).front(line.at(q));
    for i in receiver.place as usize..events.len() {
        mark_receipt(history, q, &events.at(i), bases, starts, marks);
    }
}

/// The marks of all processes, where there is memory for them. Those of each process begin as many
/// sends before its end as the messages that were kept pay for; and those are set that the receipts
/// after the places and before the line tell.
fn mark_all(
    history: &History,
    ends: &[u32],
    places: &[u32],
    kept: usize,
    alloc: Global,
    line: &Line,
) -> Result<Known, AllocError>
    requires line { IsLine history.now.processes line.now }
    requires count { length ends.now ≡ length history.now.processes }
    requires places { length places.now ≡ length history.now.processes }
    ensures known { IfOk result (λ known. AreKnown history.now.processes line.now
        known.bases.items known.starts.items known.marks.items) }
    ensures noted { IfOk result (λ known. AreAllReceiptsMarked history.now.processes line.now
        places.now known.bases.items known.starts.items known.marks.items) }
{
    let n = history.n();
    let before = kept.saturating_mul(MARKS_FOR_A_MESSAGE) / n as usize;
    let before = before.min(u32::MAX as usize) as u32;
    let mut bases = Vec::from_slice(alloc, ends)?;
    for p in 0..bases.len() {
        bases[p] = bases[p].saturating_sub(before);
    }
    let starts = find_starts(history, bases.as_slice(), alloc, line)?;
    let all = starts[starts.len() - 1];
    let mut marks = vec![in alloc; false; all]?;
    for q in 0..n {
        let receiver = Receiver {
            p: ProcId::try_new(q, n).unwrap(),
            place: places[q as usize],
        };
        mark_receipts(
            history,
            line,
            receiver,
            bases.as_slice(),
            starts.as_slice(),
            marks.as_mut_slice(),
        );
    }
    Ok(Known {
        bases,
        starts,
        marks,
    })
}

/// For each process marks at its sends from its base on: whatever is marked is received before the
/// line. All is marked that the receipts after the places and before the line tell. So of what was
/// kept, `kept` messages in all, a message is in transit where it has a mark that is not set. There
/// are no marks where it is not worth it to walk the events there, or where there is no memory for
/// them.
pub fn find_known(
    history: &History,
    ends: &[u32],
    places: &[u32],
    kept: usize,
    alloc: Global,
    line: &Line,
) -> Known
    requires line { IsLine history.now.processes line.now }
    requires count { length ends.now ≡ length history.now.processes }
    requires places { length places.now ≡ length history.now.processes }
    ensures known { AreKnown history.now.processes line.now result.bases.items
        result.starts.items result.marks.items }
    ensures noted { AreAllReceiptsMarked history.now.processes line.now places.now
        result.bases.items
        result.starts.items result.marks.items }
{
    if !is_worth_walking(history, ends, places, kept, line) {
        return Known::none(alloc);
    }
    match mark_all(history, ends, places, kept, alloc, line) {
        Ok(known) => known,
        Err(AllocError) => Known::none(alloc),
    }
}
