//! What links hold where a generation begins.
ghost use Rattle.std.specs.Prelude.{◌≡◌, ◌<◌, ◌≤◌, ◌+◌, ◌++◌, ◌∷◌, [], ℕ, All, List};
ghost use Rattle.std.specs.Prelude.{IfOk, None, OnOk, length, map, replicate, slice_index_or};
ghost use Rattle.std.specs.Prelude.{slice_set, Some};
ghost use Rattle.line_names.specs.declared.messages.MsgName.{MsgName};
ghost use Rattle.line_tape.specs.Event.{sends, IsShort, NamesBelow};
ghost use Rattle.line_tape.specs.Restart.{restarted_history};
ghost use Rattle.line_tape.specs.Rounds.{checked_round, rounds_checked};
ghost use Rattle.line_tape.specs.Shown.{event_of_ref};
ghost use Rattle.line_tape.specs.Transit.{in_transit, in_transit_between};
ghost use Rattle.line_tape.specs.declared.items.Item.TheVariants.{Message};
ghost use Rattle.line_posts.specs.Ends.{row_at};
ghost use Rattle.line_posts.specs.Openings.{parcels_left, ArePlain};
ghost use Rattle.line_posts.specs.Parcels.{items_of_parcels, parcels_of, parcels_sent};
ghost use Rattle.line_posts.specs.Preparations.{AreJournals};
ghost use Rattle.line_posts.specs.Replays.{cell_at, counts_of, packets_of, take_last, total};
ghost use Rattle.line_posts.specs.Replays.{with_cell, AreAllReplays, AreCounted, AreOfSender};
ghost use Rattle.line_posts.specs.Replays.{AreSquare, IsNoted};

use crate::journals::Journal;
use crate::parcels::Packet;
use line_names::{Body, MOST_BODY, MsgName};
use line_plan::Plan;
use line_tape::{EventRef, History, Tape};
use std::alloc::{AllocError, Global};
use std::collections::VecDeque;

/// No messages are counted yet, from each of `n` processes to each.
fn no_counts(alloc: Global, n: u32) -> Result<Vec<Vec<usize>>, AllocError>
    ensures { IfOk result (λ counts. counts_of counts.items ≡ replicate n (replicate n 0)) }
{
    let mut counts = Vec::with_capacity(alloc, n as usize)?;
    for _p in 0..n {
        let row = vec![in alloc; 0; n as usize]?;
        counts.push(row)?;
    }
    Ok(counts)
}

/// Counts one more message from process p to q.
fn count_one(counts: &mut Vec<Vec<usize>>, sums: &mut Vec<usize>, p: usize, q: usize)
    requires from { p < length counts.old.items }
    requires to { q < length (row_at (counts_of counts.old.items) p) }
    requires sum { p < length sums.old.items }
    requires few { cell_at 0 (counts_of counts.old.items) p q < 18_446_744_073_709_551_615 }
    requires few_in_all { slice_index_or sums.old.items p 0 < 18_446_744_073_709_551_615 }
    ensures counts { counts_of counts.new.items ≡ with_cell (counts_of counts.old.items) p q
        (cell_at 0 (counts_of counts.old.items) p q + 1) }
    ensures sums { sums.new.items
        ≡ slice_set sums.old.items p (slice_index_or sums.old.items p 0 + 1) }
{
    sums[p] += 1;
    let row = &mut counts[p];
    row[q] += 1;
}

/// Counts a message, by its sender and the process that its send names.
fn count_message(
    history: &History,
    message: &MsgName,
    counts: &mut Vec<Vec<usize>>,
    sums: &mut Vec<usize>,
)
    requires { (messages : List MsgName) × (length messages < 18_446_744_073_709_551_615)
        × AreCounted history.now.processes messages (counts_of counts.old.items) sums.old.items }
    ensures { (messages : List MsgName)
        → AreCounted history.now.processes messages (counts_of counts.old.items) sums.old.items
        → AreCounted history.now.processes (messages ++ message.now ∷ [])
        (counts_of counts.new.items) sums.new.items }
{
    let _limits = history.n();
    match history.addressee(message) {
        Some(to) => {
            let p = message.from.get() as usize;
            count_one(counts, sums, p, to.get() as usize);
        }
        None => {}
    }
}

/// Counts messages, by sender and the process that the send names.
fn count_messages(
    history: &History,
    messages: &[MsgName],
    counts: &mut Vec<Vec<usize>>,
    sums: &mut Vec<usize>,
)
    requires { AreCounted history.now.processes [] (counts_of counts.old.items) sums.old.items }
    ensures { AreCounted history.now.processes messages.now (counts_of counts.new.items)
        sums.new.items }
{
    for i in 0..messages.len() {
        count_message(history, &messages[i], counts, sums);
    }
}

/// Empty queues of packets, to each of `n` processes from each.
pub(crate) fn no_packets_yet(
    alloc: Global,
    n: u32,
) -> Result<Vec<Vec<VecDeque<Packet>>>, AllocError>
    ensures { IfOk result (λ packets. packets_of packets.items ≡ replicate n (replicate n [])) }
{
    let mut packets = Vec::with_capacity(alloc, n as usize)?;
    for _q in 0..n {
        let mut queues = Vec::with_capacity(alloc, n as usize)?;
        for _p in 0..n {
            queues.push(VecDeque::new(alloc))?;
        }
        packets.push(queues)?;
    }
    Ok(packets)
}

/// Puts a packet from process p in front of those that wait for q.
fn put_packet(
    packets: &mut Vec<Vec<VecDeque<Packet>>>,
    q: usize,
    p: usize,
    packet: Packet,
) -> Result<(), AllocError>
    requires to { q < length packets.old.items }
    requires from { p < length (row_at (packets_of packets.old.items) q) }
    ensures { OnOk result (packets_of packets.new.items ≡ with_cell (packets_of packets.old.items)
        q p (packet ∷ cell_at [] (packets_of packets.old.items) q p)) }
{
    let queues = &mut packets[q];
    let queue = &mut queues[p];
    queue.push_front(packet)?;
    Ok(())
}

/// A message as a packet.
fn packet(inc: u16, number: u32, body: &[u8]) -> Packet
    requires { length body.now ≤ MOST_BODY }
    ensures { result ≡ record { inc = inc; number = number; body = body.now } }
{
    Packet {
        inc,
        number,
        body: Body::try_new(body).unwrap(),
    }
}

/// Takes the message that an event of process p sends, if it is looked for. It answers how many it
/// took, one or zero.
fn note_sent(
    event: &EventRef<'_>,
    p: usize,
    number: u32,
    counts: &mut Vec<usize>,
    packets: &mut Vec<Vec<VecDeque<Packet>>>,
) -> Result<usize, AllocError>
    requires short { IsShort (event_of_ref event.now) }
    requires plain { checked_round (event_of_ref event.now) ≡ None }
    requires named { NamesBelow (length counts.old.items) (event_of_ref event.now) }
    requires from { p < length counts.old.items }
    requires packets { AreSquare (length counts.old.items) (packets_of packets.old.items) }
    ensures noted { IfOk result (λ taken. IsNoted p number (event_of_ref event.now)
        counts.old.items counts.new.items (packets_of packets.old.items)
        (packets_of packets.new.items) taken) }
{
    match event {
        EventRef::Send { to, inc, body } => {
            let q = to.get() as usize;
            if counts[q] == 0 {
                return Ok(0);
            }
            counts[q] -= 1;
            put_packet(packets, q, p, packet(*inc, number, body))?;
            Ok(1)
        }
        EventRef::Recv { .. } => Ok(0),
        EventRef::Check { .. } => Ok(0),
        EventRef::Mark { .. } => Ok(0),
    }
}

/// How many messages the event sends: one or zero.
fn send_count(event: &EventRef<'_>) -> u32
    ensures value { result ≡ sends (event_of_ref event.now ∷ []) }
    ensures one { result ≤ 1 }
{
    match event {
        EventRef::Send { .. } => 1,
        EventRef::Recv { .. } => 0,
        EventRef::Check { .. } => 0,
        EventRef::Mark { .. } => 0,
    }
}

/// Takes the last messages that process p sent to each process, bodies included: to each as many as
/// `counts` says, `sum` in all. It reads the tape of p from its end back to the first of them.
fn add_sent(
    tape: &Tape,
    p: usize,
    counts: &mut Vec<usize>,
    sum: usize,
    packets: &mut Vec<Vec<VecDeque<Packet>>>,
) -> Result<(), AllocError>
    requires from { p < length counts.old.items }
    requires named { All (NamesBelow (length counts.old.items)) tape.now.events }
    requires plain { rounds_checked tape.now.events ≡ [] }
    requires sum { sum ≡ total counts.old.items }
    requires packets { AreSquare (length counts.old.items) (packets_of packets.old.items) }
    requires none { (q : ℕ) → q < length counts.old.items
        → cell_at [] (packets_of packets.old.items) q p ≡ [] }
    ensures sent { OnOk result ((q : ℕ) → q < length counts.old.items
        → parcels_of (cell_at [] (packets_of packets.new.items) q p)
        ≡ take_last (slice_index_or counts.old.items q 0) (parcels_sent q 0 tape.now.events)) }
    ensures sender { OnOk result (AreOfSender (length counts.old.items) p
        (packets_of packets.old.items) (packets_of packets.new.items)) }
{
    let mut left = sum;
    let mut number = tape.sends();
    for i in (0..tape.len()).rev() {
        if left == 0 {
            return Ok(());
        }
        let event = tape.event(i);
        number -= send_count(&event);
        let taken = note_sent(&event, p, number, counts, packets)?;
        left -= taken;
    }
    Ok(())
}

/// What the links hold where all processes go on from the planned line, by receiver and then
/// sender; `journals` are those of the workers that go on.
///
/// The plan says which messages were in transit there. They are counted by sender and receiver, and
/// are found on the tapes: each tape is read from its end back to the first of them.
pub(crate) fn all_replays(
    alloc: Global,
    gathered: &History,
    plan: &Plan,
    journals: &Vec<Journal>,
) -> Result<Vec<Vec<VecDeque<Packet>>>, AllocError>
    requires transit { plan.now.replays.items ≡ in_transit gathered.now.processes plan.now.line }
    requires count { length plan.now.line ≡ length gathered.now.processes }
    requires journals { (floor : ℕ) × AreJournals
        (restarted_history gathered.now.processes plan.now.line) floor journals.now.items }
    requires plain { ArePlain (restarted_history gathered.now.processes plan.now.line) }
    requires links { (p q : ℕ)
        → items_of_parcels p
        (parcels_left (restarted_history gathered.now.processes plan.now.line) p q)
        ≡ map (λ m. Message m) (in_transit_between gathered.now.processes plan.now.line p q) }
    ensures { IfOk result (λ packets. AreAllReplays
        (restarted_history gathered.now.processes plan.now.line) (packets_of packets.items)) }
{
    let n = gathered.n();
    let mut counts = no_counts(alloc, n)?;
    let mut sums = vec![in alloc; 0; n as usize]?;
    count_messages(gathered, plan.replays.as_slice(), &mut counts, &mut sums);
    let mut packets = no_packets_yet(alloc, n)?;
    for p in 0..n as usize {
        let tape = journals[p].tape();
        let row = &mut counts[p];
        add_sent(tape, p, row, sums[p], &mut packets)?;
    }
    Ok(packets)
}
