//! Whether no round of markers is open in a history.
ghost use Rattle.std.specs.Prelude.{◌≡◌, ◌<◌, ◌≤◌, ◌+◌, ◌↔◌, ◌==◌, ◌∷◌, ◌++◌, [], ℕ, false, true};
ghost use Rattle.std.specs.Prelude.{drop, length, slice_index_or, slice_set, IfOk, IsTrue, List};
ghost use Rattle.std.specs.Prelude.{None};
ghost use Rattle.std.specs.List.{cons_option, filter_map};
ghost use Rattle.line_tape.specs.declared.events.Event.{Event};
ghost use Rattle.line_tape.specs.declared.items.Item.{Item};
ghost use Rattle.line_tape.specs.Event.{sends};
ghost use Rattle.line_tape.specs.Fit.{item_received, items_sent, received_from, sent_between};
ghost use Rattle.line_tape.specs.History.{tape_at};
ghost use Rattle.line_tape.specs.Shown.{event_of_ref};
ghost use Rattle.line_world.specs.Deliveries.{AreDelivered, AreRoundsNoted, HasRoundsUpTo};
ghost use Rattle.line_world.specs.Deliveries.{IsNextUpTo};
ghost use Rattle.line_world.specs.Idle.{IsIdle};

use line_names::{Choice, MsgName, ProcId};
use line_tape::{EventRef, Events, History, Item};
use std::alloc::{AllocError, Global};

/// What an event takes from the link from a process.
fn item_received(event: &EventRef<'_>, p: ProcId) -> Option<Item>
    ensures { result ≡ item_received p (event_of_ref event.now) }
{
    match event {
        EventRef::Send { .. } => None,
        EventRef::Recv { message } => {
            if message.from.get() == p.get() {
                Some(Item::Message(*message))
            } else {
                None
            }
        }
        EventRef::Check { .. } => None,
        EventRef::Mark { from, round } => {
            if from.get() == p.get() {
                Some(Item::Marker(*round))
            } else {
                None
            }
        }
    }
}

/// What an event of process `p`, after so many sends, puts on the link to another.
fn item_sent(event: &EventRef<'_>, p: ProcId, q: ProcId, number: u32) -> Option<Item>
    ensures { items_sent p q number (event_of_ref event.now ∷ []) ≡ cons_option result [] }
{
    match event {
        EventRef::Send { to, inc, .. } => {
            if to.get() == q.get() {
                Some(Item::Message(MsgName {
                    from: p,
                    inc: *inc,
                    number,
                }))
            } else {
                None
            }
        }
        EventRef::Recv { .. } => None,
        EventRef::Check { round, .. } => match round {
            Some(round) => Some(Item::Marker(*round)),
            None => None,
        },
        EventRef::Mark { .. } => None,
    }
}

/// How many sends an event is.
fn sends_in(event: &EventRef<'_>) -> u32
    ensures value { result ≡ sends (event_of_ref event.now ∷ []) }
    ensures one { result ≤ 1 }
{
    match event {
        EventRef::Send { .. } => 1,
        EventRef::Recv { .. } => 0,
        EventRef::Check { .. } => 0,
        EventRef::Mark { .. } => 0,
    }
}

/// Whether two items are the same.
fn is_same(item: &Item, other: &Item) -> bool
    ensures { IsTrue result ↔ (item.now ≡ other.now) }
{
    match item {
        Item::Message(message) => match other {
            Item::Message(another) => message == another,
            Item::Marker(_) => false,
        },
        Item::Marker(round) => match other {
            Item::Message(_) => false,
            Item::Marker(another) => *round == *another,
        },
    }
}

/// What the events from a place on take first from the link from a process. The place is then the
/// one after that, or the end.
fn next_received(events: &Events<'_>, p: ProcId, place: &mut usize) -> Option<Item>
    ensures left { filter_map (item_received p) (drop place.old events.now)
        ≡ cons_option result (filter_map (item_received p) (drop place.new events.now)) }
    ensures none { result ≡ None
        → filter_map (item_received p) (drop place.new events.now) ≡ [] }
{
    let start = *place;
    for i in start..events.len() {
        match item_received(&events.at(i), p) {
            Some(item) => {
                *place = i + 1;
                return Some(item);
            }
            None => {}
        }
    }
    *place = events.len();
    None
}

/// Whether an item that process `p` puts on the link to `q` is the next one that `q` takes from
/// there; where `q` takes none, whether it may stay there.
fn is_delivered(item: &Item, events: &Events<'_>, p: ProcId, q: ProcId, place: &mut usize) -> bool
    ensures no { (rest : List Item) → result ≡ false
        → AreDelivered (p == q) (filter_map (item_received p) (drop place.old events.now))
        (item.now ∷ rest) → ⊥ }
    ensures yes { (rest : List Item) → IsTrue result
        → (AreDelivered (p == q) (filter_map (item_received p) (drop place.new events.now)) rest
        ↔ AreDelivered (p == q) (filter_map (item_received p) (drop place.old events.now))
        (item.now ∷ rest)) }
{
    match next_received(events, p, place) {
        Some(taken) => is_same(&taken, item),
        None => match item {
            Item::Message(_) => true,
            Item::Marker(_) => p.get() == q.get(),
        },
    }
}

/// Whether process `q` received from `p` what `p` sent to it, as far as it has come, and no marker
/// is left between two different ones. It looks once at each event of both.
fn are_delivered(history: &History, p: ProcId, q: ProcId) -> bool
    requires from { p < length history.now.processes }
    requires to { q < length history.now.processes }
    ensures { IsTrue result ↔ AreDelivered (p == q) (received_from history.now.processes q p)
        (sent_between history.now.processes p q) }
{
    let sent = history.tape(p).front(Choice::Now);
    let received = history.tape(q).front(Choice::Now);
    let mut number = 0;
    let mut place = 0;
    for i in 0..sent.len() {
        let event = sent.at(i);
        match item_sent(&event, p, q, number) {
            Some(item) => {
                if !is_delivered(&item, &received, p, q, &mut place) {
                    return false;
                }
            }
            None => {}
        }
        number += sends_in(&event);
    }
    next_received(&received, p, &mut place).is_none()
}

/// Whether each process received from `p` what `p` sent to it.
fn all_delivered(history: &History, p: ProcId) -> bool
    requires { p < length history.now.processes }
    ensures { IsTrue result ↔ ((q : ℕ) → q < length history.now.processes
        → AreDelivered (p == q) (received_from history.now.processes q p)
        (sent_between history.now.processes p q)) }
{
    let n = history.n();
    for i in 0..n {
        let q = ProcId::try_new(i, n).unwrap();
        if !are_delivered(history, p, q) {
            return false;
        }
    }
    true
}

/// Whether the flag of a round is set; no where there is none.
fn has_flag(flags: &Vec<bool>, round: u32) -> bool
    ensures { result ≡ slice_index_or flags.now.items round false }
{
    match flags.get(round as usize) {
        Some(flag) => *flag,
        None => false,
    }
}

/// Sets the flag of a round, if there is one that is not set yet; whether it did so.
fn set_flag(flags: &mut Vec<bool>, round: u32) -> bool
    ensures value { IsTrue result ↔ ((round < length flags.old.items)
        × (slice_index_or flags.old.items round false ≡ false)) }
    ensures flags { IsTrue result → flags.new.items ≡ slice_set flags.old.items round true }
    ensures count { length flags.new.items ≡ length flags.old.items }
{
    if round as usize >= flags.len() || flags[round as usize] {
        return false;
    }
    flags[round as usize] = true;
    true
}

/// Whether the event of a tape may come after those that were noted; it is then noted too.
fn note_event(event: &EventRef<'_>, flags: &mut Vec<bool>) -> bool
    ensures next { (last : ℕ) (seen : List Event) → AreRoundsNoted last seen flags.old.items
        → (IsTrue result ↔ IsNextUpTo last seen (event_of_ref event.now)) }
    ensures noted { (last : ℕ) (seen : List Event) → AreRoundsNoted last seen flags.old.items
        → IsTrue result
        → AreRoundsNoted last (seen ++ event_of_ref event.now ∷ []) flags.new.items }
    ensures count { length flags.new.items ≡ length flags.old.items }
{
    match event {
        EventRef::Send { .. } => true,
        EventRef::Recv { .. } => true,
        EventRef::Check { round, .. } => match round {
            Some(round) => set_flag(flags, *round),
            None => true,
        },
        EventRef::Mark { round, .. } => has_flag(flags, *round),
    }
}

/// Whether the rounds of a tape are up to the last one, new with each check, and no marker comes
/// before its check.
fn rounds_follow(events: &Events<'_>, last: u32, flags: &mut Vec<bool>) -> bool
    requires { length flags.old.items ≡ last + 1 }
    ensures value { IsTrue result ↔ HasRoundsUpTo last events.now }
    ensures count { length flags.new.items ≡ length flags.old.items }
{
    flags.fill(false);
    for i in 0..events.len() {
        if !note_event(&events.at(i), flags) {
            return false;
        }
    }
    true
}

/// Whether the rounds of all tapes do.
fn all_follow(history: &History, last: u32, flags: &mut Vec<bool>) -> bool
    requires { length flags.old.items ≡ last + 1 }
    ensures { IsTrue result ↔ ((p : ℕ) → p < length history.now.processes
        → HasRoundsUpTo last (tape_at history.now.processes p)) }
{
    let n = history.n();
    for i in 0..n {
        let p = ProcId::try_new(i, n).unwrap();
        if !rounds_follow(&history.tape(p).front(Choice::Now), last, flags) {
            return false;
        }
    }
    true
}

/// Whether links that keep their order can lead to the history, and none of its rounds is open or
/// later than `last_round`: each marker that was sent to another process was received.
///
/// It looks at each event twice for each process, and has a flag for each round up to the last.
pub fn is_idle(alloc: Global, history: &History, last_round: u32) -> Result<bool, AllocError>
    ensures { IfOk result (λ idle. IsTrue idle ↔ IsIdle history.now.processes last_round) }
{
    let mut flags = vec![in alloc; false; last_round as usize + 1]?;
    if !all_follow(history, last_round, &mut flags) {
        return Ok(false);
    }
    let n = history.n();
    for i in 0..n {
        let p = ProcId::try_new(i, n).unwrap();
        if !all_delivered(history, p) {
            return Ok(false);
        }
    }
    Ok(true)
}
