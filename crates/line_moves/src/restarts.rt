//! What the links hold after a restart at a line.
ghost use Rattle.std.specs.Prelude.{◌≡◌, ◌<◌, ◌++◌, ℕ, filter, map, length, OnOk};
ghost use Rattle.std.specs.Prelude.{OnErr};
ghost use Rattle.line_tape.specs.declared.items.Item.TheVariants.{Message};
ghost use Rattle.line_tape.specs.Transit.{goes_between, in_transit, in_transit_between};
ghost use Rattle.line_rounds.specs.Tables.{between};
ghost use Rattle.line_moves.specs.Rooms.{items_held, AreCountedOnQueues, AreUncounted};
ghost use Rattle.line_moves.specs.Rooms.{HaveRoom};
ghost use Rattle.line_moves.specs.Worlds.{AreQueues};

use crate::links::{LinkRow, Links};
use line_names::{Line, MsgName};
use line_tape::{History, Item};
use std::alloc::AllocError;

/// Sets the count of messages to 0 on the links that these go to.
fn count_none(history: &History, messages: &[MsgName], rows: &mut Vec<LinkRow>)
    requires { AreQueues history.now.processes (map items_held rows.old.items) }
    ensures same { map items_held rows.new.items ≡ map items_held rows.old.items }
    ensures none { AreUncounted history.now.processes messages.now (length messages.now)
        rows.new.items }
{
    let _n = history.n();
    for message in messages {
        if let Some(to) = history.addressee(message) {
            let row = &mut rows[message.from.get() as usize];
            row.count_none(to);
        }
    }
}

/// Counts the messages that go to each link, and makes room for them there.
fn count_messages(
    history: &History,
    messages: &[MsgName],
    rows: &mut Vec<LinkRow>,
) -> Result<(), AllocError>
    requires queued { AreQueues history.now.processes (map items_held rows.old.items) }
    requires none { AreUncounted history.now.processes messages.now (length messages.now)
        rows.old.items }
    ensures same { map items_held rows.new.items ≡ map items_held rows.old.items }
    ensures counted { OnOk result
        (AreCountedOnQueues history.now.processes messages.now
        (length messages.now) rows.new.items) }
{
    let _n = history.n();
    let most = messages.len();
    for message in messages {
        if let Some(to) = history.addressee(message) {
            let row = &mut rows[message.from.get() as usize];
            row.count(to, most)?;
        }
    }
    Ok(())
}

/// Puts each message at the end of the link to the process that its send names, in order, in room
/// made for it.
fn put_messages(history: &History, messages: &[MsgName], rows: &mut Vec<LinkRow>)
    requires queued { AreQueues history.now.processes (map items_held rows.old.items) }
    requires room { HaveRoom history.now.processes messages.now 0 rows.old.items }
    ensures queued { AreQueues history.now.processes (map items_held rows.new.items) }
    ensures put { (p q : ℕ) → p < length history.now.processes → q < length history.now.processes
        → between (map items_held rows.new.items) p q
        ≡ between (map items_held rows.old.items) p q
        ++ map (λ m. Message m) (filter (goes_between history.now.processes p q) messages.now) }
{
    let _n = history.n();
    for message in messages {
        if let Some(to) = history.addressee(message) {
            let row = &mut rows[message.from.get() as usize];
            row.push_reserved(to, Item::Message(*message));
        }
    }
}

/// Has links that keep their order hold what is in transit at a line. If memory runs out, they hold
/// what they held.
///
/// It looks three times at each message in transit. It empties the links from each process that put
/// something on one since they were last emptied.
pub fn restart_links(
    history: &History,
    links: &mut Links,
    _line: &Line,
    messages: &[MsgName],
) -> Result<(), AllocError>
    requires transit { messages.now ≡ in_transit history.now.processes _line.now }
    requires queued { AreQueues history.now.processes links.old }
    ensures queued { OnOk result (AreQueues history.now.processes links.new) }
    ensures put { OnOk result ((p q : ℕ)
        → p < length history.now.processes → q < length history.now.processes
        → between links.new p q
        ≡ map (λ m. Message m) (in_transit_between history.now.processes _line.now p q)) }
    ensures err { OnErr result (links.new ≡ links.old) }
{
    count_none(history, messages, &mut links.rows);
    count_messages(history, messages, &mut links.rows)?;
    for p in 0..links.rows.len() {
        let row = &mut links.rows[p];
        row.clear();
    }
    put_messages(history, messages, &mut links.rows);
    Ok(())
}

/// Has links without an order hold one more copy of what is in transit at a line. If memory runs
/// out, they hold what they held.
///
/// It looks three times at each message in transit, and moves no copy.
pub fn restart_copies(
    history: &History,
    links: &mut Links,
    _line: &Line,
    copies: &[MsgName],
) -> Result<(), AllocError>
    requires transit { copies.now ≡ in_transit history.now.processes _line.now }
    requires queued { AreQueues history.now.processes links.old }
    ensures queued { OnOk result (AreQueues history.now.processes links.new) }
    ensures put { OnOk result ((p q : ℕ)
        → p < length history.now.processes → q < length history.now.processes
        → between links.new p q ≡ between links.old p q
        ++ map (λ m. Message m) (in_transit_between history.now.processes _line.now p q)) }
    ensures err { OnErr result (links.new ≡ links.old) }
{
    count_none(history, copies, &mut links.rows);
    count_messages(history, copies, &mut links.rows)?;
    put_messages(history, copies, &mut links.rows);
    Ok(())
}
