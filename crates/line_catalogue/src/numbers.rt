//! Numbers of sends, for each process a row.
ghost use Rattle.std.specs.Prelude.{◌≡◌, ◌++◌, ◌∷◌, ◌↔◌, [], ℕ, List, Contains, length, map};
ghost use Rattle.std.specs.Prelude.{replicate, IfOk, IsTrue, OnOk};
ghost use Rattle.std.specs.List.Sorted.{IsNonDecreasing};
ghost use Rattle.line_names.specs.declared.messages.MsgName.{MsgName};
ghost use Rattle.line_tape.specs.Shown.{event_of_ref};
ghost use Rattle.line_tape.specs.Transit.{names_received};
ghost use Rattle.line_catalogue.specs.Left.{AreIn};

use line_names::MsgName;
use line_tape::{EventRef, Events};
use std::alloc::{AllocError, Global};
use std::marker::Model;

/// Numbers of sends of one process.
#[derive(Drop)]
pub struct Numbers {
    numbers: Vec<u32>,
}

impl Model for Numbers {
    ghost use Rattle.std.specs.Prelude.{List, ℕ};

    ghost Value = { List ℕ };

    ghost view = { λ n. n.numbers.items };
}

impl Numbers {
    /// No number, and room for so many.
    pub fn with_capacity(alloc: Global, room: usize) -> Result<Numbers, AllocError>
        ensures { IfOk result (λ numbers. numbers ≡ []) }
    {
        Ok(Numbers {
            numbers: Vec::with_capacity(alloc, room)?,
        })
    }

    /// The numbers of messages and those of a row, in order.
    pub fn of_both(
        messages: &[MsgName],
        row: &Numbers,
        alloc: Global,
    ) -> Result<Numbers, AllocError>
        ensures sorted { IfOk result (λ numbers. IsNonDecreasing numbers) }
        ensures kept { IfOk result (λ numbers. (number : ℕ)
            → Contains (map (λ (message : MsgName). message.number) messages.now ++ row.now) number
            → Contains numbers number) }
    {
        let room = messages.len().saturating_add(row.numbers.len());
        let mut numbers = Vec::with_capacity(alloc, room)?;
        for message in messages {
            numbers.push(message.number)?;
        }
        numbers.extend_from_slice(row.numbers.as_slice())?;
        numbers.sort_unstable();
        Ok(Numbers { numbers })
    }

    /// The numbers.
    pub fn as_slice(&self) -> &[u32]
        ensures { result.now ≡ self.now }
    {
        self.numbers.as_slice()
    }

    /// Whether there is none.
    pub fn is_empty(&self) -> bool
        ensures { IsTrue result ↔ (self.now ≡ []) }
    {
        self.numbers.is_empty()
    }

    /// One more.
    pub fn add(&mut self, number: u32) -> Result<(), AllocError>
        ensures { OnOk result (self.new ≡ self.old ++ number ∷ []) }
    {
        self.numbers.push(number)?;
        Ok(())
    }
}

/// For each of `n` processes a row without a number, and with room for so many.
pub fn empty_rows(alloc: Global, n: u32, room: usize) -> Result<Vec<Numbers>, AllocError>
    ensures { IfOk result (λ rows. rows.items ≡ replicate n []) }
{
    let mut rows = Vec::with_capacity(alloc, n as usize)?;
    for _p in 0..n {
        let row = Numbers::with_capacity(alloc, room)?;
        rows.push_reserved(row);
    }
    Ok(rows)
}

/// Adds the number of a message to the row of its sender, where it is below the sender's end.
fn add_name(message: &MsgName, ends: &[u32], rows: &mut Vec<Numbers>) -> Result<(), AllocError>
    ensures count { length rows.new.items ≡ length rows.old.items }
    ensures added { OnOk result ((names : List MsgName) → AreIn names ends.now rows.old.items
        → AreIn (names ++ message.now ∷ []) ends.now rows.new.items) }
{
    let p = message.from.get() as usize;
    if p < rows.len() && p < ends.len() && message.number < ends[p] {
        rows[p].add(message.number)?;
    }
    Ok(())
}

/// Adds the number of the message that an event receives, where it is below its sender's end.
fn add_receipt(
    event: &EventRef<'_>,
    ends: &[u32],
    rows: &mut Vec<Numbers>,
) -> Result<(), AllocError>
    ensures count { length rows.new.items ≡ length rows.old.items }
    ensures added { OnOk result ((names : List MsgName) → AreIn names ends.now rows.old.items
        → AreIn (names ++ names_received (event_of_ref event.now ∷ [])) ends.now rows.new.items) }
{
    match event {
        EventRef::Recv { message } => add_name(message, ends, rows),
        EventRef::Send { .. } => Ok(()),
        EventRef::Check { .. } => Ok(()),
        EventRef::Mark { .. } => Ok(()),
    }
}

/// Adds the numbers of the messages that these events receive, where they are below their ends.
pub fn add_receipts(
    events: &Events<'_>,
    ends: &[u32],
    rows: &mut Vec<Numbers>,
) -> Result<(), AllocError>
    ensures count { length rows.new.items ≡ length rows.old.items }
    ensures added { OnOk result ((names : List MsgName) → AreIn names ends.now rows.old.items
        → AreIn (names ++ names_received events.now) ends.now rows.new.items) }
{
    for i in 0..events.len() {
        add_receipt(&events.at(i), ends, rows)?;
    }
    Ok(())
}
