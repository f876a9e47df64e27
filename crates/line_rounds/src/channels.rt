//! What is in transit at a line, from each process to each.
ghost use Rattle.std.specs.Prelude.{◌≡◌, ◌<◌, ◌≤◌, ◌↔◌, [], List, All, AllPairs, length, replicate};
ghost use Rattle.std.specs.Prelude.{slice_index_or, IfOk, IfSome, IsTrue};
ghost use Rattle.line_names.specs.declared.choices.Choice.{Choice};
ghost use Rattle.line_tape.specs.Transit.{in_transit};
ghost use Rattle.line_rounds.specs.Channels.{channels_at};
ghost use Rattle.line_rounds.specs.Inboxes.{held_for, messages_from, AreFrom, AreByAddressee};
ghost use Rattle.line_rounds.specs.Inboxes.{InboxView};
ghost use Rattle.line_rounds.specs.Tables.{between, table_of, IsTable};

use crate::inboxes::Inbox;
use crate::runs::Sharing;
use line_names::{MOST_PROCESSES, MsgName, ProcId};
use line_tape::History;
use std::alloc::{AllocError, Global};
use std::marker::Model;

/// The messages to one process, as they are gathered.
#[derive(Drop)]
struct ChannelRow {
    messages: Vec<MsgName>,
}

impl Model for ChannelRow {
    ghost use Rattle.std.specs.Prelude.{List};
    ghost use Rattle.line_names.specs.declared.messages.MsgName.{MsgName};

    ghost Value = { List MsgName };

    ghost view = { λ r. r.messages.items };
}

/// `n` rows with nothing in them.
fn empty_rows(alloc: Global, n: u32) -> Result<Vec<ChannelRow>, AllocError>
    ensures { IfOk result (λ rows. rows.items ≡ replicate n []) }
{
    let mut rows = Vec::with_capacity(alloc, n as usize)?;
    for _q in 0..n {
        rows.push(ChannelRow {
            messages: Vec::new(alloc),
        })?;
    }
    Ok(rows)
}

/// The messages by the process that the send of each names, in the order that they come in.
fn gather(
    alloc: Global,
    history: &History,
    messages: &[MsgName],
) -> Result<Vec<ChannelRow>, AllocError>
    ensures { IfOk result (λ rows. AreByAddressee history.now.processes messages.now rows.items) }
{
    let mut rows = empty_rows(alloc, history.n())?;
    for message in messages {
        if let Some(to) = history.addressee(message) {
            rows[to.get() as usize].messages.push(*message)?;
        }
    }
    Ok(rows)
}

/// What process `from` sent of what is in the inbox of process `to`.
fn held(inboxes: &[Inbox], from: ProcId, to: ProcId) -> &[MsgName]
    requires { AllPairs (λ (a b : InboxView). a.to < b.to) inboxes.now }
    ensures { result.now ≡ messages_from from (held_for inboxes.now to) }
{
    let place = inboxes.partition_point(|inbox| inbox.to().get() < to.get());
    match inboxes.get(place) {
        Some(inbox) => {
            if inbox.to().get() == to.get() {
                inbox.from(from)
            } else {
                &[]
            }
        }
        None => &[],
    }
}

/// What process `from` sent of what is in the inbox of process `to`. It looks first where the inbox
/// stands if each process before has one.
fn held_at(inboxes: &[Inbox], from: ProcId, to: ProcId) -> &[MsgName]
    requires { AllPairs (λ (a b : InboxView). a.to < b.to) inboxes.now }
    ensures { result.now ≡ messages_from from (held_for inboxes.now to) }
{
    if let Some(own) = inboxes.get(to.get() as usize) {
        if own.to().get() == to.get() {
            return own.from(from);
        }
    }
    held(inboxes, from, to)
}

/// Whether the inboxes are the same. It looks at no more inboxes than the shorter list has.
fn are_same(one: &[Inbox], other: &[Inbox]) -> bool
    ensures { IsTrue result ↔ (one.now ≡ other.now) }
{
    if one.len() != other.len() {
        return false;
    }
    for (i, inbox) in one.iter().enumerate() {
        if !inbox.is_same(&other[i]) {
            return false;
        }
    }
    true
}

/// The inbox of a process, if it has one. It searches for it by halves.
fn inbox_of(inboxes: &[Inbox], to: ProcId) -> Option<&Inbox>
    ensures { IfSome result (λ inbox. inbox.now.to ≡ to) }
{
    let place = inboxes.partition_point(|inbox| inbox.to().get() < to.get());
    match inboxes.get(place) {
        Some(inbox) => {
            if inbox.to().get() != to.get() {
                return None;
            }
            Some(inbox)
        }
        None => None,
    }
}

/// The same inbox, if it can come to stand in one buffer with the other one of its process.
fn held_inbox(
    alloc: Global,
    inbox: &Inbox,
    others: &[Inbox],
    sharing: Sharing,
) -> Result<Option<Inbox>, AllocError>
    ensures { IfOk result (λ found. IfSome found (λ held. held ≡ inbox.now)) }
{
    if !inbox.may_share() {
        return Ok(None);
    }
    match inbox_of(others, inbox.to()) {
        Some(other) => inbox.hold_with(alloc, other, sharing),
        None => Ok(None),
    }
}

/// The same inbox, in one buffer with the other one of its process if that can be; `holds` is set
/// where it is, and else it stays where it stands.
fn hold_or_share_inbox(
    alloc: Global,
    inbox: &Inbox,
    others: &[Inbox],
    sharing: Sharing,
    holds: &mut bool,
) -> Result<Inbox, AllocError>
    ensures { IfOk result (λ held. held ≡ inbox.now) }
{
    match held_inbox(alloc, inbox, others, sharing)? {
        Some(held) => {
            *holds = true;
            Ok(held)
        }
        None => inbox.share(alloc),
    }
}

/// Whether one of the inboxes may come to stand in one buffer with another.
fn may_share(inboxes: &[Inbox]) -> bool {
    for inbox in inboxes {
        if inbox.may_share() {
            return true;
        }
    }
    false
}

/// The same inboxes, if one of them can come to stand in one buffer with the other one of its
/// process. Each that can does.
fn hold_inboxes(
    alloc: Global,
    inboxes: &[Inbox],
    others: &[Inbox],
    sharing: Sharing,
) -> Result<Option<Vec<Inbox>>, AllocError>
    ensures { IfOk result (λ found. IfSome found (λ held. held.items ≡ inboxes.now)) }
{
    if !may_share(inboxes) {
        return Ok(None);
    }
    let mut held = Vec::with_capacity(alloc, inboxes.len())?;
    let mut holds = false;
    for inbox in inboxes {
        let next = hold_or_share_inbox(alloc, inbox, others, sharing, &mut holds)?;
        held.push(next)?;
    }
    if !holds {
        return Ok(None);
    }
    Ok(Some(held))
}

/// What is in transit at a line, from each process to each other, by number: what the channels of a
/// round of colours hold at its line.
///
/// It takes 12 bytes for each message, and for each process that a message goes to a block of
/// memory and some 40 to 80 bytes. A channel that holds nothing takes no memory.
#[derive(Drop)]
pub struct Channels {
    n: u32,
    /// What is in transit to each process that something is in transit to, by process.
    inboxes: Vec<Inbox>,
}

impl Model for Channels {
    ghost use Rattle.std.specs.Prelude.{List};
    ghost use Rattle.line_names.specs.declared.messages.MsgName.{MsgName};
    ghost use Rattle.line_rounds.specs.Inboxes.{table_held, AreInboxes};

    ghost Value = { List (List (List MsgName)) };

    ghost view = { λ c. table_held c.n c.inboxes.items };

    ghost invariant = { λ c. AreInboxes c.n c.inboxes.items };
}

impl Channels {
    /// The channels between `n` processes that these messages are on, in one row for each process
    /// that they go to.
    fn keep(alloc: Global, n: u32, rows: &[ChannelRow]) -> Result<Channels, AllocError>
        requires n { n ≤ MOST_PROCESSES }
        requires rows { length rows.now ≡ n }
        requires from { All (AreFrom n) rows.now }
        ensures { IfOk result (λ channels. channels
            ≡ table_of n (λ p q. messages_from p (slice_index_or rows.now q []))) }
    {
        let mut inboxes = Vec::new(alloc);
        for q in 0..n {
            let row = &rows[q as usize];
            if !row.messages.is_empty() {
                let to = ProcId::try_new(q, n).unwrap();
                inboxes.push(Inbox::new(alloc, to, &row.messages)?)?;
            }
        }
        Ok(Channels { n, inboxes })
    }

    /// The channels at a line of a history at which these messages are in transit: each message is
    /// on the channel to the process that its send names.
    ///
    /// It looks a few times at each message and once at each process. It takes memory for each
    /// message, and for each process until it ends, and fails if memory runs out.
    pub fn of(
        alloc: Global,
        history: &History,
        messages: &[MsgName],
    ) -> Result<Channels, AllocError>
        ensures transit { (line : List Choice)
            → messages.now ≡ in_transit history.now.processes line
            → IfOk result (λ channels. channels ≡ channels_at history.now.processes line) }
        ensures table { IfOk result (λ channels. IsTable (length history.now.processes) channels) }
    {
        let rows = gather(alloc, history, messages)?;
        Channels::keep(alloc, history.n(), &rows)
    }

    /// The channel from one process to another, by number.
    ///
    /// It takes constant time if something is in transit to each process up to this one, and
    /// nothing from the sender to it, nor from a process whose number is 64, 128 or 192 apart. Else
    /// it searches by halves: for the receiver among the processes that something is in transit to,
    /// and for the sender among the messages to it.
    pub fn between(&self, from: ProcId, to: ProcId) -> &[MsgName]
        requires from { from < length self.now }
        requires to { to < length (slice_index_or self.now from []) }
        ensures { result.now ≡ between self.now from to }
    {
        held_at(&self.inboxes, from, to)
    }

    /// Whether these hold the same.
    ///
    /// It looks at no more messages than the smaller of the two holds.
    pub fn is_same(&self, other: &Channels) -> bool
        ensures { IsTrue result ↔ (self.now ≡ other.now) }
    {
        self.n == other.n && are_same(&self.inboxes, &other.inboxes)
    }

    /// The same channels, in one place with the other ones where that can be.
    fn hold_with(
        &self,
        alloc: Global,
        other: &Channels,
        sharing: Sharing,
    ) -> Result<Option<Channels>, AllocError>
        ensures { IfOk result (λ found. IfSome found (λ channels. channels ≡ self.now)) }
    {
        match hold_inboxes(alloc, &self.inboxes, &other.inboxes, sharing)? {
            Some(inboxes) => Ok(Some(Channels { n: self.n, inboxes })),
            None => Ok(None),
        }
    }

    /// The same channels, in less memory, where a process has many messages in transit: those of a
    /// channel that stand, one after the other, in the buffer of the later line's channel are shown
    /// there. None if those of no channel do, or if they are shown there already.
    ///
    /// It looks at each inbox, and where messages are many at each of them up to the first that is
    /// another one there. It takes memory for each inbox and for each sender.
    pub fn lean_on(&self, alloc: Global, later: &Channels) -> Result<Option<Channels>, AllocError>
        ensures { IfOk result (λ found. IfSome found (λ leaning. leaning ≡ self.now)) }
    {
        self.hold_with(alloc, later, Sharing::Lean)
    }

    /// The same channels, in buffers that have what an earlier line's hold before them, so that
    /// these and those of lines between can lean on them. A channel that holds many messages is so
    /// joined where the last of the earlier ones are the first of its own, as on a link that is
    /// slow and keeps its order. None if no channel is, or if the earlier ones can lean already.
    ///
    /// It looks at each inbox, and where messages are many at each of them up to the first that is
    /// another one there. It takes memory for each inbox and sender, and for the messages of both
    /// lines on each channel that is joined.
    pub fn join(&self, alloc: Global, earlier: &Channels) -> Result<Option<Channels>, AllocError>
        ensures { IfOk result (λ found. IfSome found (λ joined. joined ≡ self.now)) }
    {
        self.hold_with(alloc, earlier, Sharing::Join)
    }
}
