//! Messages by sender: few in a list of their own, and many in buffers that others may hold too.
ghost use Rattle.std.specs.Prelude.{◌≡◌, ◌↔◌, IfOk, IfSome, IsTrue};
ghost use Rattle.line_rounds.specs.Inboxes.{messages_from, ComeBySender};
ghost use Rattle.line_rounds.specs.Stores.{are_many};

use crate::parts::BufferParts;
use crate::runs::{Sharing, are_equal};
use line_names::{MsgName, ProcId};
use std::alloc::{AllocError, Global};
use std::marker::Model;

/// Fewer messages than this have no buffers that others hold too, as these take more memory than a
/// list of them.
const LEAST_TO_SHARE: usize = 64;

/// How many messages there are for each sender on the average, at least, where others hold the
/// buffers too. A buffer and a part of it take as much memory as some eight messages.
const LEAST_OF_EACH: usize = 16;

/// Whether there are so many messages that parts of buffers take little memory beside them. It
/// takes constant time: it counts each process from the first sender to the last as one.
fn are_many(messages: &[MsgName]) -> bool
    ensures { result ≡ are_many messages.now }
{
    let len = messages.len();
    if len < LEAST_TO_SHARE {
        return false;
    }
    let first = messages[0].from.get() as usize;
    let last = messages[len - 1].from.get() as usize;
    LEAST_OF_EACH * (last + 1) <= len + LEAST_OF_EACH * first
}

/// Those of the messages that one process sent. It searches for both ends of them by halves.
fn part_of(messages: &[MsgName], p: ProcId) -> &[MsgName]
    requires { ComeBySender messages.now }
    ensures { result.now ≡ messages_from p messages.now }
{
    let start = messages.partition_point(|message| message.from.get() < p.get());
    let end = messages.partition_point(|message| message.from.get() <= p.get());
    &messages[start..end]
}

/// Where messages stand.
#[derive(Drop)]
pub(crate) enum MessageStore {
    Few(Vec<MsgName>),
    Many(BufferParts),
}

/// Messages by sender.
#[derive(Drop)]
pub(crate) struct BySender {
    store: MessageStore,
}

impl Model for BySender {
    ghost use Rattle.std.specs.Prelude.{◌≡◌, List};
    ghost use Rattle.line_names.specs.declared.messages.MsgName.{MsgName};
    ghost use Rattle.line_rounds.specs.Inboxes.{ComeBySender};
    ghost use Rattle.line_rounds.specs.Stores.{are_many, is_shared, stored_messages};

    ghost Value = { List MsgName };

    ghost view = { λ m. stored_messages m.store };

    ghost invariant = { λ m. ComeBySender (stored_messages m.store)
        × (is_shared m.store ≡ are_many (stored_messages m.store)) };
}

impl BySender {
    /// Messages that come by sender. Where they are many it takes memory for each sender.
    pub(crate) fn new(alloc: Global, messages: Vec<MsgName>) -> Result<BySender, AllocError>
        requires { ComeBySender messages.items }
        ensures { IfOk result (λ kept. kept ≡ messages.items) }
    {
        if are_many(&messages) {
            let parts = BufferParts::new(alloc, &messages)?;
            let store = MessageStore::Many(parts);
            return Ok(BySender { store });
        }
        let store = MessageStore::Few(messages);
        Ok(BySender { store })
    }

    /// Those of one sender. It searches for them by halves.
    // What lists the channels of a round asks each of them, and most hold nothing: a call here
    // keeps the search out of its loop.
    #[inline(never)]
    pub(crate) fn from(&self, p: ProcId) -> &[MsgName]
        ensures { result.now ≡ messages_from p self.now }
    {
        match &self.store {
            MessageStore::Few(messages) => part_of(messages.as_slice(), p),
            MessageStore::Many(parts) => parts.from(p),
        }
    }

    /// Whether both are the same messages.
    pub(crate) fn is_same(&self, other: &BySender) -> bool
        ensures { IsTrue result ↔ (self.now ≡ other.now) }
    {
        match &self.store {
            MessageStore::Few(ours) => match &other.store {
                MessageStore::Few(theirs) => are_equal(ours.as_slice(), theirs.as_slice()),
                MessageStore::Many(_theirs) => false,
            },
            MessageStore::Many(ours) => match &other.store {
                MessageStore::Few(_theirs) => false,
                MessageStore::Many(theirs) => ours.is_same(theirs),
            },
        }
    }

    /// Whether they stand in buffers that others may hold too.
    pub(crate) fn are_shared(&self) -> bool {
        match &self.store {
            MessageStore::Few(_messages) => false,
            MessageStore::Many(_parts) => true,
        }
    }

    /// The same messages, in the same buffers where others may hold these too, and else in a list
    /// of their own.
    pub(crate) fn share(&self, alloc: Global) -> Result<BySender, AllocError>
        ensures { IfOk result (λ kept. kept ≡ self.now) }
    {
        match &self.store {
            MessageStore::Few(messages) => {
                let messages = Vec::from_slice(alloc, messages.as_slice())?;
                let store = MessageStore::Few(messages);
                Ok(BySender { store })
            }
            MessageStore::Many(parts) => {
                let parts = parts.share()?;
                let store = MessageStore::Many(parts);
                Ok(BySender { store })
            }
        }
    }

    /// The same messages, if those of a sender can come to stand in one buffer with the other's.
    pub(crate) fn hold_with(
        &self,
        alloc: Global,
        other: &BySender,
        sharing: Sharing,
    ) -> Result<Option<BySender>, AllocError>
        ensures { IfOk result (λ found. IfSome found (λ kept. kept ≡ self.now)) }
    {
        match &self.store {
            MessageStore::Few(_ours) => Ok(None),
            MessageStore::Many(ours) => match &other.store {
                MessageStore::Few(_theirs) => Ok(None),
                MessageStore::Many(theirs) => match ours.hold_with(alloc, theirs, sharing)? {
                    Some(parts) => {
                        let store = MessageStore::Many(parts);
                        Ok(Some(BySender { store }))
                    }
                    None => Ok(None),
                },
            },
        }
    }
}
