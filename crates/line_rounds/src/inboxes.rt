//! What is in transit to one process.
ghost use Rattle.std.specs.Prelude.{◌≡◌, ◌↔◌, ℕ, IfOk, IsTrue, length, IfSome};
ghost use Rattle.line_rounds.specs.Inboxes.{messages_from, AreFrom, ComeBySender};

use crate::by_sender::BySender;
use crate::runs::Sharing;
use line_names::{MsgName, ProcId};
use std::alloc::{AllocError, Global};
use std::marker::Model;

/// What is in transit to one process, by sender, so that what one of them sent is a part of it.
#[derive(Drop)]
pub(crate) struct Inbox {
    to: ProcId,
    /// A bit for each process that sent something of it, which processes 64 apart share, so that
    /// most others are passed over at a look.
    senders: u64,
    messages: BySender,
}

impl Model for Inbox {
    ghost use Rattle.line_rounds.specs.Inboxes.{AreSentBy, ComeBySender, InboxView};

    ghost Value = { InboxView };

    ghost view = { λ i. record { to = i.to; messages = i.messages } };

    ghost invariant = { λ i. ComeBySender i.messages × AreSentBy i.senders i.messages };
}

impl Inbox {
    /// The messages to a process; those of one sender stay in their order.
    ///
    /// It takes memory for these alone. It takes linear time where they come by sender, as they do
    /// in a list of what is in transit; else it sorts them.
    pub(crate) fn new(alloc: Global, to: ProcId, messages: &[MsgName]) -> Result<Inbox, AllocError>
        ensures to { IfOk result (λ inbox. inbox.to ≡ to) }
        ensures same { IfOk result (λ inbox. (p : ℕ)
            → messages_from p inbox.messages ≡ messages_from p messages.now) }
        ensures by_sender { IfOk result (λ inbox. ComeBySender inbox.messages) }
        ensures from { IfOk result (λ inbox. (n : ℕ)
            → AreFrom n messages.now → AreFrom n inbox.messages) }
        ensures len { IfOk result (λ inbox. length inbox.messages ≡ length messages.now) }
    {
        let mut messages = Vec::from_slice(alloc, messages)?;
        messages.sort_by_key(|message| message.from.get())?;
        let mut senders = 0u64;
        'each: for i in 0..messages.len() {
            senders |= 1 << (messages[i].from.get() % 64);
        }
        let by_sender = BySender::new(alloc, messages)?;
        Ok(Inbox {
            to,
            senders,
            messages: by_sender,
        })
    }

    /// The process that they go to.
    pub(crate) fn to(&self) -> ProcId
        ensures { result ≡ self.now.to }
    {
        self.to
    }

    /// Those of one sender. It searches for them by halves if there are any, or if there are some
    /// of a process with the same bit.
    #[inline(always)]
    pub(crate) fn from(&self, p: ProcId) -> &[MsgName]
        ensures { result.now ≡ messages_from p self.now.messages }
    {
        if (self.senders >> (p.get() % 64)) & 1 == 0 {
            return &[];
        }
        self.messages.from(p)
    }

    /// Whether both have the same messages to the same process.
    pub(crate) fn is_same(&self, other: &Inbox) -> bool
        ensures { IsTrue result ↔ (self.now ≡ other.now) }
    {
        self.to == other.to && self.messages.is_same(&other.messages)
    }

    /// Whether it may come to stand in one buffer with another one.
    pub(crate) fn may_share(&self) -> bool {
        self.messages.are_shared()
    }

    /// The same messages to the same process, in the same buffers where others may hold these too.
    pub(crate) fn share(&self, alloc: Global) -> Result<Inbox, AllocError>
        ensures { IfOk result (λ inbox. inbox ≡ self.now) }
    {
        let messages = self.messages.share(alloc)?;
        Ok(Inbox {
            to: self.to,
            senders: self.senders,
            messages,
        })
    }

    /// The same messages to the same process, if those of a sender can come to stand in one buffer
    /// with the other inbox's.
    pub(crate) fn hold_with(
        &self,
        alloc: Global,
        other: &Inbox,
        sharing: Sharing,
    ) -> Result<Option<Inbox>, AllocError>
        ensures { IfOk result (λ found. IfSome found (λ inbox. inbox ≡ self.now)) }
    {
        match self.messages.hold_with(alloc, &other.messages, sharing)? {
            Some(messages) => Ok(Some(Inbox {
                to: self.to,
                senders: self.senders,
                messages,
            })),
            None => Ok(None),
        }
    }
}
