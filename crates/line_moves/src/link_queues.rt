//! What one link holds.
ghost use Rattle.std.specs.Prelude.{◌≡◌, ◌+◌, ◌<◌, ◌≤◌, ◌++◌, ◌∷◌, [], length, drop, slice_get};
ghost use Rattle.std.specs.Prelude.{OnOk, OnErr};
ghost use Rattle.line_moves.specs.Rooms.{room_with, QueueView};

use crate::link_items::LinkItem;
use line_tape::Item;
use std::alloc::{AllocError, Global};
use std::collections::VecDeque;
use std::marker::Model;

/// What one link holds, the oldest first.
///
/// The oldest item stands in the queue itself. Most links hold one item at most, and then a step
/// looks at no other memory.
#[derive(Drop)]
pub(crate) struct Queue {
    first: Option<LinkItem>,
    /// The items after the first.
    others: VecDeque<LinkItem>,
    /// How many of the messages that a restart will put at its end are counted.
    counted: usize,
}

// What a link takes, beside its further items.
const _: () = prove!(size_of::<Queue>() == 64);

impl Model for Queue {
    ghost use Rattle.std.specs.Prelude.{◌≡◌, ◌++◌, ◌-◌, [], None, option_to_list};
    ghost use Rattle.std.proofs.Common.{deque_len, deque_capacity};
    ghost use Rattle.line_moves.specs.Rooms.{room_with, QueueView};

    ghost Value = { QueueView };

    ghost view = { λ q. record {
      held = option_to_list q.first ++ q.others.items;
      room = room_with q.first (deque_capacity q.others - deque_len q.others);
      counted = q.counted;
    } };

    ghost invariant = { λ q. q.first ≡ None → q.others.items ≡ [] };
}

/// How many of further items stand after the first.
fn after_first(first: &Option<LinkItem>, further: usize) -> usize
    ensures { further ≤ room_with first.now result }
{
    match first {
        Some(_) => further,
        None => further.saturating_sub(1),
    }
}

impl Queue {
    /// A queue with nothing on it.
    pub(crate) fn new(alloc: Global) -> Queue
        ensures { result.held ≡ [] }
    {
        Queue {
            first: None,
            others: VecDeque::new(alloc),
            counted: 0,
        }
    }

    /// How many items it holds.
    pub(crate) fn len(&self) -> usize
        ensures { result ≡ length self.now.held }
    {
        match self.first {
            Some(_) => self.others.len() + 1,
            None => 0,
        }
    }

    /// The item at place `i`, where the oldest has place 0; none if there is none.
    pub(crate) fn item(&self, i: usize) -> Option<Item>
        ensures { result ≡ slice_get self.now.held i }
    {
        let first = self.first?;
        if i == 0 {
            return Some(first.item());
        }
        match self.others.get(i - 1) {
            Some(kept) => Some(kept.item()),
            None => None,
        }
    }

    /// Puts an item at the end.
    pub(crate) fn push(&mut self, item: LinkItem) -> Result<(), AllocError>
        ensures ok { OnOk result (self.new.held ≡ self.old.held ++ item ∷ []) }
        ensures err { OnErr result (self.new.held ≡ self.old.held) }
    {
        if self.first.is_none() {
            self.first = Some(item);
            return Ok(());
        }
        self.others.push_back(item)?;
        Ok(())
    }

    /// Puts an item at the end, in room made for it.
    pub(crate) fn push_reserved(&mut self, item: LinkItem)
        requires { 0 < self.old.room }
        ensures held { self.new.held ≡ self.old.held ++ item ∷ [] }
        ensures room { self.new.room + 1 ≡ self.old.room }
    {
        if self.first.is_none() {
            self.first = Some(item);
            return;
        }
        self.others.push_back_reserved(item);
    }

    /// Takes the first item off, if it holds one.
    pub(crate) fn drop_first(&mut self)
        ensures { self.new.held ≡ drop 1 self.old.held }
    {
        self.first = self.others.pop_front();
    }

    /// Makes room for further items.
    pub(crate) fn reserve(&mut self, further: usize) -> Result<(), AllocError>
        ensures held { self.new.held ≡ self.old.held }
        ensures ok { OnOk result (further ≤ self.new.room) }
    {
        let after = after_first(&self.first, further);
        self.others.reserve(after)?;
        Ok(())
    }

    /// Sets the count of messages to 0.
    pub(crate) fn count_none(&mut self)
        ensures held { self.new.held ≡ self.old.held }
        ensures none { self.new.counted ≡ 0 }
    {
        self.counted = 0;
    }

    /// Counts one more message, and makes room for all that are counted.
    pub(crate) fn count(&mut self, most: usize) -> Result<(), AllocError>
        requires { self.old.counted < most }
        ensures held { self.new.held ≡ self.old.held }
        ensures ok { OnOk result ((self.new.counted ≡ self.old.counted + 1)
            × (self.old.counted + 1 ≤ self.new.room)) }
    {
        let counted = self.counted + 1;
        let after = after_first(&self.first, counted);
        self.others.reserve(after)?;
        self.counted = counted;
        Ok(())
    }

    /// Takes all items off.
    pub(crate) fn clear(&mut self)
        ensures held { self.new.held ≡ [] }
        ensures room { self.old.room ≤ self.new.room }
    {
        self.first = None;
        self.others.clear();
    }
}
