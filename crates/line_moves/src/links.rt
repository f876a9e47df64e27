//! The queues of all links.
ghost use Rattle.std.specs.Prelude.{◌≡◌, ◌≢◌, ℕ, ◌+◌, ◌<◌, ◌≤◌, ◌++◌, ◌∷◌, [], All, length, map};
ghost use Rattle.std.specs.Prelude.{replicate, drop, slice_index_or, slice_set, slice_get, IfOk};
ghost use Rattle.std.specs.Prelude.{OnOk, OnErr};
ghost use Rattle.line_moves.specs.Queues.{with_on_each, with_on_others};
ghost use Rattle.line_rounds.specs.Tables.{between, with_list};
ghost use Rattle.line_moves.specs.Rooms.{queue_to, items_held, AreEmpty, IsCounted, QueueView};

use crate::link_items::LinkItem;
use crate::link_queues::Queue;
use line_names::ProcId;
use line_tape::Item;
use std::alloc::{AllocError, Global};
use std::marker::Model;

/// The links from one process.
#[derive(Drop)]
pub(crate) struct LinkRow {
    queues: Vec<Queue>,
    /// False only if nothing was put on any of them since all were last emptied.
    used: bool,
}

impl Model for LinkRow {
    ghost use Rattle.std.specs.Prelude.{◌≡◌, false, List};
    ghost use Rattle.line_moves.specs.Rooms.{AreEmpty, QueueView};

    ghost Value = { List QueueView };

    ghost view = { λ r. r.queues.items };

    ghost invariant = { λ r. r.used ≡ false → AreEmpty r.queues.items };
}

impl LinkRow {
    /// The links from a process that has sent nothing yet, to `n` processes.
    fn new(alloc: Global, n: u32) -> Result<LinkRow, AllocError>
        ensures { IfOk result (λ row. items_held row ≡ replicate n []) }
    {
        let mut queues = Vec::with_capacity(alloc, n as usize)?;
        for _q in 0..n {
            queues.push(Queue::new(alloc))?;
        }
        Ok(LinkRow {
            queues,
            used: false,
        })
    }

    /// Makes room for one more item on each link.
    fn reserve(&mut self) -> Result<(), AllocError>
        ensures same { items_held self.new ≡ items_held self.old }
        ensures ok { OnOk result (All (λ (queue : QueueView). 0 < queue.room) self.new) }
    {
        self.used = true;
        for q in 0..self.queues.len() {
            let queue = &mut self.queues[q];
            queue.reserve(1)?;
        }
        Ok(())
    }

    /// Puts an item at the end of each link but the one to the process itself, in room made for it.
    fn push_to_others(&mut self, own: ProcId, item: LinkItem)
        requires { All (λ (queue : QueueView). 0 < queue.room) self.old }
        ensures { items_held self.new ≡ with_on_others (items_held self.old) own item }
    {
        for q in 0..self.queues.len() {
            if q != own.get() as usize {
                let queue = &mut self.queues[q];
                queue.push_reserved(item);
            }
        }
        self.used = true;
    }

    /// Takes the first item off the link to a process, if it holds one.
    fn drop_first(&mut self, to: ProcId)
        requires { to < length self.old }
        ensures { items_held self.new
            ≡ slice_set (items_held self.old) to
            (drop 1 (slice_index_or (items_held self.old) to [])) }
    {
        let queue = &mut self.queues[to.get() as usize];
        queue.drop_first();
    }

    /// Sets the count of messages for the link to a process to 0.
    pub(crate) fn count_none(&mut self, to: ProcId)
        requires { to < length self.old }
        ensures same { items_held self.new ≡ items_held self.old }
        ensures others { (q : ℕ) → q ≢ to → queue_to self.new q ≡ queue_to self.old q }
        ensures none { (queue_to self.new to).counted ≡ 0 }
    {
        self.used = true;
        let queue = &mut self.queues[to.get() as usize];
        queue.count_none();
    }

    /// Counts one more message for the link to a process, and makes room there for all that are
    /// counted.
    pub(crate) fn count(&mut self, to: ProcId, most: usize) -> Result<(), AllocError>
        requires to { to < length self.old }
        requires fewer { (queue_to self.old to).counted < most }
        ensures same { items_held self.new ≡ items_held self.old }
        ensures ok { OnOk result (IsCounted to self.old self.new) }
    {
        self.used = true;
        let queue = &mut self.queues[to.get() as usize];
        queue.count(most)
    }

    /// Puts an item at the end of the link to a process, in room made for it.
    pub(crate) fn push_reserved(&mut self, to: ProcId, item: Item)
        requires to { to < length self.old }
        requires room { 0 < (queue_to self.old to).room }
        ensures items { items_held self.new
            ≡ slice_set (items_held self.old) to
            (slice_index_or (items_held self.old) to [] ++ item ∷ []) }
        ensures others { (q : ℕ) → q ≢ to → queue_to self.new q ≡ queue_to self.old q }
        ensures room { (queue_to self.new to).room + 1 ≡ (queue_to self.old to).room }
    {
        self.used = true;
        let queue = &mut self.queues[to.get() as usize];
        queue.push_reserved(LinkItem::of(item));
    }

    /// Takes all items off each link. It looks at no link if nothing was put on any.
    pub(crate) fn clear(&mut self)
        ensures empty { AreEmpty self.new }
        ensures count { length self.new ≡ length self.old }
        ensures room { (q : ℕ) → (queue_to self.old q).room ≤ (queue_to self.new q).room }
    {
        if self.used {
            for q in 0..self.queues.len() {
                let queue = &mut self.queues[q];
                queue.clear();
            }
            self.used = false;
        }
    }
}

/// The links from each process to each.
#[derive(Drop)]
pub struct Links {
    pub(crate) rows: Vec<LinkRow>,
}

impl Model for Links {
    ghost use Rattle.std.specs.Prelude.{List, map};
    ghost use Rattle.line_tape.specs.declared.items.Item.{Item};
    ghost use Rattle.line_moves.specs.Rooms.{items_held};

    ghost Value = { List (List (List Item)) };

    ghost view = { λ l. map items_held l.rows.items };
}

impl Links {
    /// The links between `n` processes that have done nothing yet: an empty queue for each two of
    /// them.
    pub fn new(alloc: Global, n: u32) -> Result<Links, AllocError>
        ensures { IfOk result (λ links. links ≡ replicate n (replicate n [])) }
    {
        let mut rows = Vec::with_capacity(alloc, n as usize)?;
        for _p in 0..n {
            rows.push(LinkRow::new(alloc, n)?)?;
        }
        Ok(Links { rows })
    }

    /// The queue of a link.
    fn queue(&self, from: ProcId, to: ProcId) -> &Queue
        requires from { from < length self.now }
        requires to { to < length (slice_index_or self.now from []) }
        ensures { result.now.held ≡ between self.now from to }
    {
        &self.rows[from.get() as usize].queues[to.get() as usize]
    }

    /// How many items a link holds. It takes constant time.
    pub fn len(&self, from: ProcId, to: ProcId) -> usize
        requires from { from < length self.now }
        requires to { to < length (slice_index_or self.now from []) }
        ensures { result ≡ length (between self.now from to) }
    {
        self.queue(from, to).len()
    }

    /// The item at place `i` of a link, where the oldest has place 0; none if there is none.
    pub fn item(&self, from: ProcId, to: ProcId, i: usize) -> Option<Item>
        requires from { from < length self.now }
        requires to { to < length (slice_index_or self.now from []) }
        ensures { result ≡ slice_get (between self.now from to) i }
    {
        self.queue(from, to).item(i)
    }

    /// Puts an item at the end of a link.
    pub(crate) fn push(&mut self, from: ProcId, to: ProcId, item: Item) -> Result<(), AllocError>
        requires from { from < length self.old }
        requires to { to < length (slice_index_or self.old from []) }
        ensures ok { OnOk result
            (self.new ≡ with_list self.old from to (between self.old from to ++ item ∷ [])) }
        ensures err { OnErr result (self.new ≡ self.old) }
    {
        let row = &mut self.rows[from.get() as usize];
        row.used = true;
        let queue = &mut row.queues[to.get() as usize];
        queue.push(LinkItem::of(item))
    }

    /// Puts an item at the end of each link from a process to another, or on none if memory runs
    /// out.
    ///
    /// It makes room on each of them first, and then pushes once on each. No link is copied.
    pub(crate) fn push_each(&mut self, from: ProcId, item: Item) -> Result<(), AllocError>
        requires { from < length self.old }
        ensures ok { OnOk result (self.new ≡ with_on_each self.old from item) }
        ensures err { OnErr result (self.new ≡ self.old) }
    {
        let row = &mut self.rows[from.get() as usize];
        row.reserve()?;
        row.push_to_others(from, LinkItem::of(item));
        Ok(())
    }

    /// Takes the first item off a link, if it holds one.
    pub(crate) fn drop_first(&mut self, from: ProcId, to: ProcId)
        requires from { from < length self.old }
        requires to { to < length (slice_index_or self.old from []) }
        ensures { self.new ≡ with_list self.old from to (drop 1 (between self.old from to)) }
    {
        let row = &mut self.rows[from.get() as usize];
        row.drop_first(to);
    }
}
