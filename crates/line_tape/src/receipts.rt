//! An index of the receipts of one tape.
ghost use Rattle.std.specs.Prelude.{◌≡◌, ◌≢◌, ◌<◌, ◌≤◌, ◌+◌, ◌-◌, ◌↔◌, ℕ, suc, [], ◌∷◌, ◌++◌};
ghost use Rattle.std.specs.Prelude.{Contains, IfOk, IsOk, IsTrue, Some, length, map, slice_get};
ghost use Rattle.std.specs.Prelude.{take};
ghost use Rattle.std.specs.Prelude.{vec_capacity, vec_len};
ghost use Rattle.line_tape.specs.Noted.{AreChained, AreInTree, AreNoted, IsLastOfSender};
ghost use Rattle.line_tape.specs.Noted.{name_of_receipt};
ghost use Rattle.line_tape.specs.Noted.{name_at};

mod chains;
mod ends;
mod guesses;
mod trees;

use crate::limits::MOST_EVENTS;
use chains::{Receipt, find_ahead, is_ahead, linked_back};
use ends::LastLinks;
use guesses::nearer;
use line_names::MsgName;
use std::alloc::{AllocError, Global};
use std::marker::Model;
use trees::{link_at, put_receipt, seat_of};

/// The receipts of a tape in their order, so that the first of a message is found.
///
/// Those of one sender that come by ascending number are a chain with jump pointers, and a further
/// one costs a constant. Those that come out of order are a digital search tree (Coffman and Eve,
/// File structures using hashing functions, 1970), whose depth is at most the number of bits of a
/// name. So each question takes logarithmic time, whatever the names are.
#[derive(Drop)]
pub struct Receipts {
    receipts: Vec<Receipt>,
    last: LastLinks,
    root: u32,
}

impl Model for Receipts {
    ghost use Rattle.std.specs.Prelude.{◌-◌, map, vec_capacity, vec_len};
    ghost use Rattle.line_tape.specs.Noted.{AreNoted, ReceiptsView, name_of_receipt};

    ghost Value = { ReceiptsView };

    ghost view = { λ r. record {
      names = map name_of_receipt r.receipts.items;
      room = vec_capacity r.receipts - vec_len r.receipts;
      senders = r.last.room;
    } };

    ghost invariant = { λ r. AreNoted r.receipts.items r.last r.root };
}

/// The link to the first receipt of the message; 0 where it is not received.
///
/// A number above all those received from its sender costs one look. The chain is asked before the
/// tree: it has most of the receipts, and a receipt in it is the first one of its message.
fn find(receipts: &[Receipt], last: u32, root: u32, wanted: &Receipt) -> u32
    requires chained { AreChained receipts.now }
    requires last { IsLastOfSender receipts.now (length receipts.now) wanted.now.from last }
    requires tree { AreInTree receipts.now root }
    ensures found { (i : ℕ) → result ≡ suc i
        → (i < length receipts.now) × (name_at receipts.now i ≡ name_of_receipt wanted.now)
        × ((j : ℕ) → j < i → name_at receipts.now j ≢ name_of_receipt wanted.now) }
    ensures none { result ≡ 0 → (i : ℕ) → i < length receipts.now
        → name_at receipts.now i ≢ name_of_receipt wanted.now }
{
    if is_ahead(receipts, last, wanted) {
        return 0;
    }
    let start = nearer(receipts, last, wanted);
    let link = find_ahead(receipts, start, wanted);
    if link != 0 {
        return link;
    }
    let seat = seat_of(receipts, root, wanted);
    link_at(receipts, root, seat)
}

/// Takes the last receipt out of the links, so that it can go.
fn unlink_last(receipts: &mut Vec<Receipt>, last: &mut LastLinks, root: &mut u32)
    requires noted { AreNoted receipts.old.items last.old root.old }
    requires some { 0 < vec_len receipts.old }
    ensures noted { AreNoted (take (vec_len receipts.old - 1) receipts.new.items) last.new
        root.new }
    ensures names { map name_of_receipt receipts.new.items
        ≡ map name_of_receipt receipts.old.items }
    ensures len { vec_len receipts.new ≡ vec_len receipts.old }
    ensures capacity { vec_capacity receipts.old ≤ vec_capacity receipts.new }
    ensures last_room { last.new.room ≡ last.old.room }
{
    let link = receipts.len() as u32;
    let before = receipts.as_slice();
    let receipt = before[link as usize - 1];
    if last.at(receipt.from) == link {
        last.set(receipt.from, receipt.near);
        return;
    }
    let seat = seat_of(before, *root, &receipt);
    if link_at(before, *root, seat) != link {
        return;
    }
    put_receipt(receipts, root, seat, 0);
}

impl Receipts {
    /// The index of no receipts.
    pub fn new(alloc: Global) -> Receipts
        ensures { result.names ≡ [] }
    {
        Receipts {
            receipts: Vec::new(alloc),
            last: LastLinks::new(alloc),
            root: 0,
        }
    }

    /// How many receipts there are.
    pub fn count(&self) -> u32
        ensures { result ≡ length self.now.names }
    {
        self.receipts.len() as u32
    }

    /// The message that is received after `i` others.
    pub fn at(&self, i: usize) -> MsgName
        requires { i < length self.now.names }
        ensures { slice_get self.now.names i ≡ Some result }
    {
        self.receipts[i].message()
    }

    /// Makes room for so many further receipts and their senders, and tells for how many receipts
    /// there is room then, where their senders have it.
    #[inline(always)]
    pub fn reserve(&mut self, k: usize) -> Result<usize, AllocError>
        ensures same { self.new.names ≡ self.old.names }
        ensures ok { IfOk result (λ room. (room ≡ self.new.room)
            × (k ≤ room) × (k ≤ self.new.senders)) }
        ensures succeeds { k ≤ self.old.room → k ≤ self.old.senders → IsOk result }
        ensures room { self.old.room ≤ self.new.room }
        ensures senders { self.old.senders ≤ self.new.senders }
    {
        self.receipts.reserve(k)?;
        if !self.last.has_room(k) {
            self.last.reserve(k)?;
        }
        Ok(self.receipts.capacity() - self.receipts.len())
    }

    /// Whether there is room for so many further senders.
    pub fn has_room_for_senders(&self, k: usize) -> bool
        ensures { IsTrue result ↔ (k ≤ self.now.senders) }
    {
        self.last.has_room(k)
    }

    /// Takes in a receipt of a message that comes next, in room that was made for it.
    ///
    /// One that is not ahead is put in the tree, unless one of its message is there. Whether one of
    /// the chain is of its message is not asked.
    pub fn note(&mut self, message: &MsgName)
        requires few { length self.old.names < MOST_EVENTS }
        requires room { 0 < self.old.room }
        requires senders { 0 < self.old.senders }
        ensures names { self.new.names ≡ self.old.names ++ message.now ∷ [] }
        ensures room { self.old.room ≤ self.new.room + 1 }
        ensures senders { self.old.senders ≤ self.new.senders + 1 }
    {
        let receipt = Receipt::of(message);
        let link = self.receipts.len() as u32 + 1;
        let before = self.receipts.as_slice();
        let end = self.last.at(receipt.from);
        if is_ahead(before, end, &receipt) {
            let linked = linked_back(before, end, receipt);
            self.receipts.push_reserved(linked);
            self.last.add_block(receipt.from);
            self.last.set(receipt.from, link);
            return;
        }
        let seat = seat_of(before, self.root, &receipt);
        let known = link_at(before, self.root, seat);
        self.receipts.push_reserved(receipt);
        if known != 0 {
            return;
        }
        put_receipt(&mut self.receipts, &mut self.root, seat, link);
    }

    /// Goes back to the first `end` receipts. It looks once at each of the others, and takes no
    /// memory.
    pub fn cut(&mut self, end: u32)
        ensures names { self.new.names ≡ take end self.old.names }
        ensures room { self.old.room ≤ self.new.room }
        ensures senders { self.old.senders ≤ self.new.senders }
    {
        while self.receipts.len() > end as usize {
            unlink_last(&mut self.receipts, &mut self.last, &mut self.root);
            let _ = self.receipts.pop();
        }
    }

    /// Whether one of the first `end` receipts is of the message.
    pub fn is_before(&self, message: &MsgName, end: u32) -> bool
        ensures { IsTrue result ↔ Contains (take end self.now.names) message.now }
    {
        let wanted = Receipt::of(message);
        let last = self.last.at(wanted.from);
        let receipts = self.receipts.as_slice();
        let first = find(receipts, last, self.root, &wanted);
        first != 0 && first <= end
    }

    /// The same receipts in memory of their own. Their links are numbers of receipts, so they are
    /// the same there.
    pub fn copy(&self, alloc: Global) -> Result<Receipts, AllocError>
        ensures { IfOk result (λ receipts. receipts.names ≡ self.now.names) }
    {
        Ok(Receipts {
            receipts: Vec::from_slice(alloc, self.receipts.as_slice())?,
            last: self.last.copy(alloc)?,
            root: self.root,
        })
    }
}
