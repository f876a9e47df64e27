//! The link to the last receipt of each sender that is ahead.
ghost use Rattle.std.specs.Prelude.{◌≡◌, ◌≢◌, ◌<◌, ◌≤◌, ◌+◌, ◌↔◌, ℕ, IfOk, IsOk, IsTrue, OnOk};
ghost use Rattle.std.specs.Prelude.{slice_index_or, vec_capacity, vec_len};
ghost use Rattle.line_tape.specs.Ends.{IsEndPut, block_of, link_of_sender};

use std::alloc::{AllocError, Global};
use std::marker::Model;

/// Of each sender the link to the last of its receipts that is ahead, or 0.
///
/// Sixteen senders in a row share a block of links, which is there from the first receipt of one of
/// them on. So it costs a constant to find a link, and the memory goes with the senders that there
/// are: 64 bytes for sixteen neighbours, and a kilobyte at most.
#[derive(Drop)]
pub struct LastLinks {
    blocks: [u8; 16],
    links: Vec<u32>,
}

impl Model for LastLinks {
    ghost use Rattle.std.specs.Prelude.{vec_capacity, vec_len};
    ghost use Rattle.line_tape.specs.Ends.{AreBlocks, EndsView, room_in};

    ghost Value = { EndsView };

    ghost view = { λ e. record {
      blocks = e.blocks;
      links = e.links.items;
      room = room_in (vec_capacity e.links) (vec_len e.links);
    } };

    ghost invariant = { λ e. AreBlocks e.blocks e.links.items };
}

/// Adds a block of links that are 0, in room that was made for it.
fn lengthen(links: &mut Vec<u32>)
    requires room { vec_len links.old + 16 ≤ vec_capacity links.old }
    ensures same { (place : ℕ)
        → slice_index_or links.new.items place 0 ≡ slice_index_or links.old.items place 0 }
    ensures len { vec_len links.new ≡ vec_len links.old + 16 }
    ensures capacity { vec_capacity links.new ≡ vec_capacity links.old }
{
    for _place in 0..16_u32 {
        links.push_reserved(0);
    }
}

impl LastLinks {
    /// No links.
    pub fn new(alloc: Global) -> LastLinks
        ensures { (sender : ℕ) → link_of_sender result sender ≡ 0 }
    {
        LastLinks {
            blocks: [0; 16],
            links: Vec::new(alloc),
        }
    }

    /// The link of a sender; 0 if it has none.
    pub fn at(&self, sender: u8) -> u32
        ensures { result ≡ link_of_sender self.now sender }
    {
        let block = self.blocks[sender as usize / 16];
        if block == 0 {
            return 0;
        }
        self.links[(block as usize - 1) * 16 + sender as usize % 16]
    }

    /// Whether there is room for so many further senders: for any number where all have links.
    pub fn has_room(&self, k: usize) -> bool
        ensures { IsTrue result ↔ (k ≤ self.now.room) }
    {
        let capacity = self.links.capacity();
        k <= (capacity - self.links.len()) / 16 || capacity >= 256
    }

    /// Makes room for so many further senders, where `has_room` finds none. There are 256 at most,
    /// so it never takes more than their room.
    #[inline(never)]
    pub fn reserve(&mut self, k: usize) -> Result<(), AllocError>
        ensures same { (sender : ℕ)
            → link_of_sender self.new sender ≡ link_of_sender self.old sender }
        ensures ok { OnOk result (k ≤ self.new.room) }
        ensures succeeds { k ≤ self.old.room → IsOk result }
        ensures room { self.old.room ≤ self.new.room }
    {
        let further = 16 - self.links.len() / 16;
        self.links.reserve(k.min(further) * 16)
    }

    /// Sees that a sender has a block, in room that was made for it.
    pub fn add_block(&mut self, sender: u8)
        requires { 0 < self.old.room }
        ensures same { (other : ℕ) → link_of_sender self.new other ≡ link_of_sender self.old other }
        ensures block { block_of self.new sender ≢ 0 }
        ensures room { self.old.room ≤ self.new.room + 1 }
    {
        let group = sender as usize / 16;
        if self.blocks[group] != 0 {
            return;
        }
        let block = (self.links.len() / 16) as u8 + 1;
        lengthen(&mut self.links);
        self.blocks[group] = block;
    }

    /// Puts another link to a sender that has a block.
    pub fn set(&mut self, sender: u8, link: u32)
        requires { block_of self.old sender ≢ 0 }
        ensures put { IsEndPut self.old self.new sender link }
        ensures room { self.new.room ≡ self.old.room }
    {
        let block = self.blocks[sender as usize / 16];
        self.links[(block as usize - 1) * 16 + sender as usize % 16] = link;
    }

    /// The same links in memory of their own.
    pub fn copy(&self, alloc: Global) -> Result<LastLinks, AllocError>
        ensures { IfOk result
            (λ copy. (sender : ℕ) → link_of_sender copy sender ≡ link_of_sender self.now sender) }
    {
        let links = Vec::from_slice(alloc, self.links.as_slice())?;
        Ok(LastLinks {
            blocks: self.blocks,
            links,
        })
    }
}
