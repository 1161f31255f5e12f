//! Lists of equally many numbers, packed into blocks.

ghost use Rattle.std.specs.Prelude.{◌≡◌, ◌++◌, ◌∷◌, [], OnErr, OnOk, map};
ghost use Rattle.situations.specs.Packed.{numbers_in};

use crate::block::Block;
use crate::packed_list::{PackedList, part};
use common::OutOfMemory;
use std::alloc::Global;
use std::marker::Model;

/// Lists of equally many numbers, 64 in a block, so that none is moved when one is added.
#[derive(Drop)]
pub(crate) struct Packed {
    /// How many numbers each list has.
    width: usize,
    /// How many lists there are.
    count: usize,
    /// The numbers of the lists, one after another, 64 lists in a block.
    blocks: Vec<Block>,
    /// Those of the last lists, 64 at most.
    last: Vec<u32>,
}

/// Closes a block of these words.
fn close(alloc: Global, blocks: &mut Vec<Block>, last: &mut Vec<u32>) -> Result<(), OutOfMemory>
    ensures blocks { OnOk result (map numbers_in blocks.new.items
        ≡ map numbers_in blocks.old.items ++ last.old.items ∷ []) }
    ensures last { OnOk result (last.new.items ≡ []) }
    ensures err_blocks { OnErr result (blocks.new.items ≡ blocks.old.items) }
    ensures err_open { OnErr result (last.new.items ≡ last.old.items) }
{
    let block = Block::of(alloc, last)?;
    blocks.push(block)?;
    last.clear();
    Ok(())
}

impl Model for Packed {
    ghost use Rattle.std.specs.Prelude.{map};
    ghost use Rattle.situations.specs.Packed.{AreFull, PackedLists, lists_in, numbers_in};

    ghost Value = { PackedLists };

    ghost view = { λ p. record {
      width = p.width;
      lists = lists_in p.width p.count (map numbers_in p.blocks.items) p.last.items;
    } };

    ghost invariant = { λ p. AreFull p.width p.count (map numbers_in p.blocks.items) p.last.items };
}

impl Packed {
    ghost use Rattle.std.specs.Prelude.{◌≡◌, ◌^◌, ◌<◌, ◌++◌, ◌∷◌, [], All, OnErr, OnOk, length, slice_index_or};
    ghost use Rattle.situations.specs.Numbers.{numbers_of};

    /// No lists yet, of this many numbers each.
    pub(crate) fn new(alloc: Global, width: usize) -> Packed
        requires { width < 2 ^ 32 }
        ensures { result ≡ record { width = width; lists = [] } }
    {
        Packed {
            width,
            count: 0,
            blocks: Vec::new(alloc),
            last: Vec::new(alloc),
        }
    }

    /// How many lists there are.
    pub(crate) fn len(&self) -> usize
        ensures { result ≡ length self.now.lists }
    {
        self.count
    }

    /// What all lists keep. It does nothing.
    pub(crate) fn sound(&self)
        ensures { All (λ l. length l ≡ self.now.width) self.now.lists }
    {
        let _blocks = &self.blocks;
    }

    /// The list with a number.
    pub(crate) fn list(&self, number: usize) -> PackedList
        requires { number < length self.now.lists }
        ensures { numbers_of result ≡ slice_index_or self.now.lists number [] }
    {
        let from = self.width * (number % 64);
        if number / 64 < self.blocks.len() {
            self.blocks[number / 64].part(from, self.width)
        } else {
            PackedList::Words(part(&self.last, from, self.width))
        }
    }

    /// Adds a list. Fails only if out of memory.
    pub(crate) fn push(&mut self, alloc: Global, list: &[u32]) -> Result<(), OutOfMemory>
        requires width { length list.now ≡ self.old.width }
        requires room { length self.old.lists < 2 ^ 32 }
        ensures ok { OnOk result (self.new ≡ record {
          width = self.old.width;
          lists = self.old.lists ++ list.now ∷ [];
        }) }
        ensures err { OnErr result (self.new ≡ self.old) }
    {
        if self.count == 64 * self.blocks.len() + 64 {
            close(alloc, &mut self.blocks, &mut self.last)?;
        }
        self.last.extend_from_slice(list)?;
        self.count += 1;
        Ok(())
    }
}
