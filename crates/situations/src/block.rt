//! Blocks of numbers.

ghost use Rattle.std.specs.Prelude.{◌≡◌, ◌<◌, ◌↔◌, All, IfOk, IsTrue};

use crate::codes::Coded;
use crate::packed_list::{PackedList, part};
use common::OutOfMemory;
use std::alloc::Global;

/// Numbers below 2^32, each in a byte where all are below 256 or few are large, else in a word.
#[derive(Drop)]
pub(crate) enum Block {
    /// Each in a byte.
    Bytes(Vec<u8>),
    /// Each as a code, in a byte.
    Codes(Coded),
    /// Each in a word.
    Words(Vec<u32>),
}

/// Whether all words are below 256.
fn are_bytes(words: &[u32]) -> bool
    ensures { IsTrue result ↔ All (λ n. n < 256) words.now }
{
    words.iter().all(|word| *word < 256)
}

/// Words, each as a byte.
fn bytes_of(alloc: Global, words: &[u32]) -> Result<Vec<u8>, OutOfMemory>
    requires { All (λ n. n < 256) words.now }
    ensures { IfOk result (λ bytes. bytes.items ≡ words.now) }
{
    let mut bytes = vec![in alloc; 0u8; words.len()]?;
    for (i, word) in words.iter().enumerate() {
        bytes[i] = *word as u8;
    }
    Ok(bytes)
}

impl Block {
    ghost use Rattle.std.specs.Prelude.{◌≡◌, ◌+◌, ◌≤◌, IfOk, drop, length, take};
    ghost use Rattle.situations.specs.Packed.{numbers_in};
    ghost use Rattle.situations.specs.Numbers.{numbers_of};

    /// A block of these numbers. Fails only if out of memory.
    pub(crate) fn of(alloc: Global, words: &[u32]) -> Result<Block, OutOfMemory>
        ensures { IfOk result (λ block. numbers_in block ≡ words.now) }
    {
        if are_bytes(words) {
            return Ok(Block::Bytes(bytes_of(alloc, words)?));
        }
        match Coded::of(alloc, words)? {
            Some(coded) => Ok(Block::Codes(coded)),
            None => Ok(Block::Words(Vec::from_slice(alloc, words)?)),
        }
    }

    /// This many of its numbers, from a place on.
    pub(crate) fn part(&self, from: usize, count: usize) -> PackedList
        requires { from + count ≤ length (numbers_in self.now) }
        ensures { numbers_of result ≡ take count (drop from (numbers_in self.now)) }
    {
        match self {
            Block::Bytes(bytes) => PackedList::Bytes(part(bytes, from, count)),
            Block::Codes(coded) => coded.part(from, count),
            Block::Words(words) => PackedList::Words(part(words, from, count)),
        }
    }
}
