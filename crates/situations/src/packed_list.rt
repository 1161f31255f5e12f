//! Lists of numbers, as they lie in memory.

ghost use Rattle.std.specs.Prelude.{◌≡◌, ◌+◌, ◌≤◌, drop, length, map, take};
ghost use Rattle.situations.specs.Numbers.{number_of};

use crate::codes::number_of;
use common::OutOfMemory;
use std::alloc::Global;

/// A list of numbers below 2^32, each in a byte or in a word.
#[derive(Clone, Copy)]
pub enum PackedList<'a> {
    /// Each in a byte.
    Bytes(&'a [u8]),
    /// The code of each, in a byte, and the large numbers for which codes from 128 on stand.
    Codes(&'a [u8], &'a [u32]),
    /// Each in a word.
    Words(&'a [u32]),
}

/// This many, from a place on.
pub(crate) fn part<T>(numbers: &[T], from: usize, count: usize) -> &[T]
    requires { from + count ≤ length numbers.now }
    ensures { result.now ≡ take count (drop from numbers.now) }
{
    let rest = &numbers[from..];
    &rest[..count]
}

/// Reads bytes into words.
fn read_bytes(bytes: &[u8], words: &mut [u32])
    requires { length bytes.now ≡ length words.old }
    ensures { words.new ≡ bytes.now }
{
    for (i, byte) in bytes.iter().enumerate() {
        words[i] = u32::from(*byte);
    }
}

/// Reads the numbers of codes into words.
fn read_codes(codes: &[u8], large: &[u32], words: &mut [u32])
    requires { length codes.now ≡ length words.old }
    ensures { words.new ≡ map (number_of large.now) codes.now }
{
    for (i, code) in codes.iter().enumerate() {
        words[i] = number_of(*code, large);
    }
}

impl PackedList<'_> {
    ghost use Rattle.std.specs.Prelude.{◌≡◌, IfOk, length};
    ghost use Rattle.situations.specs.Numbers.{numbers_of};

    /// How many there are.
    fn len(&self) -> usize
        ensures { result ≡ length (numbers_of self.now) }
    {
        match self {
            PackedList::Bytes(bytes) => bytes.len(),
            PackedList::Codes(codes, _) => codes.len(),
            PackedList::Words(words) => words.len(),
        }
    }

    /// Reads them into as many words.
    pub(crate) fn read(&self, words: &mut [u32])
        requires { length words.old ≡ length (numbers_of self.now) }
        ensures { words.new ≡ numbers_of self.now }
    {
        match self {
            PackedList::Bytes(bytes) => read_bytes(bytes, words),
            PackedList::Codes(codes, large) => read_codes(codes, large, words),
            PackedList::Words(own) => words.copy_from_slice(own),
        }
    }

    /// A copy of them, each in a word. Fails only if out of memory.
    pub fn copy(&self, alloc: Global) -> Result<Vec<u32>, OutOfMemory>
        ensures { IfOk result (λ words. words.items ≡ numbers_of self.now) }
    {
        let mut words = vec![in alloc; 0u32; self.len()]?;
        self.read(&mut words);
        Ok(words)
    }
}
