//! Rows of bits.

ghost use Rattle.bitrow.specs.Bits.{IsWidth};

use crate::combine::{and_not_words, or_words};
use crate::lanes::or_lanes;
use crate::numbers::Numbers;
use crate::word_bits::{clear_bit, next_word, set_bit, test_bit};
use common::OutOfMemory;
use smallvec::SmallVec;
use std::alloc::Global;
use std::marker::Model;
use std::simd::prelude::*;

/// How many words of 64 hold a set of numbers below a length.
fn width(len: usize) -> usize
    ensures { IsWidth result len }
{
    if len <= 64 {
        1
    } else if len <= 128 {
        2
    } else if len <= 256 {
        4
    } else {
        8 * len.div_ceil(512)
    }
}

/// A set of numbers below its length, in words of which there are 1, 2, 4 or eights. Up to eight lie in the value
/// itself.
#[derive(Drop)]
pub struct BitRow {
    words: SmallVec<u64, 8>,
    len: usize,
}

impl Model for BitRow {
    ghost use Rattle.std.specs.Prelude.{List, Bool};
    ghost use Rattle.bitrow.specs.Bits.{members_below, AreWordsOf};

    ghost Value = { List Bool };

    ghost view = { λ r. members_below r.words.items r.len };

    ghost invariant = { λ r. AreWordsOf r.words.items r.len };
}

impl BitRow {
    ghost use Rattle.std.specs.Prelude.{◌≡◌, ◌<◌, ◌≤◌, ◌^◌, ◌==◌, ◌||◌, ◌&&◌, ℕ, not, false, length, IfOk};
    ghost use Rattle.bitrow.specs.Bits.{bits_of, is_in, IsNext, IsWidth};
    ghost use Rattle.bitrow.specs.Rows.{AreNumbers};
    ghost use Rattle.bitrow.specs.Walks.{walk_of};

    /// The empty set of numbers below a length. Fails only if out of memory.
    pub fn new(alloc: Global, len: usize) -> Result<BitRow, OutOfMemory>
        ensures len { IfOk result (λ row. length row ≡ len) }
        ensures empty { IfOk result (λ row. (j : ℕ) → is_in row j ≡ false) }
    {
        let words = SmallVec::from_elem(alloc, 0, width(len))?;
        Ok(BitRow { words, len })
    }

    /// Whether a number below the length is in the set.
    pub fn test(&self, number: usize) -> bool
        requires { number < length self.now }
        ensures { result ≡ is_in self.now number }
    {
        test_bit(self.words.as_slice(), number)
    }

    /// Puts a number below the length into the set.
    pub fn set(&mut self, number: usize)
        requires { number < length self.old }
        ensures len { length self.new ≡ length self.old }
        ensures numbers { (j : ℕ) → is_in self.new j ≡ (is_in self.old j || (j == number)) }
    {
        set_bit(self.words.as_mut_slice(), number);
    }

    /// Takes a number below the length out of the set.
    pub fn remove(&mut self, number: usize)
        requires { number < length self.old }
        ensures len { length self.new ≡ length self.old }
        ensures numbers { (j : ℕ) → is_in self.new j ≡ (is_in self.old j && not (j == number)) }
    {
        clear_bit(self.words.as_mut_slice(), number);
    }

    /// Puts the numbers of this set into another of its length.
    pub fn or_into(&self, into: &mut BitRow)
        requires { length self.now ≡ length into.old }
        ensures len { length into.new ≡ length into.old }
        ensures numbers { (j : ℕ) → is_in into.new j ≡ (is_in into.old j || is_in self.now j) }
    {
        or_words(into.words.as_mut_slice(), self.words.as_slice());
    }

    /// Takes the numbers of another set of its length out of this one.
    pub fn and_not(&mut self, other: &BitRow)
        requires { length other.now ≡ length self.old }
        ensures len { length self.new ≡ length self.old }
        ensures numbers { (j : ℕ) → is_in self.new j ≡ (is_in self.old j && not (is_in other.now j)) }
    {
        and_not_words(self.words.as_mut_slice(), other.words.as_slice());
    }

    /// Puts the numbers of the row into a set in as many lanes as it has words.
    pub(crate) fn join<const N: usize>(&self, lanes: Simd<u64, N>) -> Simd<u64, N>
        requires { IsWidth N (length self.now) }
        ensures { (j : ℕ) → is_in (bits_of result) j ≡ (is_in (bits_of lanes.entry) j || is_in self.now j) }
    {
        or_lanes(lanes, self.words.as_slice())
    }

    /// The numbers of the set in turn.
    pub fn numbers(&self) -> Numbers<'_>
        ensures { result ≡ walk_of self.now 0 }
    {
        Numbers::new(self.words.as_slice(), self.len)
    }

    /// The numbers of the set, ascending. Fails only if out of memory.
    pub fn to_numbers(&self, alloc: Global) -> Result<Vec<u32>, OutOfMemory>
        requires { length self.now ≤ 2 ^ 32 }
        ensures { IfOk result (λ numbers. AreNumbers self.now numbers.items) }
    {
        let mut numbers = Vec::new(alloc);
        for number in 0..self.len {
            if self.test(number) {
                numbers.push(number as u32)?;
            }
        }
        Ok(numbers)
    }

    /// The least number in the set; none where there is none.
    pub fn first_set(&self) -> Option<usize>
        ensures { IsNext self.now 0 result }
    {
        next_word(self.words.as_slice(), 0)
    }
}
