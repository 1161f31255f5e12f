//! Sets of numbers in lanes.

ghost use Rattle.std.specs.Prelude.{◌≡◌, ◌<◌, ◌*◌, ◌==◌, ◌||◌, ◌&&◌, ℕ, IsTrue, false, not, length};
ghost use Rattle.bitrow.specs.Bits.{bit_of, bits_of, is_in};

use crate::word_bits::{set_bit, test_bit};
use std::simd::prelude::*;

/// The empty set.
pub fn no_number<const N: usize>() -> Simd<u64, N>
    ensures { (j : ℕ) → is_in (bits_of result) j ≡ false }
{
    Simd::splat(0)
}

/// The set of one number.
pub fn one_number<const N: usize>(number: usize) -> Simd<u64, N>
    requires { number < 64 * N }
    ensures { (j : ℕ) → is_in (bits_of result) j ≡ (j == number) }
{
    let mut words = [0; N];
    set_bit(&mut words, number);
    Simd::from_array(words)
}

/// Makes each bit 1 that is 1 in the same number of words.
pub(crate) fn or_lanes<const N: usize>(lanes: Simd<u64, N>, words: &[u64]) -> Simd<u64, N>
    requires { length words.now ≡ N }
    ensures { (j : ℕ) → bit_of result j ≡ (bit_of lanes.entry j || bit_of words.now j) }
{
    lanes | Simd::<u64, N>::from_slice(words)
}

/// The numbers of two sets.
pub(crate) fn both<const N: usize>(lanes: Simd<u64, N>, other: Simd<u64, N>) -> Simd<u64, N>
    ensures { (j : ℕ) → is_in (bits_of result) j
        ≡ (is_in (bits_of lanes.entry) j || is_in (bits_of other.entry) j) }
{
    lanes | other
}

/// The numbers of a set that are not in another.
pub(crate) fn without<const N: usize>(lanes: Simd<u64, N>, other: Simd<u64, N>) -> Simd<u64, N>
    ensures { (j : ℕ) → is_in (bits_of result) j
        ≡ (is_in (bits_of lanes.entry) j && not (is_in (bits_of other.entry) j)) }
{
    lanes & !other
}

/// Whether a number is in the set.
pub(crate) fn has_number<const N: usize>(lanes: Simd<u64, N>, number: usize) -> bool
    requires { number < 64 * N }
    ensures { result ≡ is_in (bits_of lanes.entry) number }
{
    test_bit(&lanes.to_array(), number)
}

/// Whether no number is in the set.
pub(crate) fn is_empty<const N: usize>(lanes: Simd<u64, N>) -> bool
    ensures { IsTrue result → (j : ℕ) → is_in (bits_of lanes.entry) j ≡ false }
{
    lanes.reduce_or() == 0
}
