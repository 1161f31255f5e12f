//! Bits of words.

ghost use Rattle.std.specs.Prelude.{◌≡◌, ◌≢◌, ◌≤◌, ◌<◌, ◌*◌, ◌^◌, ◌/◌, ◌==◌, ◌||◌, ◌&&◌, ℕ, length, not};
ghost use Rattle.std.specs.Prelude.{slice_index};
ghost use Rattle.std.specs.Int.{bit_at};
ghost use Rattle.bitrow.specs.Bits.{bit_of, IsNextBit};

/// Whether a bit is 1.
pub(crate) fn test_bit(words: &[u64], i: usize) -> bool
    requires { i / 64 < length words.now }
    ensures { result ≡ bit_of words.now i }
{
    words[i / 64] >> (i % 64) & 1 == 1
}

/// Makes a bit 1.
pub(crate) fn set_bit(words: &mut [u64], i: usize)
    requires { i / 64 < length words.old }
    ensures { (j : ℕ) → bit_of words.new j ≡ (bit_of words.old j || (j == i)) }
{
    words[i / 64] |= 1 << (i % 64);
}

/// The first word; 0 where there is none.
pub(crate) fn first_word(words: &[u64]) -> u64
    ensures { result ≡ slice_index words.now 0 }
{
    if words.is_empty() { 0 } else { words[0] }
}

/// A word without its lowest bit that is 1.
pub(crate) fn without_lowest(word: u64) -> u64
    requires { 0 < word }
    ensures less { result < word }
    ensures bits { (i : ℕ) → bit_at word i ≡ 1 → ((j : ℕ) → j < i → bit_at word j ≡ 0)
        → (bit_at result i ≡ 0) × ((j : ℕ) → j ≢ i → bit_at result j ≡ bit_at word j) }
{
    word & (word - 1)
}

/// Makes a bit 0.
pub(crate) fn clear_bit(words: &mut [u64], i: usize)
    requires { i / 64 < length words.old }
    ensures { (j : ℕ) → bit_of words.new j ≡ (bit_of words.old j && not (j == i)) }
{
    words[i / 64] &= !(1 << (i % 64));
}

/// The first bit that is 1 in the words from one on.
pub(crate) fn next_word(words: &[u64], from: usize) -> Option<usize>
    requires { length words.now ≤ 2 ^ 58 }
    ensures { IsNextBit words.now (64 * from) result }
{
    for k in from..words.len() {
        if words[k] != 0 {
            return Some(64 * k + words[k].trailing_zeros() as usize);
        }
    }
    None
}
