//! Words that are combined with others.

ghost use Rattle.std.specs.Prelude.{◌≡◌, ◌||◌, ◌&&◌, ℕ, length, not};
ghost use Rattle.bitrow.specs.Bits.{bit_of};

/// Makes each bit 1 that is 1 in the other words.
pub(crate) fn or_words(words: &mut [u64], other: &[u64])
    requires { length other.now ≡ length words.old }
    ensures { (j : ℕ) → bit_of words.new j ≡ (bit_of words.old j || bit_of other.now j) }
{
    for k in 0..words.len() {
        words[k] |= other[k];
    }
}

/// Makes each bit 0 that is 1 in the other words.
pub(crate) fn and_not_words(words: &mut [u64], other: &[u64])
    requires { length other.now ≡ length words.old }
    ensures { (j : ℕ) → bit_of words.new j ≡ (bit_of words.old j && not (bit_of other.now j)) }
{
    for k in 0..words.len() {
        words[k] &= !other[k];
    }
}
