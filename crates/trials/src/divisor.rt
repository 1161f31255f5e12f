//! Remainders of many words by one number.

/// A number by which many words are divided, with 2^64 divided by it, which spares the divisions.
#[derive(Clone, Copy)]
pub(crate) struct Divisor {
    number: u64,
    share: u64,
}

impl Divisor {
    ghost use Rattle.std.specs.Prelude.{◌≡◌, ◌<◌, ◌≤◌, ◌*◌, ◌%◌, ◌^◌};

    /// The divisor of this number, which is not 0.
    pub(crate) fn new(number: u64) -> Divisor
        requires { 0 < number }
        ensures number { result.number ≡ number }
        ensures share { result.share * result.number ≤ 2 ^ 64 }
    {
        Divisor {
            number,
            share: ((u64::MAX - (number - 1)) / number).saturating_add(1),
        }
    }

    /// The remainder of a word.
    pub(crate) fn remainder(self, word: u64) -> u64
        requires number { 0 < self.number }
        requires share { self.share * self.number ≤ 2 ^ 64 }
        ensures { result ≡ word % self.number }
    {
        let product = (word as u128).wrapping_mul(self.share as u128);
        let times = (product >> 64) as u64;
        let rest = word - times * self.number;
        if rest < self.number {
            return rest;
        }
        if rest - self.number < self.number {
            return rest - self.number;
        }
        word % self.number
    }
}
