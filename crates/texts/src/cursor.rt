//! What is left of a text, and the numbers with which it begins.

ghost use Rattle.std.specs.Prelude.{◌≡◌, ◌<◌, ◌≤◌, ◌+◌, ◌*◌, ◌^◌, None, IfSome};

use std::marker::Model;

/// A number below this one has 64 bits with one more digit, too.
const ROOMY: u64 = u64::MAX / 10;

/// A number with one more digit; none where it has more than 64 bits.
fn with_digit(number: u64, digit: u64) -> Option<u64>
    requires { digit < 10 }
    ensures found { IfSome result (λ n. n ≡ number * 10 + digit) }
    ensures only { result ≡ None → 2 ^ 64 ≤ number * 10 + digit }
{
    if number < ROOMY {
        return Some(number * 10 + digit);
    }
    number.checked_mul(10)?.checked_add(digit)
}

/// What is left of a text.
#[derive(Drop)]
pub struct Cursor<'a> {
    rest: &'a [u8],
}

impl<'a> Model for Cursor<'a> {
    ghost use Rattle.std.specs.Prelude.{ℕ, List};

    ghost Value = { List ℕ };

    ghost view = { λ c. c.rest.now };
}

impl<'a> Cursor<'a> {
    ghost use Rattle.std.specs.Prelude.{◌≡◌, ◌<◌, ◌+◌, ◌^◌, ◌++◌, ◌∷◌, ◌↔◌, [], ℕ, List, Option, Some, None, IfSome};
    ghost use Rattle.std.specs.Prelude.{IsTrue, true, false, decimal, length};
    ghost use Rattle.texts.specs.Decimals.{is_digit};

    /// A whole text.
    pub fn new(text: &'a [u8]) -> Cursor<'a>
        ensures { result ≡ text.now }
    {
        Cursor { rest: text }
    }

    /// What is left.
    pub fn rest(&self) -> &'a [u8]
        ensures { result.now ≡ self.now }
    {
        self.rest
    }

    /// How many bytes are left.
    pub fn bytes_left(&self) -> usize
        ensures { result ≡ length self.now }
    {
        self.rest.len()
    }

    /// Whether nothing is left.
    pub fn is_empty(&self) -> bool
        ensures { IsTrue result ↔ (self.now ≡ []) }
    {
        self.rest.is_empty()
    }

    /// Takes this text, and says whether it stands next; else nothing is taken.
    pub fn take(&mut self, text: &[u8]) -> bool
        ensures found { IsTrue result → self.old ≡ text.now ++ self.new }
        ensures only { (more : List ℕ) → self.old ≡ text.now ++ more → IsTrue result × (self.new ≡ more) }
        ensures kept { result ≡ false → self.new ≡ self.old }
    {
        if let Some(rest) = self.rest.strip_prefix(text) {
            self.rest = rest;
            return true;
        }
        false
    }

    /// Takes the digit that stands next, if one does.
    fn digit(&mut self) -> Option<u64>
        ensures found { IfSome result (λ d. (d < 10) × (self.old ≡ (48 + d) ∷ self.new)) }
        ensures only { (b : ℕ) (more : List ℕ) → is_digit b ≡ true → self.old ≡ b ∷ more → ¬ (result ≡ None) }
        ensures kept { result ≡ None → self.new ≡ self.old }
    {
        let Some((&first, rest)) = self.rest.split_first() else {
            return None;
        };
        if !first.is_ascii_digit() {
            return None;
        }
        self.rest = rest;
        Some((first - b'0') as u64)
    }

    /// Takes the number of 64 bits that stands next, if one does; else it may have taken digits. A number that begins
    /// with 0 is 0 alone.
    #[inline(always)]
    pub fn number(&mut self) -> Option<u64>
        ensures found { IfSome result (λ n. self.old ≡ decimal n ++ self.new) }
        ensures only { (n b : ℕ) (more : List ℕ) → n < 2 ^ 64 → is_digit b ≡ false
            → self.old ≡ decimal n ++ b ∷ more → (result ≡ Some n) × (self.new ≡ b ∷ more) }
        ensures last { (n : ℕ) → n < 2 ^ 64 → self.old ≡ decimal n → (result ≡ Some n) × (self.new ≡ []) }
    {
        let Some(first) = self.digit() else {
            return None;
        };
        if first == 0 {
            return Some(0);
        }
        let mut n = first;
        'digits: while !self.rest.is_empty() {
            let Some(digit) = self.digit() else {
                return Some(n);
            };
            let Some(next) = with_digit(n, digit) else {
                return None;
            };
            n = next;
        }
        Some(n)
    }
}
