//! The numbers of a text, whatever stands between them.

ghost use Rattle.std.specs.Prelude.{◌≡◌, ◌<◌, ◌≤◌, ◌^◌, ◌++◌, ◌∷◌, ℕ, List, Some, IfOk, IfSome, MatchOption, true};
ghost use Rattle.std.specs.Prelude.{false, decimal, length, slice_index};
ghost use Rattle.texts.specs.Decimals.{is_digit};
ghost use Rattle.verification.specs.Proof.{Are16Bit};
ghost use Rattle.verification.specs.Spelled.{HasNoDigit, Spells};

use common::OutOfMemory;
use std::alloc::Global;
use texts::Cursor;

/// How many bytes stand before the first digit of a text.
fn gap(text: &[u8]) -> usize
    ensures within { result ≤ length text.now }
    ensures before { (i : ℕ) → i < result → is_digit (slice_index text.now i) ≡ false }
    ensures at { result < length text.now → is_digit (slice_index text.now result) ≡ true }
{
    for i in 0..text.len() {
        if text[i].is_ascii_digit() {
            return i;
        }
    }
    text.len()
}

/// A number, if it has at most 32 bits.
fn word(number: u64) -> Option<u32>
    ensures { number < 2 ^ 32 → result ≡ Some number }
{
    if number > u32::MAX as u64 {
        return None;
    }
    Some(number as u32)
}

/// Takes the first number that a text has, if it has at most 32 bits.
pub(crate) fn next_number(rest: &mut Cursor<'_>) -> Option<u32>
    ensures { (gap : List ℕ) (n b : ℕ) (more : List ℕ) → HasNoDigit gap → n < 2 ^ 32 → is_digit b ≡ false
        → rest.old ≡ gap ++ (decimal n ++ b ∷ more) → (result ≡ Some n) × (rest.new ≡ b ∷ more) }
{
    let text = rest.rest();
    *rest = Cursor::new(&text[gap(text)..]);
    let Some(number) = rest.number() else {
        return None;
    };
    word(number)
}

/// Takes the first numbers that a text has, at most this many, and what stands between them.
pub(crate) fn numbers(
    rest: &mut Cursor<'_>,
    alloc: Global,
    count: usize,
) -> Result<Vec<u32>, OutOfMemory>
    ensures { IfOk result (λ v. (ns later : List ℕ) → length ns ≡ count → Spells (ns ++ later) rest.old
        → (v.items ≡ ns) × Spells later rest.new) }
{
    let mut numbers = Vec::new(alloc);
    for _i in 0..count {
        let Some(number) = next_number(rest) else {
            return Ok(numbers);
        };
        numbers.push(number)?;
    }
    Ok(numbers)
}

/// A label, if it has at most 16 bits.
fn label(number: u32) -> Option<u16>
    ensures found { IfSome result (λ n. (n ≡ number) × (n < 2 ^ 16)) }
    ensures only { number < 2 ^ 16 → result ≡ Some number }
{
    if number > u16::MAX as u32 {
        return None;
    }
    Some(number as u16)
}

/// These numbers as labels, if each has at most 16 bits.
pub(crate) fn labels_of(alloc: Global, numbers: &[u32]) -> Result<Option<Vec<u16>>, OutOfMemory>
    ensures short { IfOk result (λ r. IfSome r (λ v. Are16Bit v.items)) }
    ensures only { IfOk result (λ r. Are16Bit numbers.now → MatchOption r ⊥ (λ v. v.items ≡ numbers.now)) }
{
    let mut labels = Vec::with_capacity(alloc, numbers.len())?;
    for i in 0..numbers.len() {
        let Some(label) = label(numbers[i]) else {
            return Ok(None);
        };
        labels.push(label)?;
    }
    Ok(Some(labels))
}
