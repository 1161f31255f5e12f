//! Numbers of what is left of a text.

ghost use Rattle.std.specs.Prelude.{◌≡◌, ◌<◌, ◌≤◌, ◌^◌, ◌++◌, ◌∷◌, ℕ, List, decimal};
ghost use Rattle.ledger.specs.declared.code.TheConstants.{LONG_CYCLE};
ghost use Rattle.ledger.specs.Counted.{length_name};
ghost use Rattle.ledger.specs.Parts.{IsNoDigit};

use crate::code::LONG_CYCLE;
use texts::Cursor;

/// Takes the number of 64 bits that stands next, and gives 0 where none does.
pub(crate) fn number(rest: &mut Cursor<'_>) -> usize
    ensures { (n b : ℕ) (more : List ℕ) → n < 2 ^ 64 → IsNoDigit b → rest.old ≡ decimal n ++ b ∷ more
        → (result ≡ n) × (rest.new ≡ b ∷ more) }
{
    match rest.number() {
        Some(number) => number as usize,
        None => 0,
    }
}

/// Takes the length of cycles that stands next, and gives 0 where none does.
pub(crate) fn cycle_length(rest: &mut Cursor<'_>) -> usize
    ensures { (n : ℕ) (more : List ℕ) → n ≤ LONG_CYCLE → rest.old ≡ length_name n ++ 58 ∷ more
        → (result ≡ n) × (rest.new ≡ 58 ∷ more) }
{
    if rest.take(b"over 512") {
        return LONG_CYCLE;
    }
    number(rest)
}
