//! Decimal numbers of a text.

ghost use Rattle.std.specs.Prelude.{◌≡◌};
ghost use Rattle.std.specs.List.{list_all};
ghost use Rattle.texts.specs.Decimals.{is_digit, is_decimal, value_from, decimal_of, IsValue, AreValues};

/// A number that was read.
#[derive(Clone, Copy, PartialEq, Eq)]
pub enum Number {
    /// A number of at most 32 bits.
    Value(u32),
    /// A number of more than 32 bits.
    TooLarge,
}

/// The number that the text is: `0`, or digits of which the first is not `0`. None where it is no
/// number; a number may have any count of digits.
#[tactic(auto, unfolding(crate::specs::Decimals::decimal_of))]
pub fn decimal(text: &[u8]) -> Option<Number>
    ensures { AreValues result (decimal_of text.now) }
{
    if !is_decimal(text) {
        return None;
    }
    Some(number_of(text))
}

fn is_decimal(text: &[u8]) -> bool
    ensures { result ≡ is_decimal text.now }
{
    if text.is_empty() {
        return false;
    }
    if !all_digits(text) {
        return false;
    }
    text[0] != b'0' || text.len() == 1
}

fn all_digits(text: &[u8]) -> bool
    ensures { result ≡ list_all is_digit text.now }
{
    text.iter().all(|b| b.is_ascii_digit())
}

#[tactic(auto, using(crate::proofs::Values::value_more, crate::proofs::Values::value_large))]
fn number_of(text: &[u8]) -> Number
    ensures { IsValue result (value_from 0 text.now) }
{
    let mut total: u64 = 0;
    for b in text {
        total = total * 10 + (*b).saturating_sub(b'0') as u64;
        if (u32::MAX as u64) < total {
            return Number::TooLarge;
        }
    }
    Number::Value(total as u32)
}
