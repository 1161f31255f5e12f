//! The lines of counts and of first places.

ghost use Rattle.std.specs.Prelude.{◌≡◌, ◌<◌, ◌^◌, ◌++◌, ◌∷◌, ℕ, List, Option, IfSome};
ghost use Rattle.ledger.specs.Counted.{count_line, first_line, place_name};
ghost use Rattle.ledger.specs.Texts.{noun};

use crate::text_kind::Kind;
use crate::words::number;
use texts::Cursor;

/// Reads how many there are of a kind.
pub(crate) fn count(rest: &mut Cursor<'_>, name: &[u8]) -> usize
    ensures { (n : ℕ) (more : List ℕ) → n < 2 ^ 64 → rest.old ≡ count_line name.now n ++ more
        → (result ≡ n) × (rest.new ≡ more) }
{
    rest.take(name);
    rest.take(b" ");
    let count = number(rest);
    rest.take(b"\n");
    count
}

/// Reads a first place.
fn place_or_none(rest: &mut Cursor<'_>, kind: Kind) -> Option<usize>
    ensures { (first : Option ℕ) (more : List ℕ) → IfSome first (λ n. n < 2 ^ 64)
        → rest.old ≡ place_name (noun kind) first ++ 10 ∷ more → (result ≡ first) × (rest.new ≡ more) }
{
    if rest.take(b"none\n") {
        return None;
    }
    rest.take(kind.noun());
    let place = number(rest);
    rest.take(b"\n");
    Some(place)
}

/// Reads the first place of a kind.
pub(crate) fn first(rest: &mut Cursor<'_>, name: &[u8], kind: Kind) -> Option<usize>
    ensures { (first : Option ℕ) (more : List ℕ) → IfSome first (λ n. n < 2 ^ 64)
        → rest.old ≡ first_line name.now (noun kind) first ++ more → (result ≡ first) × (rest.new ≡ more) }
{
    rest.take(b"first ");
    rest.take(name);
    rest.take(b": ");
    place_or_none(rest, kind)
}
