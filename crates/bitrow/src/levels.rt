//! The levels of a breadth-first search.

ghost use Rattle.std.specs.Prelude.{◌≡◌, ◌<◌, ◌↔◌, ◌||◌, ℕ, IsTrue, true, false, length};
ghost use Rattle.bitrow.specs.Bits.{bits_of, is_in, IsWidth};
ghost use Rattle.bitrow.specs.Rows.{Marked, IsBitSquare, IsBelow, GetsLabel, IsNextLevel};

use crate::lanes::{both, has_number, is_empty, without};
use crate::row::BitRow;
use crate::rows::union_rows;
use std::simd::prelude::*;

/// Takes a level of a breadth-first search, in as many lanes as a row has words. Each of its numbers gets the label;
/// the level joins what was seen, as by `or_into`, and becomes the union of its rows without what was seen, as by
/// `and_not`. Says whether the union has the source, and whether the level may have a number: after a no it has none.
pub fn take_level<const N: usize>(
    rows: &[BitRow],
    label: u16,
    source: usize,
    level: &mut Simd<u64, N>,
    seen: &mut Simd<u64, N>,
    labels: &mut [u16],
) -> (bool, bool)
    requires square { IsBitSquare rows.now }
    requires width { IsWidth N (length rows.now) }
    requires source { source < length rows.now }
    requires level { IsBelow (length rows.now) (bits_of level.old) }
    requires labels { length labels.old ≡ length rows.now }
    ensures labels { GetsLabel (bits_of level.old) (length rows.now) label labels.old labels.new }
    ensures seen { (j : ℕ) → is_in (bits_of seen.new) j ≡ (is_in (bits_of seen.old) j || is_in (bits_of level.old) j) }
    ensures within { IsBelow (length rows.now) (bits_of level.new) }
    ensures level { IsNextLevel (Marked rows.now) (length rows.now) (bits_of level.old) (bits_of seen.new)
        (bits_of level.new) }
    ensures closes { IsTrue result.0 ↔ ((e : ℕ) × (is_in (bits_of level.old) e ≡ true) × Marked rows.now e source) }
    ensures none { result.1 ≡ false → (j : ℕ) → is_in (bits_of level.new) j ≡ false }
{
    let union = union_rows(rows, *level, label, labels);
    *seen = both(*seen, *level);
    *level = without(union, *seen);
    (has_number(union, source), !is_empty(*level))
}
