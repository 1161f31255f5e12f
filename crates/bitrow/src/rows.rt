//! The union of the rows that a set names.

ghost use Rattle.std.specs.Prelude.{◌≡◌, ◌<◌, ◌+◌, ◌*◌, ℕ, List, length};
ghost use Rattle.bitrow.specs.Bits.{bits_of, IsWidth};
ghost use Rattle.bitrow.specs.Rows.{Marked, IsBitSquare, IsBelow, GetsLabel, IsUnion};

use crate::lanes::no_number;
use crate::row::BitRow;
use crate::word_bits::without_lowest;
use std::simd::prelude::*;

/// Gives the label to each number of a set in one of its words, and joins their rows to others.
fn join_word<const N: usize>(
    rows: &[BitRow],
    set: &[u64],
    word: usize,
    label: u16,
    union: Simd<u64, N>,
    labels: &mut [u16],
) -> Simd<u64, N>
    requires square { IsBitSquare rows.now }
    requires width { IsWidth N (length rows.now) }
    requires set { IsBelow (length rows.now) (bits_of set.now) }
    requires labels { length labels.old ≡ length rows.now }
    requires word { word < length set.now }
    requires union { IsUnion (Marked rows.now) (bits_of set.now) (64 * word) (bits_of union) }
    ensures labels { (before : List ℕ) → GetsLabel (bits_of set.now) (64 * word) label before labels.old
        → GetsLabel (bits_of set.now) (64 * (word + 1)) label before labels.new }
    ensures union { IsUnion (Marked rows.now) (bits_of set.now) (64 * (word + 1)) (bits_of result) }
{
    let mut union = union;
    let mut rest = set[word];
    while rest != 0 {
        let number = 64 * word + rest.trailing_zeros() as usize;
        rest = without_lowest(rest);
        labels[number] = label;
        union = rows[number].join(union);
    }
    union
}

/// Gives the label to each number of a set; the union of their rows.
pub(crate) fn union_rows<const N: usize>(
    rows: &[BitRow],
    set: Simd<u64, N>,
    label: u16,
    labels: &mut [u16],
) -> Simd<u64, N>
    requires square { IsBitSquare rows.now }
    requires width { IsWidth N (length rows.now) }
    requires set { IsBelow (length rows.now) (bits_of set) }
    requires labels { length labels.old ≡ length rows.now }
    ensures labels { GetsLabel (bits_of set.entry) (length rows.now) label labels.old labels.new }
    ensures union { IsUnion (Marked rows.now) (bits_of set.entry) (length rows.now) (bits_of result) }
{
    let words = set.to_array();
    let mut union = no_number();
    for word in 0..N {
        union = join_word(rows, &words, word, label, union, labels);
    }
    union
}
