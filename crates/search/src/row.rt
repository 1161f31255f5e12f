//! A breadth-first search.

ghost use Rattle.std.specs.Prelude.{◌≡◌, ◌<◌, ◌≤◌, length, IsTrue};
ghost use Rattle.relations.specs.Cycle.{IsExactRow};
ghost use Rattle.bitrow.specs.Bits.{IsWidth};
ghost use Rattle.bitrow.specs.Rows.{Marked, IsBitSquare};
ghost use Rattle.search.specs.Cycles.{IsNearest};
ghost use Rattle.search.specs.Levels.{IsClosing};

use bitrow::{BitRow, no_number, one_number, take_level};
use common::EventId;

/// The least label that closes, with one more level; the cap where there is none.
fn closing_with(closes: bool, label: u16, cap: u16, closing: u16) -> u16
    ensures { IsClosing (IsTrue closes) label cap closing result }
{
    if closing == cap && closes {
        label
    } else {
        closing
    }
}

/// Writes the least number of steps from a source to each event, or the cap where none is less, and returns the
/// least of these numbers for the events that are forced before the source. It is compiled by itself: among the values
/// of its callers, its loop would have too few registers.
#[inline(never)]
fn row_in_words<const N: usize>(
    rows: &[BitRow],
    source: EventId,
    cap: u16,
    labels: &mut [u16],
) -> u16
    requires square { IsBitSquare rows.now }
    requires width { IsWidth N (length rows.now) }
    requires source { source < length rows.now }
    requires labels { length labels.old ≡ length rows.now }
    ensures exact { IsExactRow (Marked rows.now) (length rows.now) cap source labels.new }
    ensures nearest { IsNearest (Marked rows.now) source labels.new cap result }
{
    labels.fill(cap);
    let mut seen = no_number::<N>();
    let mut level = one_number::<N>(source as usize);
    let mut closing = cap;
    for label in 0..cap {
        let (closes, more) = take_level(
            rows,
            label,
            source as usize,
            &mut level,
            &mut seen,
            labels,
        );
        closing = closing_with(closes, label, cap, closing);
        if !more {
            return closing;
        }
    }
    closing
}

/// Writes the same row and returns the same number.
pub(crate) fn row_with(rows: &[BitRow], source: EventId, cap: u16, labels: &mut [u16]) -> u16
    requires square { IsBitSquare rows.now }
    requires few { length rows.now ≤ 512 }
    requires source { source < length rows.now }
    requires labels { length labels.old ≡ length rows.now }
    ensures exact { IsExactRow (Marked rows.now) (length rows.now) cap source labels.new }
    ensures nearest { IsNearest (Marked rows.now) source labels.new cap result }
{
    match rows.len() {
        0..=64 => row_in_words::<1>(rows, source, cap, labels),
        65..=128 => row_in_words::<2>(rows, source, cap, labels),
        129..=256 => row_in_words::<4>(rows, source, cap, labels),
        _ => row_in_words::<8>(rows, source, cap, labels),
    }
}
