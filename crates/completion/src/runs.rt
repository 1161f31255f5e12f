//! Sets of events, and runs of events that are taken out of them.

ghost use Rattle.std.specs.Prelude.{◌≡◌, ◌&&◌, ◌==◌, ◌<◌, ℕ, IfOk, IfSome, true, length, not};
ghost use Rattle.bitrow.specs.Bits.{is_in};

use crate::pairs::copy;
use bitrow::BitRow;
use common::OutOfMemory;
use std::alloc::Global;

/// All events. Fails only if out of memory.
pub(crate) fn all_events(alloc: Global, count: usize) -> Result<BitRow, OutOfMemory>
    ensures size { IfOk result (λ row. length row ≡ count) }
    ensures all { IfOk result (λ row. (e : ℕ) → e < count → is_in row e ≡ true) }
{
    let mut row = BitRow::new(alloc, count)?;
    for e in 0..count {
        row.set(e);
    }
    Ok(row)
}

/// The events of a row without one. Fails only if out of memory.
pub(crate) fn without_event(
    alloc: Global,
    count: usize,
    row: &BitRow,
    e: usize,
) -> Result<BitRow, OutOfMemory>
    requires size { length row.now ≡ count }
    requires there { e < count }
    ensures size { IfOk result (λ r. length r ≡ count) }
    ensures numbers { IfOk result (λ r. (j : ℕ) → is_in r j ≡ (is_in row.now j && not (j == e))) }
{
    let mut rest = copy(alloc, row, count)?;
    rest.remove(e);
    Ok(rest)
}

/// Where a run begins, and how long it is: run 1 has all events, 2 and 3 the halves, 4 to 7 the quarters, and so on.
fn bounds(count: usize, run: usize) -> (usize, usize)
    requires { 0 < run }
{
    let parts = 1usize << run.ilog2();
    let size = count.div_ceil(parts);
    ((run - parts).saturating_mul(size), size)
}

/// The events of a row without those of a run; none where the row has none of them. Fails only if out of memory.
pub(crate) fn without_run(
    alloc: Global,
    count: usize,
    row: &BitRow,
    run: usize,
) -> Result<Option<BitRow>, OutOfMemory>
    requires size { length row.now ≡ count }
    requires run { 0 < run }
    ensures { IfOk result (λ o. IfSome o (λ r. length r ≡ count)) }
{
    let mut rest = copy(alloc, row, count)?;
    let mut some = false;
    let (first, size) = bounds(count, run);
    for e in first.min(count)..first.saturating_add(size).min(count) {
        if rest.test(e) {
            rest.remove(e);
            some = true;
        }
    }
    if some { Ok(Some(rest)) } else { Ok(None) }
}
