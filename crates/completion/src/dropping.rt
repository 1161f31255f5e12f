//! Reads that nothing among other events may feed are taken away.

ghost use Rattle.std.specs.Prelude.{◌≡◌, ◌<◌, ℕ, IsTrue, Option, false, length};
ghost use Rattle.completion.specs.Left.{member_count, IsInRow, LeavesFed};
ghost use Rattle.completion.specs.Pairs.{IsTable};
ghost use Rattle.completion.specs.Part.{AreFed, IsFedAmong, MayFeed};

use crate::feeding::{is_fed_among, is_fed_at_all};
use crate::table::Placed;
use bitrow::BitRow;
use values::Values;

/// Whether an event may stay: it is fed among those of a row, or nothing at all may feed it.
fn may_stay(values: &Values, table: &[Placed], row: &BitRow, e: usize) -> bool
    requires table { IsTable values.now table.now }
    requires row { length row.now ≡ length table.now }
    requires there { e < length table.now }
    ensures holds { IsTrue result → (s : Option ℕ) → MayFeed values.now e s
        → IsFedAmong values.now (IsInRow row.now) e }
    ensures fed { result ≡ false → (s : Option ℕ) × MayFeed values.now e s }
    ensures unfed { result ≡ false → ¬ IsFedAmong values.now (IsInRow row.now) e }
{
    is_fed_among(values, table, row, e) || !is_fed_at_all(values, table, e)
}

/// Takes an event out of a row, if it may not stay. Whether it was taken.
fn drop_unfed(values: &Values, table: &[Placed], row: &mut BitRow, e: usize) -> bool
    requires table { IsTable values.now table.now }
    requires row { length row.old ≡ length table.now }
    requires there { e < length table.now }
    ensures size { length row.new ≡ length row.old }
    ensures leaves { LeavesFed values.now row.old row.new }
    ensures fewer { IsTrue result → member_count row.new < member_count row.old }
    ensures same { result ≡ false → row.new ≡ row.old }
    ensures stays { result ≡ false → IsInRow row.new e → (s : Option ℕ) → MayFeed values.now e s
        → IsFedAmong values.now (IsInRow row.new) e }
{
    if !row.test(e) || may_stay(values, table, row, e) {
        return false;
    }
    row.remove(e);
    true
}

/// Takes each event out of a row that may not stay, when its turn comes. Whether one was taken.
fn drop_each_unfed(values: &Values, table: &[Placed], row: &mut BitRow) -> bool
    requires table { IsTable values.now table.now }
    requires row { length row.old ≡ length table.now }
    ensures size { length row.new ≡ length row.old }
    ensures leaves { LeavesFed values.now row.old row.new }
    ensures fewer { IsTrue result → member_count row.new < member_count row.old }
    ensures fed { result ≡ false → AreFed values.now (IsInRow row.new) }
{
    let mut dropped = false;
    for e in 0..table.len() {
        if drop_unfed(values, table, row, e) {
            dropped = true;
        }
    }
    dropped
}

/// Takes events out of a row until each may stay.
pub(crate) fn drop_all_unfed(values: &Values, table: &[Placed], row: &mut BitRow)
    requires table { IsTable values.now table.now }
    requires row { length row.old ≡ length table.now }
    ensures size { length row.new ≡ length row.old }
    ensures leaves { LeavesFed values.now row.old row.new }
    ensures fed { AreFed values.now (IsInRow row.new) }
{
    for pass in 0..table.len() {
        if !drop_each_unfed(values, table, row) {
            return;
        }
    }
}
