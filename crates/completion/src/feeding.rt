//! What may have given reads their values.

ghost use Rattle.std.specs.Prelude.{◌≡◌, ◌↔◌, ◌<◌, ℕ, IsTrue, Option, Some, None, false, length};
ghost use Rattle.values.specs.Values.{known_source};
ghost use Rattle.completion.specs.Left.{IsInRow};
ghost use Rattle.completion.specs.Pairs.{IsTable};
ghost use Rattle.completion.specs.Part.{IsFedAmong, MayFeed};

use crate::sources::writes_to;
use crate::table::{Placed, event_at};
use bitrow::BitRow;
use common::EventId;
use situations::value_at;
use values::Values;

/// The source of the event of a number that is known, if one is.
pub(crate) fn source_at(values: &Values, e: usize) -> Option<Option<EventId>>
    ensures { result ≡ known_source values.now e }
{
    let sources = values.sources();
    if e < sources.len() { sources[e] } else { None }
}

/// Whether a source may be the initial value, as far as it is known.
fn may_be_initial(source: Option<Option<EventId>>) -> bool
    ensures { IsTrue result ↔ ((t : Option ℕ) → source ≡ Some t → t ≡ None) }
{
    match source {
        None => true,
        Some(known) => known.is_none(),
    }
}

/// Whether it may be a write.
pub(crate) fn may_be_write(source: Option<Option<EventId>>, w: usize) -> bool
    ensures { IsTrue result ↔ ((t : Option ℕ) → source ≡ Some t → t ≡ Some w) }
{
    match source {
        None => true,
        Some(None) => false,
        Some(Some(write)) => write as usize == w,
    }
}

/// Whether the initial value may feed an event.
pub(crate) fn is_fed_initially(values: &Values, table: &[Placed], e: usize) -> bool
    requires table { IsTable values.now table.now }
    requires there { e < length table.now }
    ensures holds { IsTrue result → MayFeed values.now e None }
    ensures fails { result ≡ false → ¬ MayFeed values.now e None }
{
    let event = event_at(values, table, e);
    let Some(address) = event.read_address() else {
        return false;
    };
    event.value_read() == value_at(values.init(), address as usize)
        && may_be_initial(source_at(values, e))
}

/// Whether a write may feed an event.
pub(crate) fn is_fed_by(values: &Values, table: &[Placed], e: usize, w: usize) -> bool
    requires table { IsTable values.now table.now }
    requires there { e < length table.now }
    requires write { w < length table.now }
    ensures holds { IsTrue result → MayFeed values.now e (Some w) }
    ensures fails { result ≡ false → ¬ MayFeed values.now e (Some w) }
{
    let Some(address) = event_at(values, table, e).read_address() else {
        return false;
    };
    w != e
        && writes_to(values, table, w, address)
        && event_at(values, table, w).value_written() == event_at(values, table, e).value_read()
        && may_be_write(source_at(values, e), w)
}

/// Whether something may feed an event.
pub(crate) fn is_fed_at_all(values: &Values, table: &[Placed], e: usize) -> bool
    requires table { IsTable values.now table.now }
    requires there { e < length table.now }
    ensures holds { IsTrue result → (s : Option ℕ) × MayFeed values.now e s }
    ensures fails { result ≡ false → (s : Option ℕ) → ¬ MayFeed values.now e s }
{
    if is_fed_initially(values, table, e) {
        return true;
    }
    for w in 0..table.len() {
        if is_fed_by(values, table, e, w) {
            return true;
        }
    }
    false
}

/// Whether something among the events of a row may feed an event.
pub(crate) fn is_fed_among(values: &Values, table: &[Placed], row: &BitRow, e: usize) -> bool
    requires table { IsTable values.now table.now }
    requires row { length row.now ≡ length table.now }
    requires there { e < length table.now }
    ensures holds { IsTrue result → IsFedAmong values.now (IsInRow row.now) e }
    ensures fails { result ≡ false → ¬ IsFedAmong values.now (IsInRow row.now) e }
{
    if is_fed_initially(values, table, e) {
        return true;
    }
    for w in 0..table.len() {
        if row.test(w) && is_fed_by(values, table, e, w) {
            return true;
        }
    }
    false
}
