//! Whether values leave no choice of sources and write lists.

ghost use Rattle.std.specs.Prelude.{◌≡◌, ◌<◌, ℕ, IsTrue, Option, Some, false, length};
ghost use Rattle.recording.specs.Execution.{Writes};
ghost use Rattle.values.specs.Refused.{events_alone};
ghost use Rattle.completion.specs.Only.{HasNoChoice, LeaveNoChoice, MayGiveValue};
ghost use Rattle.completion.specs.Pairs.{IsTable};
ghost use Rattle.completion.specs.Part.{MayFeed};

use crate::feeding::{is_fed_by, is_fed_initially, may_be_write, source_at};
use crate::sources::writes_to;
use crate::table::{Placed, event_at};
use values::Values;

/// Whether an event writes the value that it reads, so that it may be its own source.
fn writes_back(values: &Values, table: &[Placed], e: usize) -> bool
    requires table { IsTable values.now table.now }
    requires there { e < length table.now }
    ensures holds { IsTrue result → MayGiveValue values.now e (Some e) }
    ensures fails { result ≡ false → ¬ MayGiveValue values.now e (Some e) }
{
    let event = event_at(values, table, e);
    match event.read_address() {
        Some(address) => {
            writes_to(values, table, e, address)
                && event.value_written() == event.value_read()
                && may_be_write(source_at(values, e), e)
        }
        None => false,
    }
}

/// Whether no two things may feed an event.
fn is_fed_once(values: &Values, table: &[Placed], e: usize) -> bool
    requires table { IsTable values.now table.now }
    requires there { e < length table.now }
    ensures holds { IsTrue result → (s t : Option ℕ) → MayFeed values.now e s → MayFeed values.now e t → s ≡ t }
    ensures fails { result ≡ false
        → ¬ ((s t : Option ℕ) → MayFeed values.now e s → MayFeed values.now e t → s ≡ t) }
{
    let mut found = is_fed_initially(values, table, e);
    for w in 0..table.len() {
        if is_fed_by(values, table, e, w) {
            if found {
                return false;
            }
            found = true;
        }
    }
    true
}

/// Whether two events write one address.
fn write_one_address(values: &Values, table: &[Placed], w: usize, u: usize) -> bool
    requires table { IsTable values.now table.now }
    requires first { w < length table.now }
    requires second { u < length table.now }
    ensures holds { IsTrue result → (a : ℕ) × Writes (events_alone values.now) w a
        × Writes (events_alone values.now) u a }
    ensures fails { result ≡ false → (a : ℕ) → Writes (events_alone values.now) w a
        → ¬ Writes (events_alone values.now) u a }
{
    match event_at(values, table, w).written_address() {
        Some(address) => writes_to(values, table, u, address),
        None => false,
    }
}

/// Whether no other event writes the address that an event writes.
fn is_only_write(values: &Values, table: &[Placed], w: usize) -> bool
    requires table { IsTable values.now table.now }
    requires there { w < length table.now }
    ensures holds { IsTrue result → (a u : ℕ) → Writes (events_alone values.now) w a
        → Writes (events_alone values.now) u a → w ≡ u }
    ensures fails { result ≡ false → ¬ ((a u : ℕ) → Writes (events_alone values.now) w a
        → Writes (events_alone values.now) u a → w ≡ u) }
{
    for u in 0..table.len() {
        if u != w && write_one_address(values, table, w, u) {
            return false;
        }
    }
    true
}

/// Whether an event has one source at most, which is not the event itself, and no other event writes the address that
/// it writes.
fn has_no_choice(values: &Values, table: &[Placed], e: usize) -> bool
    requires table { IsTable values.now table.now }
    requires there { e < length table.now }
    ensures holds { IsTrue result → HasNoChoice values.now e }
    ensures fails { result ≡ false → ¬ HasNoChoice values.now e }
{
    if writes_back(values, table, e) {
        return false;
    }
    if !is_fed_once(values, table, e) {
        return false;
    }
    is_only_write(values, table, e)
}

/// Whether no event has a choice.
pub(crate) fn leave_no_choice(values: &Values, table: &[Placed]) -> bool
    requires { IsTable values.now table.now }
    ensures holds { IsTrue result → LeaveNoChoice values.now }
    ensures fails { result ≡ false → ¬ LeaveNoChoice values.now }
{
    for e in 0..table.len() {
        if !has_no_choice(values, table, e) {
            return false;
        }
    }
    true
}
