//! Values that a recording can have.

ghost use Rattle.std.specs.Prelude.{◌≡◌, ◌<◌, ◌⊎◌, ◌↔◌, ℕ, IsTrue, Some, length};
ghost use Rattle.recording.specs.Event.{read_address, written_address};
ghost use Rattle.recording.specs.Execution.{Reads, Writes};
ghost use Rattle.values.specs.Refused.{events_alone};
ghost use Rattle.values.specs.Values.{known_source};
ghost use Rattle.completion.specs.Pairs.{IsTable};
ghost use Rattle.completion.specs.Performed.{HaveRoom};

use crate::counts::core_count;
use crate::table::{Placed, event_at};
use common::{MAX_ADDRESSES, MAX_CORES, MAX_EVENTS};
use recording::Event;
use values::Values;

/// Whether the addresses that an event uses are below a number.
fn is_below(event: Event, count: usize) -> bool
    ensures { IsTrue result
        ↔ ((a : ℕ) → (read_address event ≡ Some a) ⊎ (written_address event ≡ Some a) → a < count) }
{
    match event {
        Event::L { a, .. } => (a as usize) < count,
        Event::S { a, .. } => (a as usize) < count,
        Event::R { a, .. } => (a as usize) < count,
        Event::C { a, .. } => (a as usize) < count,
        Event::F => true,
    }
}

/// Whether each address that is used has an initial value.
fn has_addresses(values: &Values, table: &[Placed]) -> bool
    requires table { IsTable values.now table.now }
    ensures { IsTrue result ↔ ((e a : ℕ) → Reads (events_alone values.now) e a ⊎ Writes (events_alone values.now) e a
        → a < length values.now.initial) }
{
    for e in 0..table.len() {
        if !is_below(event_at(values, table, e), values.init().len()) {
            return false;
        }
    }
    true
}

/// Whether an event reads.
fn reads(values: &Values, table: &[Placed], e: usize) -> bool
    requires table { IsTable values.now table.now }
    ensures { IsTrue result ↔ ((a : ℕ) × Reads (events_alone values.now) e a) }
{
    if e >= table.len() {
        return false;
    }
    match event_at(values, table, e).read_address() {
        Some(_address) => true,
        None => false,
    }
}

/// Whether each event that is known to have a write as its source reads.
fn has_reads(values: &Values, table: &[Placed]) -> bool
    requires table { IsTable values.now table.now }
    ensures { IsTrue result ↔ ((e w : ℕ) → known_source values.now e ≡ Some (Some w)
        → (a : ℕ) × Reads (events_alone values.now) e a) }
{
    let known = values.sources();
    for e in 0..known.len() {
        if let Some(Some(_write)) = known[e] {
            if !reads(values, table, e) {
                return false;
            }
        }
    }
    true
}

/// Whether they are within the limits of recordings, each address that is used has an initial value, and what is known
/// to have a write as its source reads.
pub(crate) fn have_room(values: &Values, table: &[Placed]) -> bool
    requires table { IsTable values.now table.now }
    ensures { IsTrue result ↔ HaveRoom values.now }
{
    if core_count(values) > MAX_CORES {
        return false;
    }
    if table.len() > MAX_EVENTS {
        return false;
    }
    if values.init().len() > MAX_ADDRESSES {
        return false;
    }
    has_addresses(values, table) && has_reads(values, table)
}
