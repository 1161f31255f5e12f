//! Values.

ghost use Rattle.std.specs.Prelude.{◌≡◌, ◌<◌, ◌↔◌, ℕ, IsTrue, length, slice_index};
ghost use Rattle.recording.specs.Order.{Enumerates};
ghost use Rattle.recording.specs.Execution.{event_count};
ghost use Rattle.recording.specs.Tso.{Visible, IsLastVisible};
ghost use Rattle.order.specs.Values.{HasLastVisible};

use common::{Addr, EventId};
use recording::Recording;

/// Whether the write at place `i` is visible to the read at place `at`.
fn is_visible(recording: &Recording, order: &[EventId], at: usize, address: Addr, i: usize) -> bool
    requires total { Enumerates (λ e. e < event_count recording.now) order.now }
    requires read { at < length order.now }
    requires write { i < length order.now }
    ensures { IsTrue result
        ↔ Visible recording.now order.now (slice_index order.now at) address (slice_index order.now i) }
{
    if i == at || !recording.writes_to(order[i], address) {
        return false;
    }
    i < at || recording.precedes(order[i], order[at])
}

/// The last write that is visible to the read at a place.
fn last_visible(
    recording: &Recording,
    order: &[EventId],
    at: usize,
    address: Addr,
) -> Option<EventId>
    requires total { Enumerates (λ e. e < event_count recording.now) order.now }
    requires read { at < length order.now }
    ensures { IsLastVisible recording.now order.now (slice_index order.now at) address result }
{
    let mut last = None;
    for i in 0..order.len() {
        if is_visible(recording, order, at, address, i) {
            last = Some(order[i]);
        }
    }
    last
}

/// Whether the event at a place, if it reads, has the last visible write as its source.
fn gives_value(recording: &Recording, order: &[EventId], at: usize) -> bool
    requires total { Enumerates (λ e. e < event_count recording.now) order.now }
    requires read { at < length order.now }
    ensures { IsTrue result ↔ HasLastVisible recording.now order.now (slice_index order.now at) }
{
    match recording.read_address(order[at]) {
        Some(address) => last_visible(recording, order, at, address) == recording.source(order[at]),
        None => true,
    }
}

/// Whether each read has the last visible write as its source.
pub(crate) fn gives_values(recording: &Recording, order: &[EventId]) -> bool
    requires { Enumerates (λ e. e < event_count recording.now) order.now }
    ensures { IsTrue result ↔ ((e : ℕ) → HasLastVisible recording.now order.now e) }
{
    for at in 0..order.len() {
        if !gives_value(recording, order, at) {
            return false;
        }
    }
    true
}
