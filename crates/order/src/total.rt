//! Lists of all events.

ghost use Rattle.std.specs.Prelude.{◌≡◌, ◌<◌, ◌↔◌, ℕ, IsTrue};
ghost use Rattle.recording.specs.Order.{times, Enumerates};
ghost use Rattle.recording.specs.Execution.{event_count};

use common::EventId;
use recording::{Recording, times};

/// Whether each event stands once.
fn holds_each(recording: &Recording, order: &[EventId]) -> bool
    ensures { IsTrue result ↔ ((e : ℕ) → e < event_count recording.now → times order.now e ≡ 1) }
{
    recording.sound();
    for event in 0..recording.len() as EventId {
        if times(order, event) != 1 {
            return false;
        }
    }
    true
}

/// Whether what stands is an event.
fn holds_only(recording: &Recording, order: &[EventId]) -> bool
    ensures { IsTrue result ↔ ((e : ℕ) → 0 < times order.now e → e < event_count recording.now) }
{
    let len = recording.len();
    for i in 0..order.len() {
        if order[i] as usize >= len {
            return false;
        }
    }
    true
}

/// Whether the list holds each event once and nothing else.
pub(crate) fn is_total(recording: &Recording, order: &[EventId]) -> bool
    ensures { IsTrue result ↔ Enumerates (λ e. e < event_count recording.now) order.now }
{
    holds_only(recording, order) && holds_each(recording, order)
}
