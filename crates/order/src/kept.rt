//! Kept pairs.

ghost use Rattle.std.specs.Prelude.{◌≡◌, ◌<◌, ◌↔◌, ℕ, IsTrue, length, slice_index};
ghost use Rattle.recording.specs.Order.{Before, Enumerates};
ghost use Rattle.recording.specs.Execution.{event_count, Kept};

use common::EventId;
use recording::Recording;

/// Whether no event after the one at a place is kept before it.
fn keeps_after(recording: &Recording, order: &[EventId], at: usize) -> bool
    requires { at < length order.now }
    ensures { IsTrue result ↔ ((i : ℕ) → at < i → i < length order.now
        → ¬ Kept recording.now (slice_index order.now i) (slice_index order.now at)) }
{
    for i in at + 1..order.len() {
        if recording.keeps(order[i], order[at]) {
            return false;
        }
    }
    true
}

/// Whether the kept pairs stand in order.
pub(crate) fn keeps_order(recording: &Recording, order: &[EventId]) -> bool
    requires { Enumerates (λ e. e < event_count recording.now) order.now }
    ensures { IsTrue result ↔ ((e f : ℕ) → Kept recording.now e f → Before order.now e f) }
{
    for at in 0..order.len() {
        if !keeps_after(recording, order, at) {
            return false;
        }
    }
    true
}
