//! Write lists.

ghost use Rattle.std.specs.Prelude.{◌≡◌, ◌<◌, ◌≤◌, ◌↔◌, ℕ, IsTrue};
ghost use Rattle.recording.specs.Order.{times, Before};
ghost use Rattle.recording.specs.Execution.{write_list};

use common::{Addr, EventId};
use recording::{Recording, stands_before};

/// Whether a write list, whose writes differ, stands in order.
fn keeps_list(list: &[EventId], order: &[EventId]) -> bool
    requires { (e : ℕ) → times list.now e ≤ 1 }
    ensures { IsTrue result ↔ ((e f : ℕ) → Before list.now e f → Before order.now e f) }
{
    for i in 1..list.len() {
        if !stands_before(order, list[i - 1], list[i]) {
            return false;
        }
    }
    true
}

/// Whether the write lists stand in order.
pub(crate) fn keeps_writes(recording: &Recording, order: &[EventId]) -> bool
    ensures { IsTrue result
        ↔ ((a e f : ℕ) → Before (write_list recording.now a) e f → Before order.now e f) }
{
    recording.sound();
    for address in 0..recording.addresses() as Addr {
        if !keeps_list(recording.write_list(address), order) {
            return false;
        }
    }
    true
}
