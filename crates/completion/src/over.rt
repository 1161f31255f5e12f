//! Situations at their end.

ghost use Rattle.std.specs.Prelude.{◌≡◌, ◌<◌, ◌↔◌, ℕ, IsTrue, Some, length, slice_index};
ghost use Rattle.values.specs.Values.{known_final};
ghost use Rattle.completion.specs.Situation.{IsEnd, IsOver};

use crate::counts::core_count;
use situations::{Row, between, oldest, value_at};
use values::Values;

/// Whether a core has come to its end.
fn is_over(values: &Values, row: &Row, core: usize) -> bool
    ensures { IsTrue result ↔ IsOver values.now.cores row.now core }
{
    let events = values.events(core);
    let place = row.place(core);
    if place < events.len() {
        return false;
    }
    let from = row.drained_place(core);
    oldest(from, between(events, from, place)).is_none()
}

/// Whether every core has come to its end.
fn are_over(values: &Values, row: &Row) -> bool
    ensures { IsTrue result ↔ ((c : ℕ) → c < length values.now.cores → IsOver values.now.cores row.now c) }
{
    for core in 0..core_count(values) {
        if !is_over(values, row, core) {
            return false;
        }
    }
    true
}

/// Whether each address has the value that it is known to end with.
fn has_finals(values: &Values, row: &Row) -> bool
    ensures { IsTrue result
        ↔ ((a n : ℕ) → known_final values.now a ≡ Some n → slice_index row.now.memory a ≡ n) }
{
    let known = values.final_values();
    let memory = row.memory();
    for a in 0..known.len() {
        if let Some(value) = known[a] {
            if value_at(memory, a) != value {
                return false;
            }
        }
    }
    true
}

/// Whether every core has come to its end, and each address has the value that it is known to end with.
pub(crate) fn is_end(values: &Values, row: &Row) -> bool
    ensures { IsTrue result ↔ IsEnd values.now row.now }
{
    are_over(values, row) && has_finals(values, row)
}
