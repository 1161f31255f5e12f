//! Final values that stay known where some events alone are kept.

ghost use Rattle.std.specs.Prelude.{◌≡◌, ◌↔◌, ◌<◌, ℕ, IfOk, IsTrue, Some, None, false, length, slice_index_or};
ghost use Rattle.values.specs.Values.{known_final};
ghost use Rattle.completion.specs.Left.{IsInRow};
ghost use Rattle.completion.specs.Pairs.{IsTable};
ghost use Rattle.completion.specs.Part.{CanEnd, WritesValue};

use crate::table::{Placed, event_at};
use bitrow::BitRow;
use common::OutOfMemory;
use std::alloc::Global;
use values::Values;

/// Whether an event writes a value to an address.
fn writes_value(values: &Values, table: &[Placed], w: usize, address: usize, value: u32) -> bool
    requires table { IsTable values.now table.now }
    requires there { w < length table.now }
    ensures holds { IsTrue result → WritesValue values.now address value w }
    ensures fails { result ≡ false → ¬ WritesValue values.now address value w }
{
    let event = event_at(values, table, w);
    match event.written_address() {
        Some(written) => written as usize == address && event.value_written() == value,
        None => false,
    }
}

/// Whether an event of a row writes a value to an address, or none at all does.
fn can_end(values: &Values, table: &[Placed], row: &BitRow, address: usize, value: u32) -> bool
    requires table { IsTable values.now table.now }
    requires row { length row.now ≡ length table.now }
    ensures holds { IsTrue result → CanEnd values.now (IsInRow row.now) address value }
    ensures fails { result ≡ false → ¬ CanEnd values.now (IsInRow row.now) address value }
{
    let mut at_all = false;
    for w in 0..table.len() {
        if writes_value(values, table, w, address, value) {
            if row.test(w) {
                return true;
            }
            at_all = true;
        }
    }
    !at_all
}

/// The final value of an address, if it is known and stays so.
fn kept_final(
    values: &Values,
    table: &[Placed],
    row: &BitRow,
    address: usize,
    known: Option<u32>,
) -> Option<u32>
    requires table { IsTable values.now table.now }
    requires row { length row.now ≡ length table.now }
    ensures kept { (n : ℕ) → known ≡ Some n → CanEnd values.now (IsInRow row.now) address n → result ≡ Some n }
    ensures gone { (n : ℕ) → result ≡ Some n → (known ≡ Some n) × CanEnd values.now (IsInRow row.now) address n }
{
    let value = known?;
    if can_end(values, table, row, address, value) {
        Some(value)
    } else {
        None
    }
}

/// The final values that stay known.
pub(crate) fn kept_finals(
    alloc: Global,
    values: &Values,
    table: &[Placed],
    row: &BitRow,
) -> Result<Vec<Option<u32>>, OutOfMemory>
    requires table { IsTable values.now table.now }
    requires row { length row.now ≡ length table.now }
    ensures count { IfOk result (λ finals. length finals.items ≡ length values.now.final_values) }
    ensures kept { IfOk result (λ finals. (a n : ℕ) → known_final values.now a ≡ Some n
        → CanEnd values.now (IsInRow row.now) a n → slice_index_or finals.items a None ≡ Some n) }
    ensures gone { IfOk result (λ finals. (a n : ℕ) → slice_index_or finals.items a None ≡ Some n
        → (known_final values.now a ≡ Some n) × CanEnd values.now (IsInRow row.now) a n) }
{
    let known = values.final_values();
    let mut finals = Vec::new(alloc);
    for a in 0..known.len() {
        finals.push(kept_final(values, table, row, a, known[a]))?;
    }
    Ok(finals)
}
