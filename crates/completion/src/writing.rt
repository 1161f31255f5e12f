//! Writes among events that were performed.

ghost use Rattle.std.specs.Prelude.{◌≡◌, ◌<◌, [], ℕ, IfOk, length, map, slice_index_or};
ghost use Rattle.recording.specs.Execution.{event_count};
ghost use Rattle.recording.specs.Order.{times};
ghost use Rattle.values.specs.Refused.{events_alone};
ghost use Rattle.completion.specs.Pairs.{IsTable};
ghost use Rattle.completion.specs.Performed.{last_of, writers, writes_to};

use crate::table::{Placed, event_at};
use common::{Addr, EventId, OutOfMemory};
use std::alloc::Global;
use values::Values;

/// Whether an event writes an address.
fn writes(values: &Values, table: &[Placed], number: usize, address: usize) -> bool
    requires table { IsTable values.now table.now }
    requires there { number < length table.now }
    ensures { result ≡ writes_to values.now address number }
{
    match event_at(values, table, number).written_address() {
        Some(written) => written as usize == address,
        None => false,
    }
}

/// The last write of an address among events that were performed; none where there is none.
pub(crate) fn last_write(
    values: &Values,
    table: &[Placed],
    order: &[EventId],
    address: Addr,
) -> Option<EventId>
    requires table { IsTable values.now table.now }
    requires events { (e : ℕ) → 0 < times order.now e → e < event_count (events_alone values.now) }
    ensures { result ≡ last_of (writers values.now address order.now) }
{
    let mut last = None;
    for number in order {
        if writes(values, table, *number as usize, address as usize) {
            last = Some(*number);
        }
    }
    last
}

/// The writes of an address among events that were performed, in their order.
fn write_list(
    alloc: Global,
    values: &Values,
    table: &[Placed],
    order: &[EventId],
    address: usize,
) -> Result<Vec<EventId>, OutOfMemory>
    requires table { IsTable values.now table.now }
    requires events { (e : ℕ) → 0 < times order.now e → e < event_count (events_alone values.now) }
    ensures { IfOk result (λ list. list.items ≡ writers values.now address order.now) }
{
    let mut list = Vec::new(alloc);
    for number in order {
        if writes(values, table, *number as usize, address) {
            list.push(*number)?;
        }
    }
    Ok(list)
}

/// The writes of each address. Fails only if out of memory.
pub(crate) fn write_lists(
    alloc: Global,
    values: &Values,
    table: &[Placed],
    order: &[EventId],
) -> Result<Vec<Vec<EventId>>, OutOfMemory>
    requires table { IsTable values.now table.now }
    requires events { (e : ℕ) → 0 < times order.now e → e < event_count (events_alone values.now) }
    ensures count { IfOk result (λ lists. length lists.items ≡ length values.now.initial) }
    ensures lists { IfOk result (λ lists. (a : ℕ) → a < length values.now.initial
        → slice_index_or (map (λ l. l.items) lists.items) a [] ≡ writers values.now a order.now) }
{
    let mut lists = Vec::new(alloc);
    for address in 0..values.init().len() {
        lists.push(write_list(alloc, values, table, order, address)?)?;
    }
    Ok(lists)
}
