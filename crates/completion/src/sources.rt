//! Sources of reads, as far as values tell them.

ghost use Rattle.std.specs.Prelude.{◌≡◌, ◌<◌, ℕ, IfOk, IfSome, IsTrue, Some, false, length};
ghost use Rattle.completion.specs.Pairs.{IsTable};
ghost use Rattle.completion.specs.Sources.{found_of, IsFoundSource, Matches, MayGive};
ghost use Rattle.recording.specs.Execution.{Reads, Writes, ProgramOrder, event_at};
ghost use Rattle.values.specs.Refused.{events_alone};

use crate::table::{Placed, core_of, event_at};
use common::{Addr, EventId};
use situations::value_at;
use values::Values;

/// The source of a read, as far as it is known.
#[derive(Clone, Copy)]
pub enum Source {
    /// More than one write, or a write and the initial value, may be it.
    Open,
    /// The initial value.
    Initial,
    /// This write.
    Only(usize),
}

/// More than one write may be a source.
#[derive(Clone, Copy)]
struct Many;

/// Whether an event is earlier than another on its core.
#[tactic(auto, using(crate::proofs::Alone::table_size))]
pub(crate) fn is_own(values: &Values, table: &[Placed], e: usize, f: usize) -> bool
    requires table { IsTable values.now table.now }
    requires first { e < length table.now }
    requires second { f < length table.now }
    ensures holds { IsTrue result → ProgramOrder (events_alone values.now) e f }
    ensures fails { result ≡ false → ¬ ProgramOrder (events_alone values.now) e f }
{
    e < f && core_of(values, table, e) == core_of(values, table, f)
}

/// Whether an event writes an address.
pub(crate) fn writes_to(values: &Values, table: &[Placed], e: usize, address: Addr) -> bool
    requires table { IsTable values.now table.now }
    requires there { e < length table.now }
    ensures holds { IsTrue result → Writes (events_alone values.now) e address }
    ensures fails { result ≡ false → ¬ Writes (events_alone values.now) e address }
{
    event_at(values, table, e).writes_to(address)
}

/// Whether an event may give a read its value.
fn may_give(values: &Values, table: &[Placed], read: usize, address: Addr, write: usize) -> bool
    requires table { IsTable values.now table.now }
    requires read { read < length table.now }
    requires write { write < length table.now }
    ensures holds { IsTrue result → MayGive values.now read address write }
    ensures fails { result ≡ false → ¬ MayGive values.now read address write }
{
    writes_to(values, table, write, address)
        && event_at(values, table, write).value_written()
            == event_at(values, table, read).value_read()
        && write != read
        && !is_own(values, table, read, write)
}

/// The write that alone may give a read its value, or none where none may; an error where more than one may.
fn only_write(
    values: &Values,
    table: &[Placed],
    read: usize,
    address: Addr,
) -> Result<Option<usize>, Many>
    requires table { IsTable values.now table.now }
    requires read { read < length table.now }
    ensures may { IfOk result (λ o. IfSome o (MayGive values.now read address)) }
    ensures only { IfOk result (λ o. (u : ℕ) → u < length table.now → MayGive values.now read address u
        → o ≡ Some u) }
{
    let mut found = None;
    for write in 0..table.len() {
        if may_give(values, table, read, address, write) {
            if found.is_some() {
                return Err(Many);
            }
            found = Some(write);
        }
    }
    Ok(found)
}

/// Whether an event writes what a read has, but is later on its core.
fn is_too_late(values: &Values, table: &[Placed], read: usize, address: Addr, write: usize) -> bool
    requires table { IsTable values.now table.now }
    requires read { read < length table.now }
    requires write { write < length table.now }
    ensures { IsTrue result → Matches values.now read address write }
{
    writes_to(values, table, write, address)
        && event_at(values, table, write).value_written()
            == event_at(values, table, read).value_read()
        && write != read
        && is_own(values, table, read, write)
}

/// The first event that writes what a read has, but is later on its core; none where there is none.
fn late_write(values: &Values, table: &[Placed], read: usize, address: Addr) -> Option<usize>
    requires table { IsTable values.now table.now }
    requires read { read < length table.now }
    ensures { IfSome result (Matches values.now read address) }
{
    for write in 0..table.len() {
        if is_too_late(values, table, read, address, write) {
            return Some(write);
        }
    }
    None
}

/// The source of a read whose value no write may give: the initial value, or a write that is too late for it.
fn source_without(values: &Values, table: &[Placed], read: usize, address: Addr) -> Source
    requires table { IsTable values.now table.now }
    requires read { read < length table.now }
    requires address { Reads (events_alone values.now) read address }
    requires none { (u : ℕ) → ¬ MayGive values.now read address u }
    ensures { IsFoundSource values.now read address result }
{
    if event_at(values, table, read).value_read() == value_at(values.init(), address as usize) {
        return Source::Initial;
    }
    match late_write(values, table, read, address) {
        Some(write) => Source::Only(write),
        None => Source::Initial,
    }
}

/// The source of the read at a number, as far as its value tells.
fn source_by_value(values: &Values, table: &[Placed], read: usize, address: Addr) -> Source
    requires table { IsTable values.now table.now }
    requires read { read < length table.now }
    requires address { Reads (events_alone values.now) read address }
    ensures { IsFoundSource values.now read address result }
{
    let Ok(found) = only_write(values, table, read, address) else {
        return Source::Open;
    };
    match found {
        None => source_without(values, table, read, address),
        Some(write) => {
            if event_at(values, table, read).value_read()
                == value_at(values.init(), address as usize)
            {
                return Source::Open;
            }
            Source::Only(write)
        }
    }
}

/// The source of an event that is known.
fn known_source(source: Option<EventId>) -> Source
    ensures { result ≡ found_of source }
{
    match source {
        None => Source::Initial,
        Some(write) => Source::Only(write as usize),
    }
}

/// The source of the read at a number, as far as it is known.
pub(crate) fn source_of(values: &Values, table: &[Placed], read: usize, address: Addr) -> Source
    requires table { IsTable values.now table.now }
    requires read { read < length table.now }
    requires address { Reads (events_alone values.now) read address }
    ensures { IsFoundSource values.now read address result }
{
    let sources = values.sources();
    if read < sources.len() {
        if let Some(source) = sources[read] {
            return known_source(source);
        }
    }
    source_by_value(values, table, read, address)
}
