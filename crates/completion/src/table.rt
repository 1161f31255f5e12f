//! All events of values, by their numbers.

ghost use Rattle.std.specs.Prelude.{◌≡◌, ◌++◌, ◌<◌, IfOk, OnOk, length, map};
ghost use Rattle.recording.specs.Execution.{core_of, event_at};
ghost use Rattle.values.specs.Refused.{events_alone};
ghost use Rattle.completion.specs.Pairs.{IsTable, on_core, pair_of};

use crate::counts::core_count;
use common::OutOfMemory;
use recording::Event;
use std::alloc::Global;
use values::Values;

/// An event with its core.
#[derive(Clone, Copy)]
pub struct Placed {
    /// Its core.
    pub core: usize,
    /// What it does.
    pub event: Event,
}

/// Adds the events of a core.
fn add_core(events: &[Event], core: usize, table: &mut Vec<Placed>) -> Result<(), OutOfMemory>
    ensures { OnOk result (map pair_of table.new.items
        ≡ map pair_of table.old.items ++ map (on_core core) events.now) }
{
    for event in events {
        table.push(Placed {
            core,
            event: *event,
        })?;
    }
    Ok(())
}

/// All events with their cores. Fails only if out of memory.
pub(crate) fn table(alloc: Global, values: &Values) -> Result<Vec<Placed>, OutOfMemory>
    ensures { IfOk result (λ t. IsTable values.now t.items) }
{
    let mut table = Vec::new(alloc);
    for core in 0..core_count(values) {
        add_core(values.events(core), core, &mut table)?;
    }
    Ok(table)
}

/// The event of a number.
pub(crate) fn event_at(values: &Values, table: &[Placed], number: usize) -> Event
    requires table { IsTable values.now table.now }
    requires there { number < length table.now }
    ensures { result ≡ event_at (events_alone values.now) number }
{
    let _values = values;
    table[number].event
}

/// Its core.
pub(crate) fn core_of(values: &Values, table: &[Placed], number: usize) -> usize
    requires table { IsTable values.now table.now }
    requires there { number < length table.now }
    ensures { result ≡ core_of (events_alone values.now) number }
{
    let _values = values;
    table[number].core
}
