//! Free steps of one core.

ghost use Rattle.std.specs.Prelude.{◌≡◌, ◌&&◌, ◌==◌, ◌<◌, ◌^◌, None, length, slice_index, slice_index_or};
ghost use Rattle.recording.specs.declared.event.Event.TheVariants.{F};
ghost use Rattle.completion.specs.Situation.{memory_of};
ghost use Rattle.completion.specs.Situation.{events_of, is_free, mark_read, may_read};
ghost use Rattle.situations.specs.Situation.{drained_of};
ghost use Rattle.completion.specs.Situation.{past_free, source_at};
ghost use Rattle.situations.specs.Situation.{place_of};
ghost use Rattle.situations.specs.Step.{stored_by_event};
ghost use Rattle.situations.specs.Waiting.{between, youngest};

use crate::marks::{mark_at, mark_read, may_read, source_at};
use common::Addr;
use recording::Event;
use situations::{Row, between, forwarded_value, none_waits, value_at, youngest};
use values::Values;

/// Whether a load may take its value from where it finds it, as far as its source is known.
fn may_forward(
    values: &Values,
    row: &Row,
    core: usize,
    from: usize,
    at: usize,
    address: Addr,
) -> bool
    ensures { result ≡ may_read (source_at values.now core at) (mark_read values.now core
        (slice_index row.now.notes address)
        (youngest stored_by_event address None from (between (events_of values.now.cores core) from at))) }
{
    let known = source_at(values, core, at);
    if known.is_none() {
        return true;
    }
    let seen = between(values.events(core), from, at);
    let own = if seen.is_empty() {
        None
    } else {
        youngest(address, from, seen)
    };
    may_read(known, mark_read(values, core, mark_at(row, address), own))
}

/// Whether the event of a core at a place is executed at once, after those from a place on.
fn is_free(values: &Values, row: &Row, core: usize, from: usize, at: usize) -> bool
    requires { at < length (events_of values.now.cores core) }
    ensures { result ≡ is_free values.now (memory_of row.now) core from at
        (between (events_of values.now.cores core) from at)
        (slice_index_or (events_of values.now.cores core) at F) }
{
    let events = values.events(core);
    let seen = between(events, from, at);
    match events[at] {
        Event::L { a, r, .. } => {
            forwarded_value(a, value_at(row.memory(), a as usize), seen) == r
                && may_forward(values, row, core, from, at, a)
        }
        Event::S { .. } => true,
        Event::R { .. } => false,
        Event::C { a, r, .. } => {
            none_waits(seen)
                && value_at(row.memory(), a as usize) == r
                && may_read(source_at(values, core, at), mark_at(row, a))
        }
        Event::F => none_waits(seen),
    }
}

/// Where a core comes to from where it is.
pub(crate) fn past_free(values: &Values, row: &Row, core: usize) -> usize
    ensures value { result
        ≡ past_free values.now (memory_of row.now) core (drained_of row.now core) (place_of row.now core) }
    ensures few { length (events_of values.now.cores core) < 2 ^ 32 → result < 2 ^ 32 }
{
    let place = row.place(core);
    let from = row.drained_place(core).min(place);
    let count = values.events(core).len();
    for at in place..count {
        if !is_free(values, row, core, from, at) {
            return at;
        }
    }
    place.max(count)
}
