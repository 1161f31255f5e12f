//! From what events read to a recording.

ghost use Rattle.std.specs.Prelude.{◌≡◌, ◌+◌, ◌≤◌, ◌++◌, [], length, map, All};
ghost use Rattle.program.specs.Parts.{op_count};
ghost use Rattle.machine.specs.State.{events_from, cores_from};

use crate::bounded::BoundedList;
use common::EventId;
use program::{Op, Ops};
use program_events::event_of;
use recording::Event;

/// Adds the events of a core, whose first event is `first`.
pub(crate) fn record_core(
    events: &mut BoundedList<Event>,
    ops: &[Op],
    reads: &[(u32, Option<EventId>)],
    first: usize,
)
    requires room { length events.old.items + length ops.now ≤ events.old.room }
    requires within { first + length ops.now ≤ length reads.now }
    ensures { events.new ≡ record {
      items = events.old.items ++ events_from first ops.now reads.now;
      room = events.old.room;
    } }
{
    for (i, op) in ops.iter().enumerate() {
        events.push(event_of(*op, reads[first + i]));
    }
}

/// The events of all cores, in lists that were made before.
pub(crate) fn record_all(
    mut lists: BoundedList<Vec<Event>>,
    mut events: Vec<BoundedList<Event>>,
    program: &[Ops],
    reads: &[(u32, Option<EventId>)],
) -> Vec<Vec<Event>>
    requires empty { lists.items ≡ [] }
    requires room { length program.now ≤ lists.room }
    requires one_each { length events.items ≡ length program.now }
    requires fresh { All (λ b. b ≡ record { items = []; room = length reads.now }) events.items }
    requires fits { op_count program.now ≤ length reads.now }
    ensures { map (λ v. v.items) result.items ≡ cores_from 0 program.now reads.now }
{
    let mut first = 0;
    for ops in program {
        let mut list = match events.pop() {
            Some(list) => list,
            None => unreachable!(),
        };
        record_core(&mut list, ops.as_slice(), reads, first);
        first += ops.as_slice().len();
        lists.push(list.into_items());
    }
    lists.into_items()
}

/// The lists without their rooms, in a list that was made before.
pub(crate) fn unwrap_all(
    mut lists: BoundedList<Vec<EventId>>,
    writes: Vec<BoundedList<EventId>>,
) -> Vec<Vec<EventId>>
    requires empty { lists.items ≡ [] }
    requires room { length writes.items ≤ lists.room }
    ensures { map (λ v. v.items) result.items ≡ map (λ b. b.items) writes.items }
{
    for list in writes {
        lists.push(list.into_items());
    }
    lists.into_items()
}
