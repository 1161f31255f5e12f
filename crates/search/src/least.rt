//! The least of the shortest cycles.

ghost use Rattle.std.specs.Prelude.{◌≡◌, ◌<◌, ◌↔◌, IsTrue, [], length, slice_index_or, IfOk};
ghost use Rattle.relations.specs.Relation.{Related};
ghost use Rattle.relations.specs.Cycle.{IsLeastCycle, IsCertificate, AreExactRows};
ghost use Rattle.labels.specs.Certified.{lists_of};
ghost use Rattle.search.specs.Cycles.{IsGrid, IsShortestLength, IsLeastWith, ClosesAt, IsNextOnCycle};

use common::{EventId, OutOfMemory};
use relations::Relation;
use std::alloc::Global;

/// Whether an event with the label is forced before `v`.
fn closes_at(relation: &Relation, v: EventId, row: &[u16], label: u16) -> bool
    requires { length row.now ≡ length relation.now }
    ensures { IsTrue result ↔ ClosesAt (Related relation.now) v row.now label }
{
    relation.sound();
    for from in 0..row.len() {
        if row[from] == label && relation.forced(from as EventId, v) {
            return true;
        }
    }
    false
}

/// The least event that an event with the label in its row is forced before.
fn first_event(relation: &Relation, rows: &[Vec<u16>], label: u16) -> Option<EventId>
    requires { IsGrid (length relation.now) (lists_of rows.now) }
    ensures { IsLeastWith
        (λ v. ClosesAt (Related relation.now) v (slice_index_or (lists_of rows.now) v []) label)
        (length relation.now) result }
{
    relation.sound();
    for v in 0..rows.len() {
        if closes_at(relation, v as EventId, &rows[v], label) {
            return Some(v as EventId);
        }
    }
    None
}

/// The least event that the last one is forced before, and from which `v` is that many steps.
fn next_event(
    relation: &Relation,
    rows: &[Vec<u16>],
    last: EventId,
    v: EventId,
    left: u16,
) -> Option<EventId>
    requires rows { IsGrid (length relation.now) (lists_of rows.now) }
    requires v { v < length relation.now }
    ensures { IsLeastWith (IsNextOnCycle (Related relation.now) (lists_of rows.now) last v left)
        (length relation.now) result }
{
    relation.sound();
    for next in 0..rows.len() {
        if relation.forced(last, next as EventId) && rows[next][v as usize] == left {
            return Some(next as EventId);
        }
    }
    None
}

/// The first in dictionary order of the shortest cycles, from the rows of all events that are cut
/// at their length.
pub fn least_cycle(
    alloc: Global,
    relation: &Relation,
    rows: &[Vec<u16>],
    size: u16,
) -> Result<Vec<EventId>, OutOfMemory>
    requires rows { AreExactRows (Related relation.now) (length relation.now) size (lists_of rows.now) }
    requires size { IsShortestLength (Related relation.now) size }
    ensures least { IfOk result (λ cycle. IsLeastCycle (Related relation.now) cycle.items) }
    ensures size { IfOk result (λ cycle. length cycle.items ≡ size) }
    ensures certified { IfOk result (λ cycle. IsCertificate (Related relation.now) (length relation.now)
        cycle.items (lists_of rows.now)) }
{
    relation.sound();
    let mut cycle = Vec::with_capacity(alloc, size as usize)?;
    let mut left = size - 1;
    let Some(first) = first_event(relation, rows, left) else {
        unreachable!();
    };
    cycle.push(first)?;
    let mut last = first;
    while left > 0 {
        let Some(next) = next_event(relation, rows, last, first, left) else {
            unreachable!();
        };
        cycle.push(next)?;
        last = next;
        left -= 1;
    }
    Ok(cycle)
}
