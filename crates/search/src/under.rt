//! Rows under the shared bound.

ghost use Rattle.std.specs.Prelude.{◌≡◌, ◌≤◌, ◌<◌, ◌+◌, true, false, length, IfOk, IfErr, IfSome};
ghost use Rattle.std.specs.Prelude.{MatchOption, Contains};
ghost use Rattle.std.specs.Option.{unwrap_or};
ghost use Rattle.std.specs.Arc.{arc_value};
ghost use Rattle.relations.specs.Relation.{Related};
ghost use Rattle.relations.specs.Cycle.{IsExactRow};
ghost use Rattle.best.specs.Rule.{IsLength};
ghost use Rattle.best.specs.Seats.{IsBestSeatOf, known_of};
ghost use Rattle.search.specs.Cycles.{IsNearest};
ghost use Rattle.search.specs.Bound.{Covers, CoversClosing, IsCapWithin, Keeps, IsSeatFor, lengths_of};

use crate::job::SourceJob;
use crate::label_row::LabelRow;
use crate::row::row_with;
use best::{Best, BestSeat};
use common::{EventId, OutOfMemory};
use relations::Relation;
use std::alloc::Global;
use std::sync::Arc;

/// Whether the least label that closes a cycle gives one that is shorter than the cap.
fn is_shorter(closing: u16, cap: Option<u16>, events: u16) -> bool
    ensures yes { result ≡ true → closing < unwrap_or cap events }
    ensures no { result ≡ false → MatchOption cap (events ≤ closing) (λ k. k ≤ closing + 1) }
{
    match cap {
        Some(k) => (closing as usize) + 1 < (k as usize),
        None => closing < events,
    }
}

/// Writes the row of a source, cut at the cap or else at the number of events, and returns the least label that
/// closes a cycle through it.
fn row_cut(relation: &Relation, source: EventId, cap: Option<u16>, labels: &mut [u16]) -> u16
    requires source { source < length relation.now }
    requires labels { length labels.old ≡ length relation.now }
    ensures exact { IsExactRow (Related relation.now) (length relation.now)
        (unwrap_or cap (length relation.now)) source labels.new }
    ensures nearest { IsNearest (Related relation.now) source labels.new
        (unwrap_or cap (length relation.now)) result }
{
    relation.sound();
    let most = cap.unwrap_or(relation.len() as u16);
    row_with(relation.successors(), source, most, labels)
}

/// Lowers the bound to the length of the cycle that the label closes, if it is shorter than the cap.
fn publish_length(best: &Best, seat: &mut BestSeat, cap: Option<u16>, closing: u16, events: u16)
    requires seat { IsBestSeatOf best.now seat.old }
    requires known { IfSome cap (λ k. Contains (lengths_of seat.old) k) }
    requires cycle { closing < unwrap_or cap events → IsLength (known_of seat.old).relation (closing + 1) }
    ensures seat { IsBestSeatOf best.now seat.new }
    ensures relation { (known_of seat.new).relation ≡ (known_of seat.old).relation }
    ensures kept { Keeps (lengths_of seat.old) (lengths_of seat.new) }
    ensures covers { CoversClosing (lengths_of seat.new) events closing }
{
    if is_shorter(closing, cap, events) {
        best.lower_to_length(seat, closing + 1);
    }
}

/// The row of a source, as `row_under` gives it.
pub(crate) fn row_for(
    alloc: Global,
    relation: &Arc<Relation>,
    source: EventId,
    best: &Best,
    seat: &mut BestSeat,
) -> Result<LabelRow, OutOfMemory>
    requires source { source < length (arc_value relation.now) }
    requires seat { IsSeatFor best.now (arc_value relation.now) seat.old }
    ensures seat { IsSeatFor best.now (arc_value relation.now) seat.new }
    ensures kept { Keeps (lengths_of seat.old) (lengths_of seat.new) }
    ensures relation { IfOk result (λ row. row.relation ≡ arc_value relation.now) }
    ensures source { IfOk result (λ row. row.source ≡ source) }
    ensures cap { IfOk result (λ row. IsCapWithin (lengths_of seat.old) row.cap) }
    ensures covers { IfOk result (λ _. Covers (Related (arc_value relation.now)) (lengths_of seat.new)
        source) }
    ensures unchanged { IfErr result (λ _. seat.new ≡ seat.old) }
{
    let table: &Relation = relation;
    table.sound();
    let events = table.len();
    let shared = Arc::try_clone(relation)?;
    let mut labels = vec![in alloc; 0; events]?;
    let cap = best.read(seat);
    let closing = row_cut(table, source, cap, labels.as_mut_slice());
    publish_length(best, seat, cap, closing, events as u16);
    Ok(LabelRow::of(shared, source, cap, labels))
}

/// The row of a job, cut at the length of a cycle, at most each length that the seat knows, or, only where
/// it knows none, at the number of events; the seat then knows for each cycle through the source a length
/// that is at most its own.
/// All memory is taken before the bound is looked at. Fails only if out of memory, and then the seat is
/// as it was.
pub fn row_under(
    alloc: Global,
    job: &SourceJob,
    best: &Best,
    seat: &mut BestSeat,
) -> Result<LabelRow, OutOfMemory>
    requires { IsSeatFor best.now job.now.relation seat.old }
    ensures seat { IsSeatFor best.now job.now.relation seat.new }
    ensures kept { Keeps (lengths_of seat.old) (lengths_of seat.new) }
    ensures relation { IfOk result (λ row. row.relation ≡ job.now.relation) }
    ensures source { IfOk result (λ row. row.source ≡ job.now.source) }
    ensures cap { IfOk result (λ row. IsCapWithin (lengths_of seat.old) row.cap) }
    ensures covers { IfOk result (λ _. Covers (Related job.now.relation) (lengths_of seat.new)
        job.now.source) }
    ensures unchanged { IfErr result (λ _. seat.new ≡ seat.old) }
{
    row_for(alloc, job.relation(), job.source(), best, seat)
}
