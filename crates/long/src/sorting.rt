//! The first order of all events, or events that are left.

ghost use Rattle.std.specs.Prelude.{IfOk};
ghost use Rattle.relations.specs.Consistency.{HasNoOverlook};
ghost use Rattle.long.specs.Sorted.{IsSorted};

use crate::linking::link_chains;
use crate::pairs::Pairs;
use crate::waiting::Waiting;
use common::{EventId, OutOfMemory};
use recording::Recording;
use std::alloc::Global;

/// Forced pairs, and events that are left open, each of which is the second of a pair of one of them.
#[derive(Drop)]
pub struct Unsorted {
    pub(crate) pairs: Pairs,
    pub(crate) waiting: Waiting,
}

/// What comes of sorting.
#[derive(Drop)]
pub(crate) enum Sorted {
    /// All events in order.
    Ordered(Vec<EventId>),
    /// Some events are left, of which forced pairs have a cycle.
    Blocked(Unsorted),
}

/// The first of the orders that have the forced pairs in order, where no read overlooks a store, or the events that are
/// left.
pub(crate) fn sort(alloc: Global, recording: &Recording) -> Result<Sorted, OutOfMemory>
    ensures { IfOk result (λ sorted. HasNoOverlook recording.now → IsSorted recording.now sorted) }
{
    recording.sound();
    let (pairs, counts) = link_chains(alloc, recording)?;
    let mut waiting = Waiting::of(alloc, counts)?;
    let mut order = Vec::with_capacity(alloc, recording.len())?;
    for placed in 0..recording.len() {
        let Some(event) = waiting.take() else {
            return Ok(Sorted::Blocked(Unsorted { pairs, waiting }));
        };
        order.push(event)?;
        waiting.place(&pairs, event)?;
    }
    Ok(Sorted::Ordered(order))
}
