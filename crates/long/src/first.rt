//! The first order of a recording, or what shows that it has none.

ghost use Rattle.std.specs.Prelude.{IfOk};
ghost use Rattle.long.specs.Answer.{IsFirstOrder};

use crate::newest::overlook;
use crate::sorting::{Sorted, Unsorted, sort};
use common::{EventId, OutOfMemory};
use recording::Recording;
use relations::{forced_is_exact, ordered_is_acyclic};
use std::alloc::Global;

/// What is found of a recording before any cycle is.
#[derive(Drop)]
pub enum FirstOrder {
    /// The first memory order of TSO in dictionary order that explains it.
    Order(Vec<EventId>),
    /// The least read that overlooks a store of its own core, and the least store that it overlooks.
    Overlook(EventId, EventId),
    /// Events that are left open: the forced pairs have a cycle.
    Cyclic(Unsorted),
}

/// The least overlook of a recording if there is one, else its first memory order of TSO in dictionary order if there
/// is one (Nagarajan, Sorin, Hill and Wood, A Primer on Memory Consistency and Cache Coherence, second edition, chapter
/// 4), else events of which the forced pairs have a cycle. The time is nearly linear in the number of events, which no
/// clause says. It does not block. Fails only if out of memory.
pub fn first_order(alloc: Global, recording: &Recording) -> Result<FirstOrder, OutOfMemory>
    ensures { IfOk result (IsFirstOrder recording.now) }
{
    recording.sound();
    forced_is_exact();
    ordered_is_acyclic();
    if let Some((load, store)) = overlook(alloc, recording)? {
        return Ok(FirstOrder::Overlook(load, store));
    }
    match sort(alloc, recording)? {
        Sorted::Ordered(order) => Ok(FirstOrder::Order(order)),
        Sorted::Blocked(left) => Ok(FirstOrder::Cyclic(left)),
    }
}
