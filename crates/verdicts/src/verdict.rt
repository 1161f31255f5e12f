//! Verdicts.

use common::EventId;
use labels::Certificate;

/// What is judged of a recording. Its type keeps none of this; `verify` of `judge` says whether it holds.
#[derive(Drop)]
pub enum Verdict {
    /// A memory order of TSO that explains it: the events in that order.
    Ordered(Vec<EventId>),
    /// A read that overlooks a store of its own core, so that no memory order explains it.
    Overlook {
        /// The read, a load or a read-modify-write.
        load: EventId,
        /// The store, before it on its core and newer than its source.
        store: EventId,
    },
    /// A shortest cycle of forced pairs, so that no memory order explains it, with the labels that
    /// show that none is shorter.
    Cycle(Certificate),
}
