//! Why values put one event before another.

/// Why one event comes before another in whatever completes the values (Nagarajan, Sorin, Hill and Wood, A Primer on
/// Memory Consistency and Cache Coherence, second edition, chapter 4).
#[derive(Clone, Copy, PartialEq, Eq)]
pub enum Cause {
    /// Program order: they are a pair of one core that memory order keeps.
    Po,
    /// Reads-from: the later one can read from the earlier one alone, which is not before it on its core.
    Rf,
    /// Write order: this event can read from the later one alone, and sees the earlier one, another write to the
    /// address.
    Wo(usize),
    /// From-read: the earlier one can read from this write alone, after which the later one writes the address. Where
    /// none is named, it can read the initial value alone, and the later one is any write to the address; or both are
    /// one event, whose core wrote the address before it.
    Fr(Option<usize>),
}

/// One event before another, with the cause.
#[derive(Clone, Copy, PartialEq, Eq)]
pub struct Link {
    /// The earlier event.
    pub first: usize,
    /// The later event.
    pub second: usize,
    /// Why.
    pub cause: Cause,
}
