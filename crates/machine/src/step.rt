//! Steps of the machine.

use common::{Addr, CoreId};

/// A step of the machine, of cores with store buffers and MOESI caches over one memory (Nagarajan,
/// Sorin, Hill and Wood, A Primer on Memory Consistency and Cache Coherence, second edition,
/// chapter 4 for the steps of cores, chapters 6 to 8 for transactions).
#[derive(Clone, Copy, PartialEq, Eq)]
pub enum Step {
    /// The core executes its next operation in program order.
    Exec(CoreId),
    /// The oldest store in the core's store buffer, with `YoungestFirst` the youngest, leaves it and is
    /// written to the core's line.
    Drain(CoreId),
    /// The core gets a line of the address that it may read.
    GetS(CoreId, Addr),
    /// The core gets the only valid line of the address, which it may write; with `StaleShare` others in
    /// S stay.
    GetM(CoreId, Addr),
    /// The core gives its line of the address up.
    Put(CoreId, Addr),
}

/// The kind of a transaction.
#[derive(Clone, Copy)]
pub enum Transaction {
    GetS,
    GetM,
    Put,
}
