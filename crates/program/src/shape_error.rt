//! Why sizes are refused.

/// Why the sizes of random programs or of their trials are refused. Where several apply, the first in
/// this order is answered.
#[derive(Clone, Copy, Drop, PartialEq, Eq)]
pub enum ShapeError {
    /// The number of cores is not from 1 to `MAX_CORES`.
    K1,
    /// The number of operations of a core is not from 1 to `MAX_EVENTS`.
    K2,
    /// The number of addresses is not from 1 to `MAX_ADDRESSES`.
    K3,
    /// The cores have more than `MAX_EVENTS` operations together.
    K4,
    /// The number of trials is not from 1 to `MAX_TRIALS`.
    K5,
    /// The number of attempts of a run is not from 1 to `MAX_STEPS`.
    K6,
    /// The capacity of a store buffer is not from 1 to `MAX_CAPACITY`.
    K7,
}
