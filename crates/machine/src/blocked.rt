//! Why a step is blocked.

/// The first guard of a step that is false.
#[derive(Clone, Copy, Debug, PartialEq, Eq)]
pub enum Blocked {
    /// The core has executed all its operations.
    B1,
    /// The core's buffer is full.
    B2,
    /// The core's buffer isn't empty.
    B3,
    /// The core loads, gets no store from its buffer, and its line is in I.
    B4,
    /// The core writes, or compares and swaps, and its line is neither in M nor in E.
    B5,
    /// The core's buffer is empty.
    B6,
    /// The core's line is in a state that the transaction isn't allowed in: for GetS another than
    /// I, for GetM M or E, for Put I.
    B7,
    /// There is no such core or address. This guard comes before all others.
    B8,
}
