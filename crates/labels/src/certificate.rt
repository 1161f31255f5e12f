//! Certificates.

use common::EventId;

/// A cycle of forced pairs, and a row of labels for each event. Its type keeps none of this; `check` says
/// whether it holds.
#[derive(Drop)]
pub struct Certificate {
    /// The events of the cycle.
    pub cycle: Vec<EventId>,
    /// For each event a label of each event: no more steps than lead from the one to the other.
    pub rows: Vec<Vec<u16>>,
}
