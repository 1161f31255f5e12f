//! The shared bound of a search for cycles: none, or the length of a cycle.
#![tactic(auto)]

mod best;
mod rule;
mod seat;

pub use rule::{BestRule, BestTable, Known, SeatView};
pub use seat::{Best, BestSeat};
