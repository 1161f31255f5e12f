//! Memory orders: their check by the rules of TSO alone, and the least one.
#![tactic(auto)]

mod counts;
mod kept;
mod least;
mod total;
mod tso;
mod values;
mod waiting;
mod written;

pub use least::build;
pub use tso::check;
