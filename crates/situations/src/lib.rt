//! Situations of a machine with store buffers: those that a search has seen, and which stores wait.
#![tactic(auto)]

mod block;
mod codes;
mod memory;
mod packed;
mod packed_list;
mod row;
mod rows;
mod set;
mod step;
mod waiting;

pub use memory::value_at;
pub use packed_list::PackedList;
pub use row::Row;
pub use rows::Rows;
pub use set::ListSet;
pub use step::Step;
pub use waiting::{Waiting, between, forwarded_value, none_waits, oldest, youngest};
