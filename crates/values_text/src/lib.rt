//! The texts of values alone, and values that are read of texts.
#![tactic(auto)]

mod items;
mod known;
mod members;
mod reading;
mod shape;
mod writing;

pub use reading::read_values;
pub use values::{RecError, Values};
pub use writing::write_values;
