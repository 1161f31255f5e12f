//! The place of a core in its program.
#![tactic(auto)]

mod unit;

pub use unit::CoreUnit;
