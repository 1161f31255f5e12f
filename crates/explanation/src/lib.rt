//! Orders, overlooks and cycles in words, an event a line.
#![tactic(auto)]

mod cycle;
mod diy;
mod memory_order;
mod named;
mod overlook;
mod placed;
mod words;

pub use diy::address_or_zero;
pub use words::explanation_text;
