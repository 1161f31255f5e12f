//! The first line of a text of counts: the command that prints it.
#![tactic(auto)]

mod fault;
mod header;

pub use fault::{fault_name, fault_named};
pub use header::{Counted, Header, Setup, count_name, put_header};
