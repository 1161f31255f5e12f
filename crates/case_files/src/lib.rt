//! What a file of cases, a verdict or a program asks of command lines, and whether what they printed is that.
#![tactic(auto)]

mod case;
mod checks;
mod rules;

pub use case::Case;
pub use checks::{Check, Printed, Rule, Wanted, checks_of};
