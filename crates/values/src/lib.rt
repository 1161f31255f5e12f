//! The values of a run alone, without the sources of its reads and without write lists.
#![tactic(auto)]

mod finals;
mod numbers;
mod refusal;
mod rules;
mod values;

pub use finals::final_value;
pub use recording::{Event, RecError};
pub use values::Values;
