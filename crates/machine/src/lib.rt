//! The machine: cores with store buffers and caches over one memory.
#![tactic(auto)]

mod blank;
mod blocked;
mod bounded;
mod construction;
mod fault;
mod law;
mod machine;
mod record;
mod run;
mod script;
mod script_line;
mod script_refusal;
mod script_writing;
mod step;
mod table;
mod transactions;

pub use blocked::Blocked;
pub use law::{every_run_is_tso, every_state_is_orderly};
pub use machine::{Machine, Unfinished};
pub use program::Fault;
pub use script::parse_steps;
pub use script_refusal::{StepRefusal, StepsError};
pub use script_writing::steps_text;
pub use step::Step;
