//! The named inputs of a command: their bytes, the program or the recording that they are, or why the command fails.
#![tactic(auto)]

mod causes;
mod command_error;
mod command_stop;
mod named;
mod quoting;
mod reading;
mod refusal;

pub use command_error::CommandError;
pub use command_stop::{CommandStop, PrintedRefusal};
pub use named::{labels_at, program_at, recording_at, values_at};
pub use quoting::quote_line;
pub use reading::{open_input, text_at};
pub use refusal::{line_refusal, step_refusal_name};
