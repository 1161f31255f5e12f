//! What standard error says of a command: why it failed, and what a person is told of what it printed.
#![tactic(auto)]

mod failure;
mod meanings;
mod unfinished;

pub use failure::{Audience, error_text};
pub use meanings::meaning_of;
pub use unfinished::advice;
