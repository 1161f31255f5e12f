//! Verdicts on recordings, and what is printed of them and of refusals.
#![tactic(auto)]

mod cycle;
mod outcome;
mod printed;
mod refusal;
mod text;
mod verdict;

pub use cycle::{put_pairs, put_reason, put_rows};
pub use outcome::Outcome;
pub use printed::{Answer, outcome_of, verdict_answer};
pub use refusal::recording_line;
pub use text::{put_order, put_overlook, verdict_text};
pub use verdict::Verdict;
