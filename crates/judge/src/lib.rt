//! The verdict on a recording.
#![tactic(auto)]

mod alone;
mod workers;

pub use alone::judge_alone;
pub use common::{Gate, OpenGate};
pub use verdict_check::verify;
pub use verdicts::Verdict;
pub use workers::{judge, judge_gated};
