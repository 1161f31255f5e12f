//! Histograms of a program: how often its runs come to each outcome.
#![tactic(auto)]

mod histogram;
mod law;
mod live_runs;
mod seeded_runs;
mod seen;
mod tally;
mod text;

pub use histogram::Histogram;
pub use live_runs::{LiveRuns, live_histogram};
pub use seeded_runs::{SeededRuns, seeded_histogram};
pub use seen::Seen;
pub use tally::Tally;
pub use text::{Mark, histogram_text};
