//! What commands answer of runs of the simulated machine: of one run, of a campaign's trials and of many runs.
#![tactic(auto)]

mod campaigns;
mod many_runs;
mod runs;
mod shown;

pub use campaigns::campaign_answer;
pub use many_runs::{live_histogram_answer, seeded_histogram_answer};
pub use runs::{machine_answer, script_answer, seeded_answer};
pub use shown::shown_answer;
