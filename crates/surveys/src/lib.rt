//! Surveys of many recordings, or of the values of many runs, one a line.
#![tactic(auto)]

mod batch;
mod coded;
mod counting;
mod each;
mod engine;
mod error;
mod filling;
mod judged;
mod kind;
mod law;
mod lines;
mod offered;
mod queue;
mod range;
mod reports;
mod showing;
mod surveying;
mod workers;

pub use coded::codes_of_lines;
pub use each::each_text;
pub use error::SurveyError;
pub use kind::LineKind;
pub use ledger::{Finding, SurveyLedger};
pub use range::{LineRange, LinesOf};
pub use reports::Reports;
pub use showing::line_of;
pub use surveying::survey;
