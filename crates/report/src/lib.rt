//! The answer to a recording, from a source to a sink.
#![tactic(auto)]

mod answering;
mod error;

pub use answering::answer;
pub use devices::{Device, Failed, MemorySink, MemorySource, Sink, Source};
pub use error::ReportError;
pub use ledger::{campaign_text, survey_text};
pub use text_judge::{
    answer_alone, long_answer, long_answer_of, read_or_refuse, read_or_refuse_of,
};
pub use verdicts::{Answer, Outcome, outcome_of, verdict_answer, verdict_text};
