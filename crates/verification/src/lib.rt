//! Whether a text is that of a verdict that holds of a recording.
#![tactic(auto)]

mod answered;
mod cycle_lines;
mod fault;
mod labelled;
mod law;
mod numbers;
mod printed;
mod reading;
mod row_lines;
mod text;
mod text_check;
mod unlabelled;

pub use answered::{check_answer, check_answer_alone, long_check_answer};
pub use law::{every_answer_holds, every_verdict_holds, fault_is_one, proof_lines_hold};
pub use text::{check_text, check_text_alone};
pub use text_check::TextCheck;
pub use unlabelled::check_long_text;
