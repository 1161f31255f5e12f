//! What commands answer of recordings and counts: what is printed on standard output, and the outcome.
#![tactic(auto)]

mod campaigns;
mod long_answers;
mod reduced;
mod rendering;

pub use campaigns::{CountsPlace, survey_answer, trials_answer, values_survey_answer};
pub use reduced::{ViolationForm, append_verdict, cut_answer, line_answer, reduced_answer};
pub use rendering::{Rendering, Telling, long_rendered_answer, picture_form, rendered_answer};
