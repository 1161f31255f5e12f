//! What commands answer of programs and values: what is printed on standard output, and the outcome.
#![tactic(auto)]

mod circles;
mod completion_answers;
mod made_answers;
mod outcome_answers;
mod parts;
mod why;

pub use completion_answers::completion_answer;
pub use made_answers::{CycleChoice, cycles_answer, made_answer};
pub use outcome_answers::{
    Condition, LogDetails, Reply, condition_answer, log_answer, met_answer, outcomes_answer,
    unfinished_answer,
};
