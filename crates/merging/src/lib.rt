//! The command `merge`: the counts of texts, read and added up, or why they are not.
#![tactic(auto)]

mod counts_answer;
mod files;
mod refusal_lines;

pub use files::merge_command;
