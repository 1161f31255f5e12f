//! What the words of a command line ask for, as `clap` reads them.
#![tactic(auto)]

mod build;
mod counts;
mod entries;
mod flags;
mod limited;
mod named;
mod names;
mod options;
mod pages;
mod shards;
mod table;
mod values;
pub mod words;

pub use options::{
    CompleteOptions, DrawOptions, ExplainOptions, FileOptions, JudgeOptions, LiveOptions,
    MakeOptions, MergeOptions, Misfit, OptionRefusal, OptionStop, Options, OutcomesOptions,
    Question, RunOptions, SurveyOptions, TrialsOptions, VerifyOptions,
};
