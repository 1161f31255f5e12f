//! The texts of litmus programs, with their law, and random programs.
#![tactic(auto)]

mod builder;
mod line;
mod line_refusal;
mod one_text;
mod random;
mod reader;
mod text;
mod write_kind;
mod writing;

pub use common::{
    Addr, CoreId, EventId, Gate, MAX_ADDRESSES, MAX_CAPACITY, MAX_CORES, MAX_EVENTS, MAX_STEPS,
    MAX_TRIALS, MAX_WORKERS, OpenGate,
};
pub use line_refusal::{LineRefusal, LitmusError, line_refusal_name};
pub use one_text::has_one_text;
pub use program::{Name, Op, Program, Shape, ShapeError};
pub use random::generate;
pub use refusals::refusal_line;
pub use text::parse;
pub use writing::print;
