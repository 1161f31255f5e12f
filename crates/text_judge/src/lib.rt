//! The answer to the bytes of a recording in memory.
#![tactic(auto)]

mod answering;

pub use answering::{
    answer_alone, answer_by, long_answer, long_answer_of, read_or_refuse, read_or_refuse_of,
};
