//! Sets of numbers below a length, as rows of bits.
#![tactic(auto)]

mod combine;
mod lanes;
mod levels;
mod numbers;
mod row;
mod rows;
mod word_bits;

pub use lanes::{no_number, one_number};
pub use levels::take_level;
pub use numbers::Numbers;
pub use row::BitRow;
