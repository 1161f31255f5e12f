//! The answer to a recording of any length, in nearly linear time, and its text.
#![tactic(auto)]

mod answer;
mod checking;
mod cut;
mod first;
mod linking;
mod newest;
mod open;
mod pairs;
mod placed_list;
mod queue;
mod sorting;
mod text;
mod waiting;
mod walking;

pub use answer::{Judged, LongAnswer, judge_long, without_labels};
pub use checking::is_tso_order;
pub use first::{FirstOrder, first_order};
pub use sorting::Unsorted;
pub use text::{long_outcome, long_text, put_cycle};
