//! Programs and recordings from cycles in the words of the tool diy.
#![tactic(auto)]

mod blocks;
mod checking;
mod closing;
mod limits;
mod listing;
mod making;
mod naming;
mod planning;
mod reading;
mod refusal;
mod says;
mod word;

pub use listing::{critical_cycles, cycle_text};
pub use making::{Made, make};
pub use refusal::CycleRefusal;
