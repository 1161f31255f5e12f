//! The outcomes that TSO allows of a program.
#![tactic(auto)]

mod driving;
mod law;
mod list;
mod moves;
mod observed;
mod opening;
mod ops;
mod outcome;
mod reads;
mod recorded;
mod seen;
mod steps;
mod way;
mod witness;

pub use law::every_outcome_is_reached;
pub use list::outcomes;
pub use moves::Move;
pub use observed::{Observation, explains, is_of_one, shows_all};
pub use opening::beginning;
pub use outcome::Outcome;
pub use reads::{does_read, first_event};
pub use recorded::outcome_of;
pub use seen::search;
pub use situations::value_at;
pub use witness::{Witness, first_recording};
