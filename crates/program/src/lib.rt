//! Litmus programs, how large random ones are, and what the trials of a campaign have in common.
#![tactic(auto)]

mod campaign;
mod fault;
mod lawful;
mod name;
mod naming;
mod op;
mod program;
mod same;
mod shape;
mod shape_error;
mod shard;

pub use campaign::Campaign;
pub use fault::Fault;
pub use lawful::are_below;
pub use name::{Name, name_at};
pub use naming::{address_name, address_names};
pub use op::{Op, Ops};
pub use program::Program;
pub use shape::{Shape, is_outside};
pub use shape_error::ShapeError;
pub use shard::{Part, Shard, shards_have_all_trials};
