//! Replay: a program and steps that make a recording again, from a memory order of it.
#![tactic(auto)]

mod law;
mod replaying;
mod steps;
mod stores;

pub use law::every_order_is_replayed;
pub use replaying::Replay;
pub use steps::replay_steps;
pub use stores::most_stores;
