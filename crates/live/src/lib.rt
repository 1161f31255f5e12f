//! A machine with the trace of its steps, and threads that drive it under a lock.
#![tactic(auto)]

mod driving;
mod error;
mod shared_machine;
mod traced;
mod turn;

pub use driving::drive;
pub use error::LiveError;
pub use shared_machine::LiveMachine;
pub use traced::Traced;
