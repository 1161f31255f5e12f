//! The events that a program's operations make, which recordings are of a program, and a program of each.
#![tactic(auto)]

mod made;
mod naming;
mod numbered;
mod operations;
mod program_of;

pub use made::event_of;
pub use naming::named_program;
pub use numbered::is_numbered;
pub use program_of::is_program_of;
