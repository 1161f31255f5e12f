//! A first-in-first-out store buffer.
#![tactic(auto)]

mod buffer;
mod entry;

pub use buffer::WriteBuffer;
pub use entry::Entry;
