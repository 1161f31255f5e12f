//! MOESI caches over one memory.
#![tactic(auto)]

mod caches;
mod cell;
mod error;
mod line;
mod word;
mod words;

pub use caches::Caches;
pub use error::CacheError;
pub use line::Line;
