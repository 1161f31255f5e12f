//! What gives and what takes bytes: devices, texts in memory, and inputs by their names.
#![tactic(auto)]

mod bytes;
mod device;
mod disk;
mod host;
mod memory;
mod noted;
mod progress;
mod whole;

pub use bytes::{Failed, Sink, Source};
pub use device::Device;
pub use disk::{Disk, Opened};
pub use host::{Host, InputError, Tally};
pub use memory::{MemorySink, MemorySource};
pub use noted::Noted;
pub use progress::{BETWEEN_LINES, FIRST_LINE, Line, Progress, Visibility, line_due};
pub use whole::{ReadError, read_all, read_more, write_all};
