//! Recordings, their texts, and recordings that are read of texts.
#![tactic(auto)]

mod items;
mod object;
mod plain;
mod reading;
mod single;
mod spaced;
mod text;
mod values;
mod versions;

pub use object::{source_value, with_member, with_text_member};
pub use reading::{read_recording, read_recording_of};
pub use recording::{Event, RecError, Recording, RecordingSize};
pub use single::{keys_of, number_at, source_at, value_at, value_in};
pub use text::write_recording;
