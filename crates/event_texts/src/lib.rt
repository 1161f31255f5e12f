//! What an event did, in a text.
#![tactic(auto)]

mod address_name;
mod events;
mod labels;
mod lines;
mod names;

pub use address_name::AddressName;
pub use events::put_event;
pub use labels::{LabelError, Labels, MAX_LABEL_LEN, labels_in};
pub use lines::{event_of, put_indent, put_line};
pub use names::Names;
