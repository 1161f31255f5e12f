//! The texts of outcomes, and what logs and conditions say of them.
#![tactic(auto)]

mod head;
mod items;
mod line;
mod log;
mod pieces;
mod report;
mod saying;
mod seen;
mod text;
mod words;

pub use line::items_of;
pub use log::log_says;
pub use report::{Report, UnseenForm, report_on};
pub use saying::condition_of;
pub use seen::SeenLine;
pub use text::outcomes_text;
