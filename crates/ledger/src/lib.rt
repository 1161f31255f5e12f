//! What is found of recordings and of values, its codes, and ledgers of codes: their texts, read and added up to one.
#![tactic(auto)]

mod code;
mod counted;
mod cycles;
mod finding;
mod fitting;
mod header;
mod joined;
mod kinds;
mod law;
mod ledger;
mod lines;
mod merge_error;
mod merged;
mod sections;
mod survey_ledger;
mod text;
mod text_kind;
mod words;

pub use code::{CYCLE, IMPOSSIBLE, LOAD, LONG_CYCLE, ORDERED, OVERLOOK, REFUSED, UNFINISHED};
pub use counted::{campaign_text, survey_text, values_survey_text};
pub use finding::Finding;
pub use joined::{Gaps, Joined, join};
pub use kinds::is_violation;
pub use law::ledgers_add_up;
pub use ledger::Ledger;
pub use merge_error::{MergeError, MergeRefusal, Seam};
pub use merged::{Merged, merge};
pub use sections::kind_of;
pub use survey_ledger::{KindCount, SurveyLedger};
pub use text_kind::Kind;
