//! Whether a verdict, whoever gave it, holds of a recording.
#![tactic(auto)]

mod holding;

pub use holding::{verify, verify_by};
