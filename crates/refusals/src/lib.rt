//! The refusals: the name of each, what the number in its line counts, and what it means.
#![tactic(auto)]

mod cycle_words;
mod event_labels;
mod help;
mod lines;
mod merges;
mod observations;
mod options;
mod programs;
mod recordings;
mod refusal;
mod scripts;
mod table;

pub use cycle_words::{E1, E2, E3};
pub use event_labels::{A1, A2};
pub use help::{meaning, meanings};
pub use lines::{line_of_name, refusal_line, refused_at};
pub use merges::{M1, M2, M3, M4, M5, M6, M7, M8};
pub use observations::{O1, O2};
pub use options::{K1, K2, K3, K4, K5, K6, K7, K8, K9, K10, K11, K12, K13, K14, K15, K16};
pub use programs::{L1, L2, L3, L4, L5, L6, L7, L8};
pub use recordings::{N1, N2, N3, N4, N5, N6, N7, N8, N9};
pub use refusal::{Group, Refusal};
pub use scripts::{S1, S2, S3, S4};
pub use table::{KINDS, Kind, kind_group, refusal_named};
