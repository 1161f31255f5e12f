//! Random trials of the machine, by workers that share a desk.
#![tactic(auto)]

mod campaign_run;
mod desk;
mod desk_table;
mod divisor;
mod filed;
mod judging;
mod law;
mod one_trial;
mod running;
mod schedule;
mod seat;
mod workers;

pub use campaign_run::{CampaignError, run_campaign};
pub use desk_table::{DeskRule, DeskTable, SeatKnowledge};
pub use filed::Filed;
pub use judging::{Judged, judged_end, run_and_judge};
pub use ledger::{CYCLE, LOAD, Ledger, ORDERED, OVERLOOK, UNFINISHED};
pub use one_trial::{reproduce, run_trial, trial};
pub use program::Campaign;
pub use running::run_seeded;
pub use seat::{Desk, DeskSeat, Look};
pub use workers::try_one;
