//! Distances along forced pairs, by breadth-first search over rows of bits, and the least of the
//! shortest cycles.
#![tactic(auto)]

mod alone;
mod certified;
mod collect;
mod cut;
mod job;
mod label_row;
mod least;
mod lists;
mod row;
mod slots;
mod splitting;
mod under;
mod work;
mod worker_jobs;

pub use alone::{jobs, run_alone};
pub use certified::{shortest_cycle, shortest_cycle_by};
pub use collect::run_jobs;
pub use common::{Gate, OpenGate};
pub use job::SourceJob;
pub use label_row::LabelRow;
pub use least::least_cycle;
pub use lists::least_length;
pub use under::row_under;
