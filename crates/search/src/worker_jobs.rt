//! The jobs of workers, and their rows.

use crate::job::SourceJob;
use crate::label_row::LabelRow;
use best::BestSeat;
use std::snapshot::Snapshot;
use std::thread::Promise;

/// A worker's number, its seat at the bound, and its jobs.
#[derive(Drop)]
pub(crate) struct WorkerJobs {
    pub(crate) worker: usize,
    pub(crate) seat: BestSeat,
    pub(crate) jobs: Vec<SourceJob>,
}

/// The seat and the rows that were made: all of them, unless memory ran out.
#[derive(Drop)]
pub(crate) struct WorkerRows {
    pub(crate) seat: BestSeat,
    pub(crate) rows: Vec<LabelRow>,
}

/// What the join of a worker promises: the rows are of its jobs' relation.
#[derive(Drop)]
pub(crate) struct RowsPromise(pub(crate) Snapshot<WorkerJobs>);

impl Promise<WorkerRows> for RowsPromise {
    ghost use Rattle.search.specs.WorkerJobs.{AreRowsOf};

    ghost kept_by = { λ p r. AreRowsOf p.0.value r };
}
