//! Jobs split among workers.

ghost use Rattle.std.specs.Prelude.{◌≡◌, ◌≤◌, All, IfOk};
ghost use Rattle.relations.specs.Relation.{Table};
ghost use Rattle.best.specs.declared.seat.Best.{Best};
ghost use Rattle.search.specs.Bound.{IsSeatFor, lengths_of};
ghost use Rattle.search.specs.WorkerJobs.{AreJobsFor};

use crate::job::SourceJob;
use crate::worker_jobs::WorkerJobs;
use best::BestSeat;
use common::OutOfMemory;
use std::alloc::Global;

/// A worker beside the first gets at most one job in this many: a thread that shares few jobs evenly is
/// waited for at their end.
const PART: usize = 8;

/// This many jobs pay for one more thread.
const PAYS: usize = 512;

/// Adds the jobs of a worker with a seat of its own: its share of the last ones; the others stay.
fn add_worker(
    seat: &mut BestSeat,
    worker: usize,
    share: usize,
    jobs: &mut Vec<SourceJob>,
    jobs_of_workers: &mut Vec<WorkerJobs>,
) -> Result<(), OutOfMemory>
    ensures kept { lengths_of seat.new ≡ lengths_of seat.old }
    ensures jobs { (b : Best) (t : Table) → IsSeatFor b t seat.old → All (λ job. job.relation ≡ t) jobs.old.items
        → All (AreJobsFor b t) jobs_of_workers.old.items
        → IsSeatFor b t seat.new × All (λ job. job.relation ≡ t) jobs.new.items
        × IfOk result (λ _. All (AreJobsFor b t) jobs_of_workers.new.items) }
{
    let other = seat.split()?;
    let mine = jobs.split_off(jobs.len() - share.min(jobs.len()))?;
    jobs_of_workers.push(WorkerJobs {
        worker,
        seat: other,
        jobs: mine,
    })?;
    Ok(())
}

/// The jobs of each worker from 1 on, but for more than the jobs pay for: its part of the jobs, one
/// at least while there are any; the other jobs stay.
pub(crate) fn split_jobs(
    alloc: Global,
    seat: &mut BestSeat,
    workers: usize,
    jobs: &mut Vec<SourceJob>,
) -> Result<Vec<WorkerJobs>, OutOfMemory>
    requires workers { 1 ≤ workers }
    ensures kept { lengths_of seat.new ≡ lengths_of seat.old }
    ensures jobs { (b : Best) (t : Table) → IsSeatFor b t seat.old → All (λ job. job.relation ≡ t) jobs.old.items
        → IsSeatFor b t seat.new × All (λ job. job.relation ≡ t) jobs.new.items }
    ensures jobs_of_workers { IfOk result (λ jobs_of_workers. (b : Best) (t : Table) → IsSeatFor b t seat.old
        → All (λ job. job.relation ≡ t) jobs.old.items → All (AreJobsFor b t) jobs_of_workers.items) }
{
    let mut jobs_of_workers = Vec::with_capacity(alloc, workers)?;
    let paid = jobs.len() / PAYS + 2;
    for worker in 1..workers.min(paid) {
        let share = (jobs.len() / PART.max(workers)).max(1);
        add_worker(seat, worker, share, jobs, &mut jobs_of_workers)?;
    }
    Ok(jobs_of_workers)
}
