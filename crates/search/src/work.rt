//! The work of workers, on threads and here.

ghost use Rattle.std.specs.Prelude.{◌≡◌, ◌<◌, All, IfOk, IfSome, length};
ghost use Rattle.relations.specs.Relation.{Table};
ghost use Rattle.best.specs.declared.seat.Best.{Best};
ghost use Rattle.search.specs.Bound.{IsSeatFor, lengths_of};
ghost use Rattle.search.specs.WorkerJobs.{IsRowFor, AreRowsOf, AreJobsFor, AreRowsFor};
ghost use Rattle.search.specs.Started.{IsStarted};

use crate::job::SourceJob;
use crate::label_row::LabelRow;
use crate::under::row_for;
use crate::worker_jobs::{RowsPromise, WorkerJobs, WorkerRows};
use best::{Best, BestSeat};
use common::{Gate, OutOfMemory};
use relations::Relation;
use std::alloc::Global;
use std::snapshot::Snapshot;
use std::sync::Wait;
use std::thread;
use std::thread::{PromisedHandle, Scope, Threads};

/// Makes the row of a job, and puts it to the others unless there is no memory for it.
fn make_row<G: Gate>(
    alloc: Global,
    worker: usize,
    job: SourceJob,
    best: &Best,
    seat: &mut BestSeat,
    rows: &mut Vec<LabelRow>,
    gate: &G,
)
    requires seat { IsSeatFor best.now job.relation seat.old }
    requires rows { All (IsRowFor job.relation (lengths_of seat.old)) rows.old.items }
    ensures seat { IsSeatFor best.now job.relation seat.new }
    ensures rows { All (IsRowFor job.relation (lengths_of seat.new)) rows.new.items }
{
    let source = job.source();
    gate.begin(worker, source as usize);
    let made = row_for(alloc, job.relation(), source, best, seat);
    gate.done(worker, source as usize);
    let Ok(row) = made else {
        return;
    };
    let _kept = rows.push(row);
}

/// The rows of a worker's jobs, but those that there was no memory for.
fn work<G: Gate>(
    alloc: Global,
    worker_jobs: WorkerJobs,
    best: &Best,
    relation: &Relation,
    gate: &G,
) -> WorkerRows
    requires { AreJobsFor best.now relation.now worker_jobs }
    ensures { AreRowsOf worker_jobs result }
{
    let WorkerJobs {
        worker,
        mut seat,
        jobs,
    } = worker_jobs;
    let mut rows = Vec::new(alloc);
    for job in jobs {
        make_row(alloc, worker, job, best, &mut seat, &mut rows, gate);
    }
    WorkerRows { seat, rows }
}

/// Starts a thread for a worker, and keeps it. A worker whose thread does not start is left out.
fn start<'s, E, G: Gate>(
    scope: &Scope<'s, E>,
    alloc: Global,
    worker_jobs: WorkerJobs,
    best: &'s Best,
    relation: &'s Relation,
    gate: &'s G,
    started: &mut Vec<PromisedHandle<WorkerRows, RowsPromise>>,
)
    requires worker_jobs { AreJobsFor best.now relation.now worker_jobs }
    requires started { All (IsStarted best.now relation.now) started.old.items }
    ensures { All (IsStarted best.now relation.now) started.new.items }
{
    let promise = RowsPromise(Snapshot::of(&worker_jobs));
    let work_there = move || -> WorkerRows
        requires { AreJobsFor best.now relation.now worker_jobs }
        ensures { AreRowsOf worker_jobs result }
    { work(alloc, worker_jobs, best, relation, gate) };
    let Ok(child) = scope.spawn_with(promise, work_there) else {
        return;
    };
    let _kept = started.push(child);
}

/// Starts the workers, and keeps what was started.
fn start_all<'s, E, G: Gate>(
    scope: &Scope<'s, E>,
    alloc: Global,
    jobs_of_workers: Vec<WorkerJobs>,
    best: &'s Best,
    relation: &'s Relation,
    gate: &'s G,
    started: Vec<PromisedHandle<WorkerRows, RowsPromise>>,
) -> Vec<PromisedHandle<WorkerRows, RowsPromise>>
    requires jobs_of_workers { All (AreJobsFor best.now relation.now) jobs_of_workers.items }
    requires started { All (IsStarted best.now relation.now) started.items }
    ensures { All (IsStarted best.now relation.now) result.items }
{
    let mut started = started;
    for worker_jobs in jobs_of_workers {
        start(
            scope,
            alloc,
            worker_jobs,
            best,
            relation,
            gate,
            &mut started,
        );
    }
    started
}

/// Adds the rows of the started workers to those of others.
fn join_all<R: Threads>(
    rt: &R,
    started: Vec<PromisedHandle<WorkerRows, RowsPromise>>,
    rows_of_workers: Vec<WorkerRows>,
) -> Vec<WorkerRows>
    ensures { (b : Best) (t : Table) → All (IsStarted b t) started.items
        → All (AreRowsFor b t) rows_of_workers.items → All (AreRowsFor b t) result.items }
{
    let mut rows_of_workers = rows_of_workers;
    for child in started {
        let worker_rows = child.join(rt);
        let _kept = rows_of_workers.push(worker_rows);
    }
    rows_of_workers
}

/// The rows of the workers: this one works here, the others on threads. Those that are not started
/// make none.
pub(crate) fn run_workers<R: Threads + Wait + Sync, G: Gate>(
    rt: &R,
    alloc: Global,
    mine: WorkerJobs,
    jobs_of_workers: Vec<WorkerJobs>,
    best: &Best,
    relation: &Relation,
    gate: &G,
) -> Result<Vec<WorkerRows>, OutOfMemory>
    requires mine { AreJobsFor best.now relation.now mine }
    requires jobs_of_workers { All (AreJobsFor best.now relation.now) jobs_of_workers.items }
    ensures { IfOk result (λ rows_of_workers. All (AreRowsFor best.now relation.now) rows_of_workers.items) }
{
    // All memory for what is collected is taken before the first thread starts.
    let started = Vec::with_capacity(alloc, jobs_of_workers.len())?;
    let rows_of_workers = Vec::with_capacity(alloc, jobs_of_workers.len() + 1)?;
    let rows_of_workers = thread::scope(
        thread::scope_env(),
        rt,
        |scope| -> Vec<WorkerRows>
            requires mine { AreJobsFor best.now relation.now mine }
            requires jobs_of_workers { All (AreJobsFor best.now relation.now) jobs_of_workers.items }
            requires started { All (IsStarted best.now relation.now) started.items }
            requires rows_of_workers { All (AreRowsFor best.now relation.now) rows_of_workers.items }
            ensures { All (AreRowsFor best.entry.now relation.entry.now) result.items }
        {
            let started = start_all(scope, alloc, jobs_of_workers, best, relation, gate, started);
            let mut rows_of_workers = rows_of_workers;
            let worker_rows = work(alloc, mine, best, relation, gate);
            let _kept = rows_of_workers.push(worker_rows);
            join_all(rt, started, rows_of_workers)
        },
    );
    Ok(rows_of_workers)
}
