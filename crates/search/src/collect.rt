//! Jobs done by workers, and their rows collected.

ghost use Rattle.std.specs.Prelude.{◌≡◌, ◌≤◌, ◌<◌, ℕ, Option, All, IfOk, length};
ghost use Rattle.std.specs.Arc.{arc_value};
ghost use Rattle.common.specs.declared.limits.TheConstants.{MAX_WORKERS};
ghost use Rattle.relations.specs.Relation.{Table, Related};
ghost use Rattle.best.specs.Seats.{IsBestSeatOf, known_of};
ghost use Rattle.search.specs.Cycles.{IsLeastLength};
ghost use Rattle.search.specs.SourceRow.{AreShared, AreLeastRows};
ghost use Rattle.search.specs.Bound.{IsSeatFor, Keeps, KnowsShortest, lengths_of};
ghost use Rattle.search.specs.WorkerJobs.{AreRowsFor};
ghost use Rattle.search.specs.Slots.{AreSlots, AreSlotsFilled};

use crate::job::SourceJob;
use crate::label_row::LabelRow;
use crate::slots::{empty_slots, fill_rows, put_rows};
use crate::splitting::split_jobs;
use crate::work::run_workers;
use crate::worker_jobs::{WorkerJobs, WorkerRows};
use best::{Best, BestSeat};
use common::{Gate, OutOfMemory};
use relations::Relation;
use std::alloc::Global;
use std::sync::{Arc, Wait};
use std::thread::Threads;

/// Cuts the rows of all events at what the bound has in the end.
pub(crate) fn cut_by(
    relation: &Relation,
    rows: Vec<LabelRow>,
    best: &Best,
    seat: &mut BestSeat,
) -> Vec<LabelRow>
    requires seat { IsSeatFor best.now relation.now seat.old }
    requires rows { AreSlotsFilled relation.now (lengths_of seat.old) (length relation.now) rows.items }
    ensures seat { IsSeatFor best.now relation.now seat.new }
    ensures kept { Keeps (lengths_of seat.old) (lengths_of seat.new) }
    ensures rows { (cap : Option ℕ) × AreLeastRows relation.now cap result.items }
    ensures knows { KnowsShortest (Related relation.now) (lengths_of seat.new) }
{
    relation.sound();
    let mut rows = rows;
    let cap = best.read(seat);
    for row in rows.iter_mut() {
        row.cut_to(cap);
        row.sound();
    }
    rows
}

/// The rows of the workers that the jobs are split among: the calling thread is worker 0.
fn rows_by_workers<R: Threads + Wait + Sync, G: Gate>(
    rt: &R,
    alloc: Global,
    relation: &Relation,
    jobs: Vec<SourceJob>,
    best: &Best,
    seat: &mut BestSeat,
    workers: usize,
    gate: &G,
) -> Result<Vec<WorkerRows>, OutOfMemory>
    requires seat { IsSeatFor best.now relation.now seat.old }
    requires jobs { All (λ job. job.relation ≡ relation.now) jobs.items }
    requires workers { 1 ≤ workers }
    ensures seat { IsSeatFor best.now relation.now seat.new }
    ensures kept { lengths_of seat.new ≡ lengths_of seat.old }
    ensures rows_of_workers { IfOk result
        (λ rows_of_workers. All (AreRowsFor best.now relation.now) rows_of_workers.items) }
{
    let mut jobs = jobs;
    let jobs_of_workers = split_jobs(alloc, seat, workers, &mut jobs)?;
    let other = seat.split()?;
    let mine = WorkerJobs {
        worker: 0,
        seat: other,
        jobs,
    };
    run_workers(rt, alloc, mine, jobs_of_workers, best, relation, gate)
}

/// The rows of all events of the relation that the jobs share.
fn collect_rows<R: Threads + Wait + Sync, G: Gate>(
    rt: &R,
    alloc: Global,
    relation: &Arc<Relation>,
    jobs: Vec<SourceJob>,
    best: &Best,
    seat: &mut BestSeat,
    workers: usize,
    gate: &G,
) -> Result<Vec<LabelRow>, OutOfMemory>
    requires seat { IsSeatFor best.now (arc_value relation.now) seat.old }
    requires jobs { All (λ job. job.relation ≡ arc_value relation.now) jobs.items }
    requires workers { 1 ≤ workers }
    ensures seat { IsSeatFor best.now (arc_value relation.now) seat.new }
    ensures kept { Keeps (lengths_of seat.old) (lengths_of seat.new) }
    ensures rows { IfOk result (λ all. (cap : Option ℕ)
        × AreLeastRows (arc_value relation.now) cap all.items) }
    ensures knows { IfOk result (λ _. KnowsShortest (Related (arc_value relation.now))
        (lengths_of seat.new)) }
{
    let table: &Relation = relation;
    let rows_of_workers = rows_by_workers(rt, alloc, table, jobs, best, seat, workers, gate)?;
    let mut slots = empty_slots(alloc, table)?;
    for worker_rows in rows_of_workers {
        let WorkerRows { seat: other, rows } = worker_rows;
        seat.absorb(other);
        put_rows(rows, &mut slots);
    }
    let rows = fill_rows(alloc, relation, slots, best, seat, gate)?;
    Ok(cut_by(table, rows, best, seat))
}

/// A share of the relation of the first job.
pub(crate) fn relation_of(jobs: &Vec<SourceJob>) -> Result<Arc<Relation>, OutOfMemory>
    requires { 0 < length jobs.now.items }
    ensures { IfOk result (λ relation. (t : Table) → All (λ job. job.relation ≡ t) jobs.now.items
        → arc_value relation ≡ t) }
{
    Ok(Arc::try_clone(jobs[0].relation())?)
}

/// The rows of jobs that share the seat's relation and name each of its events, as `run_alone` gives
/// them, made by 1 to `MAX_WORKERS` workers that share the bound: the calling thread is worker 0, and
/// one whose thread does not start is left out. The gate is called round each source, which is tested.
/// Afterwards the seat knows the length of the shortest cycles, if there is a cycle; after an error,
/// where memory ran out, it may know more than before.
pub fn run_jobs<R: Threads + Wait + Sync, G: Gate>(
    rt: &R,
    alloc: Global,
    jobs: Vec<SourceJob>,
    best: &Best,
    seat: &mut BestSeat,
    workers: usize,
    gate: &G,
) -> Result<Vec<LabelRow>, OutOfMemory>
    requires seat { IsBestSeatOf best.now seat.old }
    requires jobs { AreShared (known_of seat.old).relation jobs.items }
    requires workers { (1 ≤ workers) × (workers ≤ MAX_WORKERS) }
    ensures seat { IsSeatFor best.now (known_of seat.old).relation seat.new }
    ensures kept { Keeps (lengths_of seat.old) (lengths_of seat.new) }
    ensures rows { IfOk result (λ rows. (cap : Option ℕ)
        × AreLeastRows (known_of seat.old).relation cap rows.items) }
    ensures knows { IfOk result (λ _. KnowsShortest (Related (known_of seat.old).relation)
        (lengths_of seat.new)) }
{
    if jobs.is_empty() {
        return Ok(Vec::new(alloc));
    }
    let relation = relation_of(&jobs)?;
    collect_rows(rt, alloc, &relation, jobs, best, seat, workers, gate)
}
