//! Jobs of a relation, and their rows on the calling thread.

ghost use Rattle.std.specs.Prelude.{ℕ, Option, IfOk};
ghost use Rattle.std.specs.Arc.{arc_value};
ghost use Rattle.relations.specs.Relation.{Table};
ghost use Rattle.search.specs.SourceRow.{AreJobsOf, AreShared, AreLeastRows};

use crate::collect::{cut_by, relation_of};
use crate::job::SourceJob;
use crate::label_row::LabelRow;
use crate::slots::fill_rows;
use best::Best;
use common::{EventId, OpenGate, OutOfMemory};
use relations::Relation;
use std::alloc::Global;
use std::sync::Arc;

/// A job for each event of a relation.
pub fn jobs(alloc: Global, relation: Arc<Relation>) -> Result<Vec<SourceJob>, OutOfMemory>
    ensures one_each { IfOk result (λ jobs. AreJobsOf (arc_value relation) jobs.items) }
    ensures shared { IfOk result (λ jobs. AreShared (arc_value relation) jobs.items) }
{
    jobs_of(alloc, &relation)
}

/// A job for each event of a relation that others share.
fn jobs_of(alloc: Global, relation: &Arc<Relation>) -> Result<Vec<SourceJob>, OutOfMemory>
    ensures one_each { IfOk result (λ jobs. AreJobsOf (arc_value relation.now) jobs.items) }
    ensures shared { IfOk result (λ jobs. AreShared (arc_value relation.now) jobs.items) }
{
    let table: &Relation = relation;
    table.sound();
    let mut jobs = Vec::with_capacity(alloc, table.len())?;
    for source in 0..table.len() {
        let job = SourceJob::new(relation, source as EventId)?;
        jobs.push(job)?;
    }
    Ok(jobs)
}

/// The rows of all events of a relation, as `run_alone` gives them.
pub(crate) fn rows_alone(
    alloc: Global,
    relation: &Arc<Relation>,
) -> Result<Vec<LabelRow>, OutOfMemory>
    ensures { IfOk result (λ rows. (cap : Option ℕ) × AreLeastRows (arc_value relation.now) cap rows.items) }
{
    let table: &Relation = relation;
    let (best, mut seat) = Best::open(alloc, table)?;
    let rows = fill_rows(
        alloc,
        relation,
        Vec::new(alloc),
        &best,
        &mut seat,
        &OpenGate,
    )?;
    Ok(cut_by(table, rows, &best, &mut seat))
}

/// The rows of jobs that share one relation and name each of its events, in any order: one for
/// each event, by event, all cut at the length of the shortest cycles, or without a cycle at the
/// number of events.
pub fn run_alone(alloc: Global, jobs: Vec<SourceJob>) -> Result<Vec<LabelRow>, OutOfMemory>
    ensures { IfOk result (λ rows. (t : Table) → AreShared t jobs.items
        → (cap : Option ℕ) × AreLeastRows t cap rows.items) }
{
    if jobs.is_empty() {
        return Ok(Vec::new(alloc));
    }
    // Each job holds the relation, so the first knows all that the rows need.
    let relation = relation_of(&jobs)?;
    Ok(rows_alone(alloc, &relation)?)
}
