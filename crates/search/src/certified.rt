//! Shortest cycles with their certificates.

ghost use Rattle.std.specs.Prelude.{◌≤◌, ℕ, Option, length, IfOk, IfSome, MatchOption};
ghost use Rattle.common.specs.declared.limits.TheConstants.{MAX_WORKERS};
ghost use Rattle.std.specs.Arc.{arc_value};
ghost use Rattle.relations.specs.Relation.{Related};
ghost use Rattle.relations.specs.Cycle.{IsLeastCycle, AreExactRows, IsAcyclic};
ghost use Rattle.labels.specs.Certified.{Certifies, lists_of};
ghost use Rattle.search.specs.SourceRow.{AreLeastRows};

use crate::alone::{jobs, rows_alone};
use crate::collect::run_jobs;
use crate::label_row::LabelRow;
use crate::least::least_cycle;
use crate::lists::{into_lists, least_length};
use best::Best;
use common::{Gate, OutOfMemory};
use labels::Certificate;
use relations::Relation;
use std::alloc::Global;
use std::sync::{Arc, Wait};
use std::thread::Threads;

/// The first in dictionary order of the shortest cycles, from the rows of all events that are cut
/// at its length; none where there is no cycle.
fn certificate_of(
    alloc: Global,
    relation: &Relation,
    rows: Vec<LabelRow>,
) -> Result<Option<Certificate>, OutOfMemory>
    requires { (cap : Option ℕ) × AreLeastRows relation.now cap rows.items }
    ensures least { IfOk result (λ answer. MatchOption answer (IsAcyclic (Related relation.now))
        (λ c. IsLeastCycle (Related relation.now) c.cycle.items)) }
    ensures rows { IfOk result (λ answer. IfSome answer (λ c. AreExactRows (Related relation.now)
        (length relation.now) (length c.cycle.items) (lists_of c.rows.items))) }
    ensures certified { IfOk result (λ answer. IfSome answer (λ c. Certifies relation.now c)) }
{
    let Some(size) = least_length(&rows) else {
        return Ok(None);
    };
    let lists = into_lists(alloc, rows)?;
    let cycle = least_cycle(alloc, relation, &lists, size)?;
    Ok(Some(Certificate { cycle, rows: lists }))
}

/// The rows of all events, cut at the length of the shortest cycles, that workers make as in
/// `run_jobs`.
fn rows_by<R: Threads + Wait + Sync, G: Gate>(
    rt: &R,
    alloc: Global,
    relation: &Arc<Relation>,
    workers: usize,
    gate: &G,
) -> Result<Vec<LabelRow>, OutOfMemory>
    requires { (1 ≤ workers) × (workers ≤ MAX_WORKERS) }
    ensures { IfOk result (λ rows. (cap : Option ℕ)
        × AreLeastRows (arc_value relation.now) cap rows.items) }
{
    let table: &Relation = relation;
    let jobs = jobs(alloc, Arc::try_clone(relation)?)?;
    let (best, mut seat) = Best::open(alloc, table)?;
    run_jobs(rt, alloc, jobs, &best, &mut seat, workers, gate)
}

/// The first in dictionary order of the shortest cycles, with the rows of all events, cut at its
/// length; none where there is no cycle.
pub fn shortest_cycle(
    alloc: Global,
    relation: &Arc<Relation>,
) -> Result<Option<Certificate>, OutOfMemory>
    ensures least { IfOk result (λ answer. MatchOption answer
        (IsAcyclic (Related (arc_value relation.now)))
        (λ c. IsLeastCycle (Related (arc_value relation.now)) c.cycle.items)) }
    ensures rows { IfOk result (λ answer. IfSome answer (λ c. AreExactRows
        (Related (arc_value relation.now)) (length (arc_value relation.now)) (length c.cycle.items)
        (lists_of c.rows.items))) }
    ensures certified { IfOk result (λ answer. IfSome answer (λ c.
        Certifies (arc_value relation.now) c)) }
{
    let rows = rows_alone(alloc, relation)?;
    certificate_of(alloc, relation, rows)
}

/// What `shortest_cycle` answers, from rows that 1 to `MAX_WORKERS` workers make, as in `run_jobs`.
pub fn shortest_cycle_by<R: Threads + Wait + Sync, G: Gate>(
    rt: &R,
    alloc: Global,
    relation: &Arc<Relation>,
    workers: usize,
    gate: &G,
) -> Result<Option<Certificate>, OutOfMemory>
    requires workers { (1 ≤ workers) × (workers ≤ MAX_WORKERS) }
    ensures least { IfOk result (λ answer. MatchOption answer
        (IsAcyclic (Related (arc_value relation.now)))
        (λ c. IsLeastCycle (Related (arc_value relation.now)) c.cycle.items)) }
    ensures rows { IfOk result (λ answer. IfSome answer (λ c. AreExactRows
        (Related (arc_value relation.now)) (length (arc_value relation.now)) (length c.cycle.items)
        (lists_of c.rows.items))) }
    ensures certified { IfOk result (λ answer. IfSome answer (λ c.
        Certifies (arc_value relation.now) c)) }
{
    let rows = rows_by(rt, alloc, relation, workers, gate)?;
    certificate_of(alloc, relation, rows)
}
