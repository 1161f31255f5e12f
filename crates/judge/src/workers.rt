//! The judge with workers.

ghost use Rattle.std.specs.Prelude.{◌≤◌, ℕ, List, IfOk};
ghost use Rattle.std.specs.Arc.{arc_value};
ghost use Rattle.common.specs.declared.limits.TheConstants.{MAX_EVENTS};
ghost use Rattle.recording.specs.Execution.{event_count};
ghost use Rattle.relations.specs.Cycle.{IsCycle};
ghost use Rattle.relations.specs.Relation.{Related};
ghost use Rattle.verdicts.specs.Judgement.{IsVerdict};
ghost use Rattle.verdicts.specs.Verified.{Verifies};
ghost use Rattle.judge.specs.LeastCertificate.{IsLeastCertificate};

use crate::alone::verdict_or_cyclic;
use common::{Gate, MAX_WORKERS, OpenGate, OutOfMemory};
use labels::Certificate;
use recording::Recording;
use relations::{Relation, forced_is_exact, ordered_is_acyclic, relation_is_forced};
use search::shortest_cycle_by;
use std::alloc::Global;
use std::sync::{Arc, Wait};
use std::thread::Threads;
use verdicts::Verdict;

/// The certificate of a relation that has a cycle, from rows that workers make.
fn least_certificate_by<R: Threads + Wait + Sync, G: Gate>(
    rt: &R,
    alloc: Global,
    relation: &Arc<Relation>,
    workers: usize,
    gate: &G,
) -> Result<Certificate, OutOfMemory>
    requires cyclic { (c : List ℕ) × IsCycle (Related (arc_value relation.now)) c }
    requires workers { (1 ≤ workers) × (workers ≤ MAX_WORKERS) }
    ensures { IfOk result (IsLeastCertificate (arc_value relation.now)) }
{
    match shortest_cycle_by(rt, alloc, relation, workers, gate)? {
        Some(certificate) => Ok(certificate),
        None => unreachable!(),
    }
}

/// The verdict on a recording, as `judge_alone` gives it, from 1 to `MAX_WORKERS` workers. Where
/// there is a cycle and no overlook they make its rows, each between two calls of the gate.
/// Fails only if out of memory.
pub fn judge_gated<R: Threads + Wait + Sync, G: Gate>(
    rt: &R,
    alloc: Global,
    recording: &Recording,
    workers: usize,
    gate: &G,
) -> Result<Verdict, OutOfMemory>
    requires workers { (1 ≤ workers) × (workers ≤ MAX_WORKERS) }
    requires few { event_count recording.now ≤ MAX_EVENTS }
    ensures verdict { IfOk result (IsVerdict recording.now) }
    ensures verified { IfOk result (Verifies recording.now) }
{
    recording.sound();
    forced_is_exact();
    ordered_is_acyclic();
    relation_is_forced();
    match verdict_or_cyclic(alloc, recording)? {
        Ok(verdict) => Ok(verdict),
        Err(relation) => {
            let relation = Arc::new(alloc, relation)?;
            let certificate = least_certificate_by(rt, alloc, &relation, workers, gate)?;
            Ok(Verdict::Cycle(certificate))
        }
    }
}

/// What `judge_gated` answers, with a gate that does nothing.
pub fn judge<R: Threads + Wait + Sync>(
    rt: &R,
    alloc: Global,
    recording: &Recording,
    workers: usize,
) -> Result<Verdict, OutOfMemory>
    requires workers { (1 ≤ workers) × (workers ≤ MAX_WORKERS) }
    requires few { event_count recording.now ≤ MAX_EVENTS }
    ensures verdict { IfOk result (IsVerdict recording.now) }
    ensures verified { IfOk result (Verifies recording.now) }
{
    judge_gated(rt, alloc, recording, workers, &OpenGate)
}
