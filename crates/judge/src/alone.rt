//! The judge on the calling thread.

ghost use Rattle.std.specs.Prelude.{◌≤◌, ℕ, List, IfErr, IfOk};
ghost use Rattle.common.specs.declared.limits.TheConstants.{MAX_EVENTS};
ghost use Rattle.recording.specs.Execution.{event_count};
ghost use Rattle.std.specs.Arc.{arc_value};
ghost use Rattle.relations.specs.Cycle.{IsCycle};
ghost use Rattle.relations.specs.Relation.{Related};
ghost use Rattle.verdicts.specs.Judgement.{IsVerdict};
ghost use Rattle.verdicts.specs.Verified.{Verifies};
ghost use Rattle.judge.specs.LeastCertificate.{IsCyclicTable, IsLeastCertificate};

use common::OutOfMemory;
use labels::Certificate;
use long::{FirstOrder, first_order};
use recording::Recording;
use relations::{Relation, forced_is_exact, ordered_is_acyclic, relation_is_forced};
use search::shortest_cycle;
use std::alloc::Global;
use std::sync::Arc;
use verdicts::Verdict;

/// The verdict on a recording that has an overlook or a memory order; else all its forced pairs, which have a cycle.
/// Fails only if out of memory.
pub(crate) fn verdict_or_cyclic(
    alloc: Global,
    recording: &Recording,
) -> Result<Result<Verdict, Relation>, OutOfMemory>
    requires { event_count recording.now ≤ MAX_EVENTS }
    ensures verdict { IfOk result (λ found. IfOk found (IsVerdict recording.now)) }
    ensures verified { IfOk result (λ found. IfOk found (Verifies recording.now)) }
    ensures cyclic { IfOk result (λ found. IfErr found (IsCyclicTable recording.now)) }
{
    match first_order(alloc, recording)? {
        FirstOrder::Order(order) => Ok(Ok(Verdict::Ordered(order))),
        FirstOrder::Overlook(load, store) => Ok(Ok(Verdict::Overlook { load, store })),
        FirstOrder::Cyclic(left) => {
            drop(left);
            Ok(Err(Relation::of(alloc, recording)?))
        }
    }
}

/// The certificate of a relation that has a cycle.
fn least_certificate(alloc: Global, relation: &Arc<Relation>) -> Result<Certificate, OutOfMemory>
    requires { (c : List ℕ) × IsCycle (Related (arc_value relation.now)) c }
    ensures { IfOk result (IsLeastCertificate (arc_value relation.now)) }
{
    match shortest_cycle(alloc, relation)? {
        Some(certificate) => Ok(certificate),
        None => unreachable!(),
    }
}

/// The verdict on a recording of at most `MAX_EVENTS` events: its least overlook if there is one, else the first in
/// dictionary order of its shortest cycles of forced pairs if there is one, else its first memory order of TSO
/// in dictionary order (Nagarajan, Sorin, Hill and Wood, A Primer on Memory Consistency and Cache
/// Coherence, second edition, chapter 4). It does not block. Fails only if out of memory.
pub fn judge_alone(alloc: Global, recording: &Recording) -> Result<Verdict, OutOfMemory>
    requires { event_count recording.now ≤ MAX_EVENTS }
    ensures verdict { IfOk result (IsVerdict recording.now) }
    ensures verified { IfOk result (Verifies recording.now) }
{
    recording.sound();
    forced_is_exact();
    ordered_is_acyclic();
    relation_is_forced();
    match verdict_or_cyclic(alloc, recording)? {
        Ok(verdict) => Ok(verdict),
        Err(relation) => {
            let relation = Arc::new(alloc, relation)?;
            Ok(Verdict::Cycle(least_certificate(alloc, &relation)?))
        }
    }
}
