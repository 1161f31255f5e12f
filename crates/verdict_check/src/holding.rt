//! Whether a verdict holds.

ghost use Rattle.std.specs.Prelude.{◌≤◌, ◌↔◌, IfOk, IsTrue};
ghost use Rattle.common.specs.declared.limits.TheConstants.{MAX_EVENTS};
ghost use Rattle.recording.specs.Execution.{event_count};
ghost use Rattle.recording.specs.Tso.{IsTsoOrder};
ghost use Rattle.relations.specs.Cycle.{IsCertificate};
ghost use Rattle.relations.specs.Forced.{Forced};
ghost use Rattle.labels.specs.Certified.{lists_of};
ghost use Rattle.verdicts.specs.Verified.{Verifies, Means};

use common::{MAX_EVENTS, OutOfMemory};
use labels::{Certificate, check, check_par};
use long::is_tso_order;
use recording::Recording;
use relations::{Relation, forced_is_exact, is_overlook, ordered_is_acyclic, relation_is_forced};
use std::alloc::Global;
use std::thread::Threads;
use verdicts::Verdict;

/// Whether a cycle with labels shows that none is shorter, by threads.
fn is_certified_par<R: Threads + Sync>(
    rt: &R,
    alloc: Global,
    recording: &Recording,
    certificate: &Certificate,
) -> Result<bool, OutOfMemory>
    requires { event_count recording.now ≤ MAX_EVENTS }
    ensures { IfOk result (λ is. IsTrue is ↔ IsCertificate (Forced recording.now) (event_count recording.now)
        certificate.now.cycle.items (lists_of certificate.now.rows.items)) }
{
    let relation = Relation::of(alloc, recording)?;
    relation_is_forced();
    Ok(check_par(rt, &relation, certificate))
}

/// Whether a verdict, whoever gave it, holds of a recording of at most `MAX_EVENTS` events: an order is a memory order
/// of TSO, an overlook is one, a cycle has a certificate. It doesn't ask how the judge would have found it.
/// Fails only if out of memory.
pub fn verify(alloc: Global, recording: &Recording, verdict: &Verdict) -> Result<bool, OutOfMemory>
    requires { event_count recording.now ≤ MAX_EVENTS }
    ensures exact { IfOk result (λ yes. IsTrue yes ↔ Verifies recording.now verdict.now) }
    ensures means { IfOk result (λ yes. IsTrue yes → Means recording.now verdict.now) }
{
    recording.sound();
    forced_is_exact();
    ordered_is_acyclic();
    relation_is_forced();
    match verdict {
        Verdict::Ordered(order) => {
            let yes = is_tso_order(alloc, recording, order)?;
            Ok(yes)
        }
        Verdict::Overlook { load, store } => Ok(is_overlook(recording, *load, *store)),
        Verdict::Cycle(certificate) => {
            let relation = Relation::of(alloc, recording)?;
            Ok(check(&relation, certificate))
        }
    }
}

/// As `verify`, the labels by threads where there is more than one worker. Fails only if out of memory.
pub fn verify_by<R: Threads + Sync>(
    rt: &R,
    alloc: Global,
    recording: &Recording,
    verdict: &Verdict,
    workers: usize,
) -> Result<bool, OutOfMemory>
    requires { event_count recording.now ≤ MAX_EVENTS }
    ensures { IfOk result (λ is. IsTrue is ↔ Verifies recording.now verdict.now) }
{
    match verdict {
        Verdict::Cycle(certificate) if workers > 1 => {
            is_certified_par(rt, alloc, recording, certificate)
        }
        _ => verify(alloc, recording, verdict),
    }
}
