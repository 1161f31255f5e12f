//! What is seen of a run.

ghost use Rattle.std.specs.Prelude.{◌≡◌, IfOk};
ghost use Rattle.histograms.specs.Seen.{IsSeen, is_violation};

use common::OutOfMemory;
use machine::Machine;
use outcomes::{Outcome, outcome_of};
use std::alloc::Global;
use trials::{Judged, judged_end};
use verdicts::Verdict;

/// What is seen of a run that is complete.
#[derive(Drop)]
pub struct Seen {
    /// What it comes to.
    pub outcome: Outcome,
    /// Whether TSO has no order for its recording.
    pub violation: bool,
}

/// Whether a verdict is a violation.
fn is_violation(verdict: &Verdict) -> bool
    ensures { result ≡ is_violation verdict.now }
{
    match verdict {
        Verdict::Ordered(_) => false,
        Verdict::Overlook { .. } | Verdict::Cycle(_) => true,
    }
}

/// What is seen of a run that ends in this machine; none exactly where it is not complete. Fails only if out of memory.
pub(crate) fn seen_of(alloc: Global, machine: Machine) -> Result<Option<Seen>, OutOfMemory>
    ensures { IfOk result (IsSeen machine) }
{
    match judged_end(alloc, machine)? {
        Some(Judged { recording, verdict }) => {
            let outcome = outcome_of(alloc, &recording)?;
            Ok(Some(Seen {
                outcome,
                violation: is_violation(&verdict),
            }))
        }
        None => Ok(None),
    }
}
