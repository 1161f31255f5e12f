//! Campaigns where a growth may be refused: the usual ledger, or none where memory ran out and then the
//! usual one. With ample memory each gives the usual ledger; `bench/refuse_growths` refuses each growth
//! in turn, and two of them in one run.

ghost use Rattle.std.specs.Prelude.{◌≤◌};
ghost use Rattle.common.specs.declared.limits.TheConstants.{MAX_WORKERS};

use crate::campaigns::campaign;
use common::Gate;
use program::Fault;
use std::alloc::Global;
use std::sync::Wait;
use std::sync::atomic::{AtomicUsize, Ordering};
use std::test::Fail;
use std::thread::Threads;
use trials::{Campaign, CampaignError, Ledger, run_campaign};

/// Counts the trials that were filed.
#[derive(Drop)]
struct Done {
    count: AtomicUsize,
}

impl Gate for Done {
    fn begin(&self, _worker: usize, _trial: usize) {}

    fn done(&self, _worker: usize, _trial: usize) {
        self.count.fetch_add(1, Ordering::SeqCst);
    }
}

/// How many trials were filed where there was no memory for a campaign, as many as the gate saw; none where
/// it gave the usual ledger.
fn filed_without<R: Threads + Wait + Sync>(
    rt: &R,
    alloc: Global,
    campaign: &Campaign,
    workers: usize,
) -> Result<Option<usize>, Fail>
    requires { (1 ≤ workers) × (workers ≤ MAX_WORKERS) }
{
    let gate = Done {
        count: AtomicUsize::new(0),
    };
    match run_campaign(rt, alloc, campaign, workers, &gate) {
        Ok(ledger) if is_usual(&ledger) => Ok(None),
        Ok(_) => Err("another ledger")?,
        Err(CampaignError::OutOfMemory { filed }) => {
            if filed != gate.count.load(Ordering::SeqCst) {
                return Err("another count")?;
            }
            Ok(Some(filed))
        }
    }
}

/// Whether three trials are unfinished.
fn is_usual(ledger: &Ledger) -> bool {
    ledger.total == 3 && ledger.unjudged == 3 && ledger.first.is_none()
}

/// Whether a campaign is run as usual, twice, where at most one growth is refused.
fn is_run<R: Threads + Wait + Sync>(rt: &R, alloc: Global, workers: usize) -> Result<bool, Fail>
    requires { (1 ≤ workers) × (workers ≤ MAX_WORKERS) }
{
    let short = campaign((2, 1, 1), 3, 1, Fault::None)?;
    let first = filed_without(rt, alloc, &short, workers)?;
    let second = filed_without(rt, alloc, &short, workers)?;
    Ok(first.is_none() || second.is_none())
}

#[test]
fn a_ledger_or_no_memory(rt: HostRuntime) -> Result<(), Fail> {
    assert!(rt; is_run(&rt, rt.alloc(), 1)?);
    assert!(rt; is_run(&rt, rt.alloc(), 2)?);
    Ok(())
}

/// Fails where memory ran out, and tells how many trials were filed by then.
#[test]
fn what_was_filed_is_told(rt: HostRuntime) -> Result<(), Fail> {
    let short = campaign((2, 1, 1), 3, 1, Fault::None)?;
    match filed_without(&rt, rt.alloc(), &short, 1)? {
        None => Ok(()),
        Some(0) => Err("none was filed")?,
        Some(3) => Err("all were filed")?,
        Some(_) => Err("some were filed")?,
    }
}
