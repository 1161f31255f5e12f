//! Campaigns and their ledgers.

ghost use Rattle.std.specs.Prelude.{◌≤◌};
ghost use Rattle.common.specs.declared.limits.TheConstants.{MAX_WORKERS};

use common::{Gate, OpenGate, OutOfMemory};
use ledger::campaign_text;
use program::{Fault, Shape};
use std::alloc::Global;
use std::sync::Wait;
use std::sync::atomic::{AtomicU64, Ordering};
use std::test::Fail;
use std::thread;
use std::thread::Threads;
use trials::{Campaign, Ledger, run_campaign};

// The campaign of these cores, operations, addresses, trials and attempts, on machines with this fault.
pub fn campaign(
    shape: (usize, usize, usize),
    trials: usize,
    attempts: usize,
    fault: Fault,
) -> Result<Campaign, Fail> {
    let Ok(shape) = Shape::new(shape.0, shape.1, shape.2) else {
        return Err("a shape")?;
    };
    let Ok(campaign) = Campaign::new(shape, 0, trials, attempts, 8, fault) else {
        return Err("a campaign")?;
    };
    Ok(campaign)
}

const LINES: &[u8] =
    b"trials 5\nordered 1\nunfinished 1\noverlook 1\ncycle 6: 2\nfirst violation: trial 2\n";

// The text of the ledger of these codes.
fn text_of_codes(alloc: Global, codes: &[u64]) -> Result<Vec<u8>, OutOfMemory> {
    let ledger = Ledger::count(alloc, codes)?;
    campaign_text(alloc, &ledger)
}

#[test]
fn a_ledger_counts_codes(rt: HostRuntime) -> Result<(), Fail> {
    assert!(rt; text_of_codes(rt.alloc(), &[3, 2, 22, 1_049_600, 22])?.as_slice() == LINES);
    Ok(())
}

// The ledger of a campaign.
pub fn ledger_by<R: Threads + Wait + Sync, G: Gate>(
    rt: &R,
    alloc: Global,
    campaign: &Campaign,
    workers: usize,
    gate: &G,
) -> Result<Ledger, Fail>
    requires { (1 ≤ workers) × (workers ≤ MAX_WORKERS) }
{
    match run_campaign(rt, alloc, campaign, workers, gate) {
        Ok(ledger) => Ok(ledger),
        Err(_) => Err("memory")?,
    }
}

// Its text.
fn text_by<R: Threads + Wait + Sync, G: Gate>(
    rt: &R,
    alloc: Global,
    campaign: &Campaign,
    workers: usize,
    gate: &G,
) -> Result<Vec<u8>, Fail>
    requires { (1 ≤ workers) × (workers ≤ MAX_WORKERS) }
{
    let ledger = ledger_by(rt, alloc, campaign, workers, gate)?;
    Ok(campaign_text(alloc, &ledger)?)
}

// The first trial is held until all others were filed.
#[derive(Drop)]
struct Held {
    filed: AtomicU64,
    seen: AtomicU64,
}

impl Gate for Held {
    fn begin(&self, _worker: usize, piece: usize) {
        if piece == 0 {
            for _ in 0..100_000_000 {
                if self.filed.load(Ordering::SeqCst) == 63 {
                    self.seen.store(1, Ordering::SeqCst);
                    break;
                }
                thread::yield_now();
            }
        }
    }

    fn done(&self, _worker: usize, _piece: usize) {
        self.filed.fetch_add(1, Ordering::SeqCst);
    }
}

#[test]
fn a_worker_takes_what_another_leaves(rt: HostRuntime) -> Result<(), Fail> {
    let fences = campaign((2, 4, 2), 64, 100_000, Fault::OpenFence)?;
    let gate = Held {
        filed: AtomicU64::new(0),
        seen: AtomicU64::new(0),
    };
    let held = text_by(&rt, rt.alloc(), &fences, 2, &gate)?;
    assert!(rt; gate.seen.load(Ordering::SeqCst) == 1);
    let alone = text_by(&rt, rt.alloc(), &fences, 1, &OpenGate)?;
    assert!(rt; held.as_slice() == alone.as_slice());
    Ok(())
}
