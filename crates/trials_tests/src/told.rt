//! What a gate is told of a campaign, or of a survey.

ghost use Rattle.std.specs.Prelude.{◌≤◌};
ghost use Rattle.common.specs.declared.limits.TheConstants.{MAX_WORKERS};

use crate::campaigns::{campaign, ledger_by};
use common::Gate;
use devices::{MemorySink, MemorySource};
use program::Fault;
use std::alloc::{AllocError, Global};
use std::sync::Wait;
use std::sync::atomic::{AtomicBool, AtomicU64, Ordering};
use std::test::Fail;
use std::thread::Threads;
use surveys::{LineKind, Reports, survey};
use trials::Campaign;

/// What was told of each trial or recording, by worker w of eight: 1 + w that it begins, 16 more that it is a
/// violation, 32 more that it is done.
#[derive(Drop)]
struct Told {
    pieces: Vec<AtomicU64>,
    wrong: AtomicBool,
}

/// What worker w adds to begin.
fn mark(worker: usize) -> u64 {
    if worker < 8 {
        return (worker as u64).wrapping_add(1);
    }
    100
}

impl Told {
    /// The gate of this many pieces, before it is told anything.
    fn new(alloc: Global, count: usize) -> Result<Told, AllocError> {
        let mut pieces = Vec::new(alloc);
        for _ in 0..count {
            pieces.push(AtomicU64::new(0))?;
        }
        Ok(Told {
            pieces,
            wrong: AtomicBool::new(false),
        })
    }

    /// A call adds to what was told of a piece before, which has to be one of these two.
    fn add(&self, piece: usize, more: u64, either: u64, or: u64) {
        let before = match self.pieces.get(piece) {
            Some(told) => told.fetch_add(more, Ordering::SeqCst),
            None => 1000,
        };
        if before != either && before != or {
            self.wrong.store(true, Ordering::SeqCst);
        }
    }

    /// How many pieces were told of by numbers from this one to 56.
    fn count(&self, least: u64) -> usize {
        self.pieces
            .iter()
            .filter(|told| (least..=56).contains(&told.load(Ordering::SeqCst)))
            .count()
    }

    /// Whether each piece was told of as it begins and is done, by one worker, and this many violations, of which
    /// this is the first.
    fn is_right(&self, violations: usize, first: Option<usize>) -> bool {
        let found = self
            .pieces
            .iter()
            .position(|told| told.load(Ordering::SeqCst) >= 49);
        !self.wrong.load(Ordering::SeqCst)
            && self.count(33) == self.pieces.len()
            && self.count(49) == violations
            && found == first
    }
}

impl Gate for Told {
    fn begin(&self, worker: usize, piece: usize) {
        self.add(piece, mark(worker), 0, 0);
    }

    fn found(&self, worker: usize, piece: usize) {
        self.add(piece, 16, mark(worker), mark(worker));
    }

    fn done(&self, worker: usize, piece: usize) {
        self.add(piece, 32, mark(worker), mark(worker).wrapping_add(16));
    }
}

/// Whether this many workers tell so of a campaign of 64 trials with this many violations.
fn is_campaign_told<R: Threads + Wait + Sync>(
    rt: &R,
    alloc: Global,
    faulty: &Campaign,
    workers: usize,
    violations: usize,
) -> Result<bool, Fail>
    requires { (1 ≤ workers) × (workers ≤ MAX_WORKERS) }
{
    let gate = Told::new(alloc, 64)?;
    let ledger = ledger_by(rt, alloc, faulty, workers, &gate)?;
    Ok(gate.is_right(violations, ledger.first))
}

#[test]
fn each_trial_begins_once_and_is_done_once_by_one_worker(rt: HostRuntime) -> Result<(), Fail> {
    let overlooks = campaign((2, 4, 2), 64, 100_000, Fault::NoBypass)?;
    assert!(rt; is_campaign_told(&rt, rt.alloc(), &overlooks, 2, 17)?);
    let cycles = campaign((2, 4, 2), 64, 100_000, Fault::YoungestFirst)?;
    assert!(rt; is_campaign_told(&rt, rt.alloc(), &cycles, 8, 19)?);
    Ok(())
}

/// Whether this many workers report so of a campaign of 64 trials, of which some are unfinished and some violations.
fn is_unfinished_told<R: Threads + Wait + Sync>(
    rt: &R,
    alloc: Global,
    short: &Campaign,
    workers: usize,
) -> Result<bool, Fail>
    requires { (1 ≤ workers) × (workers ≤ MAX_WORKERS) }
{
    let gate = Told::new(alloc, 64)?;
    let ledger = ledger_by(rt, alloc, short, workers, &gate)?;
    let judged = ledger.total.saturating_sub(ledger.unjudged);
    let violations = judged.saturating_sub(ledger.ordered);
    Ok(ledger.unjudged > 0 && violations > 0 && gate.is_right(violations, ledger.first))
}

#[test]
fn an_unfinished_trial_is_no_violation(rt: HostRuntime) -> Result<(), Fail> {
    let short = campaign((2, 4, 2), 64, 200, Fault::NoBypass)?;
    assert!(rt; is_unfinished_told(&rt, rt.alloc(), &short, 2)?);
    Ok(())
}

/// An order, nothing, an overlook, a load without its source, and a cycle, which has no end of its line.
const LINES: &str = r#"{"version":1,"writes":[[0]],"cores":[[{"k":"S","a":0,"w":1}]]}

{"version":1,"writes":[[0]],"cores":[[{"k":"S","a":0,"w":1},{"k":"L","a":0,"r":0,"s":null}]]}
{"version":1,"writes":[[0]],"cores":[[{"k":"S","a":0,"w":1},{"k":"L","a":0,"r":1,"s":1}]]}
{"version":1,"writes":[[0],[1]],"cores":[[{"k":"S","a":0,"w":1},{"k":"S","a":1,"w":1}],[{"k":"L","a":1,"r":1,"s":1},{"k":"L","a":0,"r":0,"s":null}]]}"#;

/// These lines, 128 times.
pub fn many_lines(alloc: Global) -> Result<String, AllocError> {
    let mut lines = String::new(alloc);
    for _ in 0..128 {
        lines.push_str(LINES)?;
        lines.push('\n')?;
    }
    Ok(lines)
}

/// Whether this many workers report to a gate each of 512 recordings, half of which are violations.
fn is_survey_told<R: Threads + Wait + Sync>(
    rt: &R,
    alloc: Global,
    reports: Reports,
    workers: usize,
) -> Result<bool, AllocError> {
    let lines = many_lines(alloc)?;
    let gate = Told::new(alloc, 512)?;
    let mut source = MemorySource::new(lines.as_bytes());
    let mut sink = MemorySink::new(alloc);
    let Ok(_) = survey(
        rt,
        alloc,
        LineKind::Recording,
        &mut source,
        &mut sink,
        reports,
        workers,
        &gate,
    ) else {
        return Ok(false);
    };
    Ok(gate.is_right(256, Some(1)))
}

#[test]
fn each_recording_begins_once_and_is_done_once_by_one_worker(rt: HostRuntime) -> Result<(), Fail> {
    assert!(rt; is_survey_told(&rt, rt.alloc(), Reports::NoLine, 1)?);
    assert!(rt; is_survey_told(&rt, rt.alloc(), Reports::NoLine, 8)?);
    assert!(rt; is_survey_told(&rt, rt.alloc(), Reports::EachLine, 3)?);
    Ok(())
}
