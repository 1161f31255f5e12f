//! Workers that wait for each other, so that all of them have to be at work.

ghost use Rattle.std.specs.Prelude.{◌≤◌};
ghost use Rattle.common.specs.declared.limits.TheConstants.{MAX_WORKERS};

use crate::campaigns::{campaign, ledger_by};
use crate::told::many_lines;
use common::Gate;
use devices::{Failed, MemorySink, MemorySource, Source};
use program::Fault;
use std::alloc::{AllocError, Global};
use std::sync::Wait;
use std::sync::atomic::{AtomicBool, AtomicU64, Ordering};
use std::test::Fail;
use std::thread;
use std::thread::Threads;
use surveys::{LineKind, Reports, survey};

/// Where each worker waits, when it is there first, until all are.
#[derive(Drop)]
struct Hall {
    /// Of each worker 0, or the piece with which it came, plus 1.
    pieces: Vec<AtomicU64>,
    missed: AtomicBool,
}

impl Hall {
    /// That of this many workers, none of which is there.
    fn new(alloc: Global, workers: usize) -> Result<Hall, AllocError> {
        let mut pieces = Vec::new(alloc);
        for _ in 0..workers {
            pieces.push(AtomicU64::new(0))?;
        }
        Ok(Hall {
            pieces,
            missed: AtomicBool::new(false),
        })
    }

    /// Whether all are there.
    fn is_full(&self) -> bool {
        self.pieces
            .iter()
            .all(|piece| piece.load(Ordering::SeqCst) > 0)
    }

    /// A worker comes with a piece, and waits for the others, for a while.
    fn wait(&self, worker: usize, piece: usize) {
        let note = (piece as u64).wrapping_add(1);
        match self.pieces.get(worker) {
            Some(own) => {
                let _ = own.compare_exchange(0, note, Ordering::SeqCst, Ordering::SeqCst);
            }
            None => self.missed.store(true, Ordering::SeqCst),
        }
        for _ in 0..10_000_000 {
            if self.is_full() || self.missed.load(Ordering::SeqCst) {
                return;
            }
            thread::yield_now();
        }
        self.missed.store(true, Ordering::SeqCst);
    }

    /// Whether all were there, and none waited in vain.
    fn has_met(&self) -> bool {
        self.is_full() && !self.missed.load(Ordering::SeqCst)
    }

    /// Whether each worker came first with the first piece of its own share of this many.
    fn has_shares(&self, pieces: usize) -> bool {
        let workers = self.pieces.len().max(1);
        self.pieces.iter().enumerate().all(|(worker, piece)| {
            let first = (pieces / workers).wrapping_mul(worker).wrapping_add(1);
            piece.load(Ordering::SeqCst) == first as u64
        })
    }
}

/// The call at which workers meet.
#[derive(Clone, Copy, Drop, PartialEq, Eq)]
enum Call {
    /// As a worker begins a piece.
    Begin,
    /// As it finds a violation.
    Found,
    /// As it is done.
    Done,
}

/// Workers that meet at their first such call. One that makes it while it holds what another needs meets nobody.
#[derive(Drop)]
struct Meeting {
    call: Call,
    hall: Hall,
}

impl Meeting {
    /// That of this many workers.
    fn new(alloc: Global, call: Call, workers: usize) -> Result<Meeting, AllocError> {
        Ok(Meeting {
            call,
            hall: Hall::new(alloc, workers)?,
        })
    }

    /// A worker makes a call.
    fn come(&self, call: Call, worker: usize, piece: usize) {
        if self.call == call {
            self.hall.wait(worker, piece);
        }
    }
}

impl Gate for Meeting {
    fn begin(&self, worker: usize, piece: usize) {
        self.come(Call::Begin, worker, piece);
    }

    fn found(&self, worker: usize, piece: usize) {
        self.come(Call::Found, worker, piece);
    }

    fn done(&self, worker: usize, piece: usize) {
        self.come(Call::Done, worker, piece);
    }
}

/// Whether this many workers of a campaign of 64 trials meet at such a call, and as they begin each with the first
/// trial of its share.
fn is_campaign_met<R: Threads + Wait + Sync>(
    rt: &R,
    alloc: Global,
    call: Call,
    workers: usize,
) -> Result<bool, Fail>
    requires { (1 ≤ workers) × (workers ≤ MAX_WORKERS) }
{
    let faulty = campaign((2, 4, 2), 64, 100_000, Fault::NoBypass)?;
    let gate = Meeting::new(alloc, call, workers)?;
    let _ = ledger_by(rt, alloc, &faulty, workers, &gate)?;
    Ok(gate.hall.has_met() && (call != Call::Begin || gate.hall.has_shares(64)))
}

#[test]
fn each_worker_of_a_campaign_is_at_work(rt: HostRuntime) -> Result<(), Fail> {
    assert!(rt; is_campaign_met(&rt, rt.alloc(), Call::Begin, 1)?);
    assert!(rt; is_campaign_met(&rt, rt.alloc(), Call::Begin, 5)?);
    assert!(rt; is_campaign_met(&rt, rt.alloc(), Call::Found, 3)?);
    assert!(rt; is_campaign_met(&rt, rt.alloc(), Call::Done, 2)?);
    Ok(())
}

/// A source that gives its first bytes late, so that threads are asleep by then.
#[derive(Drop)]
struct Late<T> {
    inner: T,
    is_late: bool,
}

impl<T: Source> Source for Late<T> {
    ghost left = { λ l. T.left l.inner };

    ghost is_ended = { λ l. T.is_ended l.inner };

    ghost read_failed = { λ l. T.read_failed l.inner };

    fn pull(&mut self, buf: &mut [u8]) -> Result<usize, Failed> {
        if !self.is_late {
            for _ in 0..200_000 {
                thread::yield_now();
            }
            self.is_late = true;
        }
        self.inner.pull(buf)
    }
}

/// Whether this many workers of a survey of many recordings meet at such a call.
fn is_survey_met<R: Threads + Wait + Sync>(
    rt: &R,
    alloc: Global,
    reports: Reports,
    call: Call,
    workers: usize,
) -> Result<bool, AllocError> {
    let lines = many_lines(alloc)?;
    let gate = Meeting::new(alloc, call, workers)?;
    let mut source = Late {
        inner: MemorySource::new(lines.as_bytes()),
        is_late: false,
    };
    let mut sink = MemorySink::new(alloc);
    let surveyed = survey(
        rt,
        alloc,
        LineKind::Recording,
        &mut source,
        &mut sink,
        reports,
        workers,
        &gate,
    );
    Ok(surveyed.is_ok() && gate.hall.has_met())
}

#[test]
fn each_worker_of_a_survey_is_at_work(rt: HostRuntime) -> Result<(), Fail> {
    assert!(rt; is_survey_met(&rt, rt.alloc(), Reports::NoLine, Call::Begin, 3)?);
    assert!(rt; is_survey_met(&rt, rt.alloc(), Reports::NoLine, Call::Found, 2)?);
    assert!(rt; is_survey_met(&rt, rt.alloc(), Reports::NoLine, Call::Done, 2)?);
    Ok(())
}

#[test]
fn each_worker_of_reported_recordings_is_at_work(rt: HostRuntime) -> Result<(), Fail> {
    assert!(rt; is_survey_met(&rt, rt.alloc(), Reports::EachLine, Call::Begin, 4)?);
    assert!(rt; is_survey_met(&rt, rt.alloc(), Reports::EachLine, Call::Found, 3)?);
    assert!(rt; is_survey_met(&rt, rt.alloc(), Reports::EachLine, Call::Done, 3)?);
    Ok(())
}
