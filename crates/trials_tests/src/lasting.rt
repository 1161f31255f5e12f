//! What lasts while a gate is told of it, and what is written meanwhile.

ghost use Rattle.std.specs.Prelude.{◌≤◌};

use crate::campaigns::{campaign, ledger_by};
use crate::told::many_lines;
use common::Gate;
use devices::{Failed, MemorySink, MemorySource, Sink};
use program::Fault;
use std::alloc::{AllocError, Global};
use std::sync::Wait;
use std::sync::atomic::{AtomicBool, AtomicU64, Ordering};
use std::test::Fail;
use std::thread;
use std::thread::Threads;
use std::time::{Duration, Instant};
use surveys::{LineKind, Reports, survey};

/// How long a campaign of one worker takes from the beginning of each trial to its end.
struct Lasting<'a> {
    rt: &'a HostRuntime,
    start: Instant,
    /// When the last trial began, and how long all lasted, in microseconds.
    begun: AtomicU64,
    inside: AtomicU64,
}

impl Drop for Lasting<'_> {
    fn drop(self) {
        let Self {
            rt,
            start,
            begun,
            inside,
        } = self;
    }
}

/// The microseconds of a time.
fn micros(time: Duration) -> u64 {
    time.as_secs()
        .saturating_mul(1_000_000)
        .saturating_add(time.subsec_micros() as u64)
}

impl Lasting<'_> {
    /// The microseconds since the start.
    fn now(&self) -> u64 {
        match self.start.elapsed(self.rt) {
            Ok(time) => micros(time),
            Err(_) => 0,
        }
    }
}

impl Gate for Lasting<'_> {
    fn begin(&self, _worker: usize, _piece: usize) {
        self.begun.store(self.now(), Ordering::SeqCst);
    }

    fn done(&self, _worker: usize, _piece: usize) {
        let lasted = self.now().saturating_sub(self.begun.load(Ordering::SeqCst));
        self.inside.fetch_add(lasted, Ordering::SeqCst);
    }
}

/// Whether most of the time of a campaign by one worker passes between the beginning of a trial and its end.
fn lasts_inside<R: Threads + Wait + Sync>(
    rt: &HostRuntime,
    threads: &R,
    alloc: Global,
) -> Result<bool, Fail> {
    let long = campaign((4, 32, 8), 64, 1_000_000, Fault::None)?;
    let Ok(start) = Instant::now(rt) else {
        return Err("a clock")?;
    };
    let gate = Lasting {
        rt,
        start,
        begun: AtomicU64::new(0),
        inside: AtomicU64::new(0),
    };
    let _ = ledger_by(threads, alloc, &long, 1, &gate)?;
    let all = gate.now();
    let inside = gate.inside.load(Ordering::SeqCst);
    Ok(inside > all / 4 * 3)
}

/// Whether it does so in one run of many, since a thread may be kept from its processor.
fn may_last_inside<R: Threads + Wait + Sync>(
    rt: &HostRuntime,
    threads: &R,
    alloc: Global,
) -> Result<bool, Fail> {
    for _ in 0..10 {
        if lasts_inside(rt, threads, alloc)? {
            return Ok(true);
        }
    }
    Ok(false)
}

// What is run before its beginning, or again after its end, takes time of its own.
#[test]
fn trials_are_run_once_between_their_beginning_and_end(rt: HostRuntime) -> Result<(), Fail> {
    assert!(rt; may_last_inside(&rt, &rt, rt.alloc())?);
    Ok(())
}

/// A sink that counts the lines that were flushed.
#[derive(Drop)]
struct Flushed<'a, T> {
    inner: T,
    lines: u64,
    flushed: &'a AtomicU64,
}

impl<T: Sink> Sink for Flushed<'_, T> {
    ghost written = { λ f. T.written f.inner };

    ghost write_failed = { λ f. T.write_failed f.inner };

    fn push(&mut self, text: &[u8]) -> Result<usize, Failed> {
        let n = self.inner.push(text)?;
        let ends = text[..n].iter().filter(|byte| **byte == b'\n').count();
        self.lines = self.lines.wrapping_add(ends as u64);
        Ok(n)
    }

    fn flush(&mut self) -> Result<(), Failed> {
        self.inner.flush()?;
        self.flushed.store(self.lines, Ordering::SeqCst);
        Ok(())
    }
}

/// Sees whether a recording begins before the line of the 64th before it is flushed.
struct Awaited<'a> {
    flushed: &'a AtomicU64,
    late: AtomicBool,
}

impl Drop for Awaited<'_> {
    fn drop(self) {
        let Self { flushed, late } = self;
    }
}

impl Gate for Awaited<'_> {
    fn begin(&self, _worker: usize, piece: usize) {
        let flushed = self.flushed.load(Ordering::SeqCst);
        if piece as u64 >= flushed.saturating_add(64) {
            self.late.store(true, Ordering::SeqCst);
        }
    }

    fn done(&self, _worker: usize, _piece: usize) {}
}

/// Surveys many lines by this many workers, and reports each, to a sink that counts those flushed; whether it can.
fn is_reported<R: Threads + Wait + Sync, G: Gate>(
    rt: &R,
    alloc: Global,
    workers: usize,
    flushed: &AtomicU64,
    gate: &G,
) -> Result<bool, AllocError> {
    let lines = many_lines(alloc)?;
    let mut source = MemorySource::new(lines.as_bytes());
    let mut sink = Flushed {
        inner: MemorySink::new(alloc),
        lines: 0,
        flushed,
    };
    let surveyed = survey(
        rt,
        alloc,
        LineKind::Recording,
        &mut source,
        &mut sink,
        Reports::EachLine,
        workers,
        gate,
    );
    Ok(surveyed.is_ok())
}

/// Whether this many workers write the lines of a survey at least every 64 recordings.
fn is_prompt<R: Threads + Wait + Sync>(
    rt: &R,
    alloc: Global,
    workers: usize,
) -> Result<bool, AllocError> {
    let flushed = AtomicU64::new(0);
    let gate = Awaited {
        flushed: &flushed,
        late: AtomicBool::new(false),
    };
    let is_reported = is_reported(rt, alloc, workers, &flushed, &gate)?;
    Ok(is_reported && !gate.late.load(Ordering::SeqCst))
}

#[test]
fn lines_of_recordings_are_written_at_least_every_64(rt: HostRuntime) -> Result<(), Fail> {
    assert!(rt; is_prompt(&rt, rt.alloc(), 1)?);
    assert!(rt; is_prompt(&rt, rt.alloc(), 3)?);
    Ok(())
}

/// Keeps worker 1 at its first recording until 256 lines are flushed, and the others until it is there.
struct Keeping<'a> {
    flushed: &'a AtomicU64,
    is_kept: AtomicBool,
    missed: AtomicBool,
}

impl Drop for Keeping<'_> {
    fn drop(self) {
        let Self {
            flushed,
            is_kept,
            missed,
        } = self;
    }
}

impl Keeping<'_> {
    /// Whether a worker need not wait any longer.
    fn may_go(&self, worker: usize) -> bool {
        if worker == 1 {
            return self.flushed.load(Ordering::SeqCst) >= 256;
        }
        self.is_kept.load(Ordering::SeqCst)
    }
}

impl Gate for Keeping<'_> {
    fn begin(&self, worker: usize, _piece: usize) {
        if worker == 1 {
            self.is_kept.store(true, Ordering::SeqCst);
        }
        for _ in 0..10_000_000 {
            if self.may_go(worker) || self.missed.load(Ordering::SeqCst) {
                return;
            }
            thread::yield_now();
        }
        self.missed.store(true, Ordering::SeqCst);
    }

    fn done(&self, _worker: usize, _piece: usize) {}
}

/// Whether this many workers write the lines of a survey while one of them is kept.
fn is_not_kept<R: Threads + Wait + Sync>(
    rt: &R,
    alloc: Global,
    workers: usize,
) -> Result<bool, AllocError> {
    let flushed = AtomicU64::new(0);
    let gate = Keeping {
        flushed: &flushed,
        is_kept: AtomicBool::new(false),
        missed: AtomicBool::new(false),
    };
    let is_reported = is_reported(rt, alloc, workers, &flushed, &gate)?;
    Ok(is_reported && !gate.missed.load(Ordering::SeqCst))
}

// As where a thread's processor is at work for another machine.
#[test]
fn lines_are_written_while_a_worker_is_kept(rt: HostRuntime) -> Result<(), Fail> {
    assert!(rt; is_not_kept(&rt, rt.alloc(), 3)?);
    assert!(rt; is_not_kept(&rt, rt.alloc(), 8)?);
    Ok(())
}
