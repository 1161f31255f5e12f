//! Threads that a gate holds.

use crate::plain::{STORE_BUFFERING, program};
use common::{Gate, OpenGate};
use live::{Traced, drive};
use machine::Step;
use std::alloc::Global;
use std::sync::Wait;
use std::sync::atomic::{AtomicBool, AtomicU64, Ordering};
use std::test::*;
use std::thread;
use std::thread::Threads;

/// What was told of each core's first step: 0 nothing, 1 that it begins, 2 that it is done. Core 0 is held as it begins
/// until core 1 is done, which is held then until core 0 is done.
#[derive(Drop)]
struct Told {
    cores: [AtomicU64; 2],
    wrong: AtomicBool,
}

/// Whether a core is done within some time.
fn is_done(core: &AtomicU64) -> bool {
    for _ in 0..10_000_000 {
        if core.load(Ordering::SeqCst) == 2 {
            return true;
        }
        thread::yield_now();
    }
    false
}

impl Told {
    /// One call more of a core, which has to be the next one and within the time of the other core's end.
    fn next(&self, worker: usize, piece: usize, before: u64, is_right: bool) {
        let told = match self.cores.get(piece) {
            Some(told) => told.fetch_add(1, Ordering::SeqCst),
            None => 3,
        };
        if worker != piece || told != before || !is_right {
            self.wrong.store(true, Ordering::SeqCst);
        }
    }
}

impl Gate for Told {
    fn begin(&self, worker: usize, piece: usize) {
        self.next(worker, piece, 0, piece != 0 || is_done(&self.cores[1]));
    }

    fn done(&self, worker: usize, piece: usize) {
        self.next(worker, piece, 1, true);
        if piece == 1 && !is_done(&self.cores[0]) {
            self.wrong.store(true, Ordering::SeqCst);
        }
    }
}

/// A run by threads of the program of a text, whose buffers have room for 8 stores.
fn run_by_threads<R: Threads + Wait + Sync, G: Gate>(
    rt: &R,
    alloc: Global,
    text: &str,
    gate: &G,
) -> Result<Traced, Fail> {
    let program = program(alloc, text)?;
    Ok(drive(rt, alloc, program, 8, 100_000, gate)?)
}

/// Whether the first operation of a trace is one of core 1.
fn begins_with_core_1(trace: &[Step]) -> bool {
    let first = trace.iter().find(|step| matches!(step, Step::Exec(_)));
    first == Some(&Step::Exec(1))
}

/// Whether threads drive store buffering to its end, with a step of core 1 before those of core 0.
fn is_driven<R: Threads + Wait + Sync>(rt: &R, alloc: Global, gate: &Told) -> Result<bool, Fail> {
    let traced = run_by_threads(rt, alloc, STORE_BUFFERING, gate)?;
    Ok(traced.machine().is_complete() && begins_with_core_1(traced.trace()))
}

#[test]
fn a_core_waits_for_no_other(rt: HostRuntime) -> Result<(), Fail> {
    let gate = Told {
        cores: [AtomicU64::new(0), AtomicU64::new(0)],
        wrong: AtomicBool::new(false),
    };
    assert!(rt; is_driven(&rt, rt.alloc(), &gate)?);
    assert!(rt; is_done(&gate.cores[0]) && is_done(&gate.cores[1]));
    assert!(rt; !gate.wrong.load(Ordering::SeqCst));
    Ok(())
}

/// Holds core 0 as it begins, until core 1 is done with its first step and a long while after.
#[derive(Drop)]
struct Held {
    other: AtomicU64,
}

impl Gate for Held {
    fn begin(&self, _worker: usize, piece: usize) {
        if piece == 0 && is_done(&self.other) {
            for _ in 0..300_000 {
                thread::yield_now();
            }
        }
    }

    fn done(&self, _worker: usize, piece: usize) {
        if piece == 1 {
            self.other.store(2, Ordering::SeqCst);
        }
    }
}

/// A core whose last operations wait for its store to be in memory, beside another core.
const DRAINED_BESIDE: &str = "core\nst x 1\ncore\nst y 1\nfence\nswap y 2\nld x\n";

/// How many operations of core 1 come before the first of core 0.
fn count_before_core_0(trace: &[Step]) -> usize {
    let first = trace.iter().position(|step| *step == Step::Exec(0));
    let before = trace.iter().take(first.unwrap_or(0));
    before.filter(|step| **step == Step::Exec(1)).count()
}

/// Whether the other core comes to its end, by drains and transactions, while core 0 is held.
fn ends_beside<R: Threads + Wait + Sync>(rt: &R, alloc: Global, gate: &Held) -> Result<bool, Fail> {
    let traced = run_by_threads(rt, alloc, DRAINED_BESIDE, gate)?;
    Ok(traced.machine().is_complete() && count_before_core_0(traced.trace()) == 4)
}

#[test]
fn no_thread_waits_for_core_0(rt: HostRuntime) -> Result<(), Fail> {
    let gate = Held {
        other: AtomicU64::new(0),
    };
    assert!(rt; ends_beside(&rt, rt.alloc(), &gate)?);
    Ok(())
}

/// A core with stores to one address, beside a core with loads of another.
const STORES_BESIDE_LOADS: &str =
    "core\nst x 1\nst x 2\nst x 3\nst x 4\nst x 5\nst x 6\nst x 7\nst x 8\ncore\nld y\nld y\nld y\nld y\nld y\nld y\nld y\nld y\nld y\nld y\nld y\nld y\nld y\nld y\nld y\nld y\n";

/// Whether a step of another kind comes after a drain of core 0 that left stores in its buffer, of which 8 are
/// executed.
fn leaves_stores(steps: &[Step]) -> bool {
    let mut waiting = 0usize;
    let mut has_drained = false;
    for step in steps {
        match step {
            Step::Exec(0) => waiting = waiting.wrapping_add(1),
            Step::Drain(0) => waiting = waiting.wrapping_sub(1),
            _ => {}
        }
        let is_drain = *step == Step::Drain(0);
        if has_drained && !is_drain {
            return true;
        }
        has_drained = is_drain && waiting > 0;
    }
    false
}

/// Whether a run has such a drain.
fn has_single_drain<R: Threads + Wait + Sync>(rt: &R, alloc: Global) -> Result<bool, Fail> {
    let traced = run_by_threads(rt, alloc, STORES_BESIDE_LOADS, &OpenGate)?;
    Ok(leaves_stores(traced.trace()))
}

/// Whether a run of many has.
fn has_single_drains<R: Threads + Wait + Sync>(rt: &R, alloc: Global) -> Result<bool, Fail> {
    for _ in 0..200 {
        if has_single_drain(rt, alloc)? {
            return Ok(true);
        }
    }
    Ok(false)
}

#[test]
fn each_drain_is_a_turn(rt: HostRuntime) -> Result<(), Fail> {
    assert!(rt; has_single_drains(&rt, rt.alloc())?);
    Ok(())
}
