//! Histograms of random runs.

ghost use Rattle.std.specs.Prelude.{◌≡◌, ◌+◌, ◌<◌, ◌^◌, ◌++◌, IfOk, List, Ok, OnOk, Option, length, map};
ghost use Rattle.histograms.specs.declared.seen.Seen.{Seen};
ghost use Rattle.histograms.specs.Histogram.{IsHistogram};
ghost use Rattle.histograms.specs.OneHistogram.{EveryProgramHasOneHistogram, IsHistogramOf};
ghost use Rattle.histograms.specs.Runs.{AreMadeFrom, IsSeededRun};

use crate::histogram::Histogram;
use crate::law::runs_have_one_histogram;
use crate::seen::{Seen, seen_of};
use common::OutOfMemory;
use machine::Machine;
use program::{Fault, Program};
use rand_core::SeedableRng;
use rand_xoshiro::Xoshiro256PlusPlus;
use std::alloc::Global;
use std::mem;
use std::thread::{Threads, for_each_mut};
use trials::run_seeded;

/// How many runs are made before they are counted.
const BLOCK: usize = 4096;

/// What is seen of a run, or that there was no memory for it.
type Slot = Result<Option<Seen>, OutOfMemory>;

/// Random runs of a program.
#[derive(Clone, Copy, Drop)]
pub struct SeededRuns {
    /// The seed of the first; each later one has the next, modulo 2^64.
    pub seed: u64,
    /// How many there are.
    pub runs: usize,
    /// How many steps each attempts at most.
    pub attempts: usize,
    /// How many stores a buffer holds.
    pub buffer: usize,
    /// What is wrong with the machine.
    pub fault: Fault,
    /// How many workers share them at most.
    pub workers: usize,
}

/// What is seen of the run with this number.
fn seeded_run(
    alloc: Global,
    program: &Program,
    runs: &SeededRuns,
    run: usize,
) -> Result<Option<Seen>, OutOfMemory>
    ensures { IfOk result (IsSeededRun program.now runs.now run) }
{
    let program = program.copy(alloc)?;
    let mut machine = Machine::new(alloc, program, runs.buffer, runs.fault)?;
    let mut rng = Xoshiro256PlusPlus::seed_from_u64(runs.seed.wrapping_add(run as u64));
    run_seeded(&mut machine, &mut rng, runs.attempts);
    seen_of(alloc, machine)
}

/// Room for what is seen of as many runs.
fn slots(alloc: Global, count: usize) -> Result<Vec<Slot>, OutOfMemory>
    ensures { IfOk result (λ slots. length slots.items ≡ count) }
{
    let mut slots = Vec::with_capacity(alloc, count)?;
    for _ in 0..count {
        slots.push(Ok(None))?;
    }
    Ok(slots)
}

/// Makes a run for each slot, from this one on.
fn make<R: Threads + Sync>(
    rt: &R,
    alloc: Global,
    program: &Program,
    runs: &SeededRuns,
    first: usize,
    slots: &mut [Slot],
)
    requires workers { 0 < runs.now.workers }
    requires few { first + length slots.old < 2 ^ 64 }
    ensures size { length slots.new ≡ length slots.old }
    ensures each { AreMadeFrom program.now runs.now first slots.new }
{
    let one = move |k: usize, slot: &mut Slot|
        requires { first + k < 2 ^ 64 }
        ensures { IfOk slot.exit.now (IsSeededRun program.entry.now runs.entry.now (first + k)) }
    {
        *slot = seeded_run(alloc, program, runs, first + k);
    };
    for_each_mut(rt, slots, runs.workers, &one);
}

/// Adds runs from this one on.
fn count(histogram: &mut Histogram, first: usize, slots: &mut [Slot]) -> Result<(), OutOfMemory>
    requires { (known : List (Option Seen)) × IsHistogram known histogram.old × (length known ≡ first)
        × (first + length slots.old < 2 ^ 64) }
    ensures size { length slots.new ≡ length slots.old }
    ensures counted { OnOk result ((known : List (Option Seen)) → IsHistogram known histogram.old → length known ≡ first
        → (seen : List (Option Seen)) × (map Ok seen ≡ slots.old) × IsHistogram (known ++ seen) histogram.new) }
{
    for k in 0..slots.len() {
        let seen = mem::replace(&mut slots[k], Ok(None))?;
        histogram.add((first + k) as u64, seen)?;
    }
    Ok(())
}

/// Counts random runs of a program by their outcomes, the most frequent outcome first. Two histograms of the same runs
/// are equal, by however many workers the runs are made. Fails only if out of memory.
pub fn seeded_histogram<R: Threads + Sync>(
    rt: &R,
    alloc: Global,
    program: &Program,
    runs: &SeededRuns,
) -> Result<Histogram, OutOfMemory>
    requires { 0 < runs.now.workers }
    ensures counted { IfOk result (IsHistogramOf program.now runs.now) }
    ensures one { EveryProgramHasOneHistogram }
{
    runs_have_one_histogram();
    let mut histogram = Histogram::new(alloc);
    let mut made = 0;
    'blocks: while made < runs.runs {
        let mut slots = slots(alloc, BLOCK.min(runs.runs - made))?;
        let slots: &mut [Slot] = &mut slots;
        make(rt, alloc, program, runs, made, slots);
        count(&mut histogram, made, slots)?;
        made += slots.len();
    }
    histogram.rank()?;
    Ok(histogram)
}
