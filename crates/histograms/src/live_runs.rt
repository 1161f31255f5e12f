//! Histograms of runs by threads.

ghost use Rattle.std.specs.Prelude.{IfErr, IfOk, List, Option};
ghost use Rattle.histograms.specs.declared.seen.Seen.{Seen};
ghost use Rattle.histograms.specs.Histogram.{IsHistogram, IsRanked};
ghost use Rattle.histograms.specs.Runs.{AreLiveRuns, IsLiveRun};
ghost use Rattle.live.specs.Driven.{IsDriveError};

use crate::histogram::Histogram;
use crate::seen::{Seen, seen_of};
use common::OpenGate;
use live::{LiveError, drive};
use program::Program;
use std::alloc::Global;
use std::sync::Wait;
use std::thread::Threads;

/// Runs of a program by threads, one for each core.
#[derive(Clone, Copy, Drop)]
pub struct LiveRuns {
    /// How many there are.
    pub runs: usize,
    /// How many stores a buffer holds.
    pub buffer: usize,
    /// How many steps each may take.
    pub limit: usize,
}

/// What is seen of a run by threads.
fn live_run<R: Threads + Wait + Sync>(
    rt: &R,
    alloc: Global,
    program: &Program,
    runs: &LiveRuns,
) -> Result<Option<Seen>, LiveError>
    ensures ok { IfOk result (IsLiveRun program.now runs.now) }
    ensures err { IfErr result IsDriveError }
{
    let traced = drive(
        rt,
        alloc,
        program.copy(alloc)?,
        runs.buffer,
        runs.limit,
        &OpenGate,
    )?;
    Ok(seen_of(alloc, traced.into_machine())?)
}

/// Counts runs of a program by threads, by their outcomes, the most frequent outcome first. Fails as `live::drive`
/// does.
pub fn live_histogram<R: Threads + Wait + Sync>(
    rt: &R,
    alloc: Global,
    program: &Program,
    runs: &LiveRuns,
) -> Result<Histogram, LiveError>
    ensures ok { IfOk result (λ h. (seen : List (Option Seen))
        × AreLiveRuns program.now runs.now seen
        × IsHistogram seen h × IsRanked h) }
    ensures err { IfErr result IsDriveError }
{
    let mut histogram = Histogram::new(alloc);
    for run in 0..runs.runs {
        let seen = live_run(rt, alloc, program, runs)?;
        histogram.add(run as u64, seen)?;
    }
    histogram.rank()?;
    Ok(histogram)
}
