//! What is answered of many runs of a program.

ghost use Rattle.std.specs.Prelude.{◌≡◌, ◌<◌, IfErr, IfOk};
ghost use Rattle.live.specs.Driven.{IsDriveError};
ghost use Rattle.run_answers.specs.Histogram.{IsLiveHistogramAnswer, IsSeededHistogramAnswer, histogram_outcome};

use common::OutOfMemory;
use histograms::{
    Histogram, LiveRuns, Mark, SeededRuns, histogram_text, live_histogram, seeded_histogram,
};
use live::LiveError;
use program::Program;
use std::alloc::Global;
use std::sync::Wait;
use std::thread::Threads;
use verdicts::{Answer, Outcome};

/// `Violation` where a run is one, else `Unfinished` where one is unfinished, else `Done`.
fn outcome_of(histogram: &Histogram) -> Outcome
    ensures { result ≡ histogram_outcome histogram.now }
{
    if histogram.has_violation() {
        Outcome::Violation
    } else if histogram.unfinished_runs() > 0 {
        Outcome::Unfinished
    } else {
        Outcome::Done
    }
}

/// The histogram of random runs of a program. Fails only if out of memory.
pub fn seeded_histogram_answer<R: Threads + Sync>(
    rt: &R,
    alloc: Global,
    program: &Program,
    runs: &SeededRuns,
) -> Result<Answer, OutOfMemory>
    requires { 0 < runs.now.workers }
    ensures { IfOk result (IsSeededHistogramAnswer program.now runs.now) }
{
    let histogram = seeded_histogram(rt, alloc, program, runs)?;
    let text = histogram_text(alloc, program, Mark::Seed(runs.seed), &histogram)?;
    let outcome = outcome_of(&histogram);
    Ok(Answer { outcome, text })
}

/// The histogram of runs of a program by threads. Fails as `live::drive` does.
pub fn live_histogram_answer<R: Threads + Wait + Sync>(
    rt: &R,
    alloc: Global,
    program: &Program,
    runs: &LiveRuns,
) -> Result<Answer, LiveError>
    ensures ok { IfOk result (IsLiveHistogramAnswer program.now runs.now) }
    ensures err { IfErr result IsDriveError }
{
    let histogram = live_histogram(rt, alloc, program, runs)?;
    let text = histogram_text(alloc, program, Mark::Run, &histogram)?;
    let outcome = outcome_of(&histogram);
    Ok(Answer { outcome, text })
}
