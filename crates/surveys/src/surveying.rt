//! The survey of a source.

ghost use Rattle.std.specs.Prelude.{◌≡◌, ◌≢◌, ◌<◌, true, [], IfErr, IfOk, IfSome, OnOk};
ghost use Rattle.std.specs.Prelude.{length};
ghost use Rattle.std.specs.Io.KnownBytes.{IsAtEnd};
ghost use Rattle.devices.specs.Bytes.{FailsBy};
ghost use Rattle.ledger.specs.Surveyed.{IsSurveyLedger};
ghost use Rattle.surveys.specs.declared.reports.Reports.TheVariants.{EachLine};
ghost use Rattle.surveys.specs.OneSurvey.{EveryLineHasOneFinding, EverySurveyCountsTheSame};
ghost use Rattle.surveys.specs.OneSurvey.{EverySurveyTellsTheSame};
ghost use Rattle.surveys.specs.Surveys.{IsLong, IsLongRead, IsSurvey, IsSurveyOfRead, is_read_failure};
ghost use Rattle.surveys.specs.Surveys.{is_write_failure};

use crate::batch::Batch;
use crate::counting::Counted;
use crate::engine::{Engine, batch_of, fill_until, room_of, when_late};
use crate::error::SurveyError;
use crate::filling::{BLOCK, CHUNK, fill};
use crate::kind::LineKind;
use crate::law::a_survey_is_one;
use crate::queue::WorkQueue;
use crate::reports::Reports;
use crate::workers::with_workers;
use common::Gate;
use devices::{Sink, Source};
use ledger::SurveyLedger;
use std::alloc::Global;
use std::mem;
use std::sync::Wait;
use std::thread::Threads;

/// How many bytes stay on the queue at most while the next ones are read.
const KEPT: usize = BLOCK / 2;

impl<T: Wait, G: Gate> Engine<'_, T, G> {
    ghost use Rattle.std.specs.Prelude.{◌≡◌, ◌≢◌, ◌<◌, true, [], IfErr, OnOk, length};
    ghost use Rattle.std.specs.Io.KnownBytes.{IsAtEnd};
    ghost use Rattle.devices.specs.Bytes.{FailsBy};
    ghost use Rattle.ledger.specs.Surveyed.{IsSurveyLedger};
    ghost use Rattle.surveys.specs.declared.reports.Reports.TheVariants.{EachLine};
    ghost use Rattle.surveys.specs.Surveys.{IsLongRead, IsSurveyOfRead, is_read_failure, is_write_failure};

    /// Counts the lines of all that a source gives, block by block.
    fn count_blocks<R: Source, W: Sink>(
        &self,
        source: &mut R,
        sink: &mut W,
        counted: &mut Counted,
        chunk: &mut [u8],
        block: &mut Vec<u8>,
    ) -> Result<(), SurveyError>
        requires room { 0 < length chunk.old }
        requires empty { block.old.items ≡ [] }
        requires none { IsSurveyLedger [] counted.old.ledger × (counted.old.bytes ≡ 0) }
        ensures whole { OnOk result (IsSurveyOfRead self.now.kind (R.left source.old) (R.left source.new)
            counted.new.ledger self.now.reports (W.written sink.old) (W.written sink.new)) }
        ensures met { OnOk result (R.is_ended source.new ≡ true) }
        ensures all { OnOk result (IsAtEnd (R.left source.new)) }
        ensures long { IfErr result (λ e. IsLongRead e (R.left source.old) (R.left source.new)) }
        ensures reads { FailsBy is_read_failure (R.read_failed source.old) (R.read_failed source.new) result }
        ensures writes { FailsBy is_write_failure (W.write_failed sink.old) (W.write_failed sink.new) result }
        ensures silent { self.now.reports ≢ EachLine → sink.new ≡ sink.old }
    {
        let mut seen = 0;
        let until = fill_until(self.reports);
        'filled: while fill(source, chunk, block, until)? {
            // After a chunk that is not full the next read may wait, and what is reported does not wait for it.
            let waits = self.reports == Reports::EachLine
                && block.len().wrapping_sub(seen) % CHUNK != 0;
            self.count_offered(sink, counted, block, seen, if waits { 0 } else { KEPT })?;
            seen = block.len();
        }
        self.count_offered(sink, counted, block, seen, 0)?;
        let rest = mem::replace(block, Vec::new(self.alloc));
        let mut last = Batch::new(rest, Some(counted.ledger.ledger.total), 1);
        last.judge(&self.line_judge(0));
        self.count_batch(sink, counted, last)?;
        Ok(())
    }
}

/// Counts the lines of a source by this many workers, of which each but the calling thread has a thread of its own that
/// lasts as long.
fn count_by_workers<T: Threads + Wait + Sync, R: Source, W: Sink, G: Gate>(
    engine: &Engine<'_, T, G>,
    source: &mut R,
    sink: &mut W,
    counted: &mut Counted,
    chunk: &mut [u8],
    workers: usize,
) -> Result<(), SurveyError>
    requires room { 0 < length chunk.old }
    requires none { IsSurveyLedger [] counted.old.ledger × (counted.old.bytes ≡ 0) }
    ensures whole { OnOk result (IsSurveyOfRead engine.now.kind (R.left source.old) (R.left source.new)
        counted.new.ledger engine.now.reports (W.written sink.old) (W.written sink.new)) }
    ensures met { OnOk result (R.is_ended source.new ≡ true) }
    ensures all { OnOk result (IsAtEnd (R.left source.new)) }
    ensures long { IfErr result (λ e. IsLongRead e (R.left source.old) (R.left source.new)) }
    ensures reads { FailsBy is_read_failure (R.read_failed source.old) (R.read_failed source.new) result }
    ensures writes { FailsBy is_write_failure (W.write_failed sink.old) (W.write_failed sink.new) result }
    ensures silent { engine.now.reports ≢ EachLine → sink.new ≡ sink.old }
{
    let mut block = Vec::new(engine.alloc);
    let block = &mut block;
    if workers > 1 {
        // The room of the block is taken before the threads take theirs.
        let Ok(()) = block.reserve(BLOCK + CHUNK) else {
            return Err(SurveyError::OutOfMemory);
        };
    }
    let mut counting = || -> Result<(), SurveyError>
        requires { (0 < length chunk.now) × IsSurveyLedger [] counted.now.ledger × (counted.now.bytes ≡ 0)
            × (block.now.items ≡ []) }
        ensures { OnOk result (IsSurveyOfRead engine.entry.now.kind (R.left source.entry.now) (R.left source.exit.now)
            counted.exit.now.ledger engine.entry.now.reports (W.written sink.entry.now) (W.written sink.exit.now))
            × OnOk result (R.is_ended source.exit.now ≡ true)
            × OnOk result (IsAtEnd (R.left source.exit.now))
            × IfErr result (λ e. IsLongRead e (R.left source.entry.now) (R.left source.exit.now))
            × FailsBy is_read_failure (R.read_failed source.entry.now) (R.read_failed source.exit.now) result
            × FailsBy is_write_failure (W.write_failed sink.entry.now) (W.write_failed sink.exit.now) result
            × (engine.entry.now.reports ≢ EachLine → sink.exit.now ≡ sink.entry.now) }
    { engine.count_blocks(source, sink, counted, chunk, block) };
    with_workers(engine, workers, &mut counting)
}

/// Reads the lines of a source to its end, a recording each, judges them by this many workers, at most `MAX_WORKERS`,
/// and counts them in order. Where each line is reported, what is found in it is written to the sink; else nothing is
/// written. The calling thread is a worker, and reads. Each other worker has a thread of its own where one can be made,
/// for as long as the survey lasts. Short recordings that a worker keeps while others are judged may be judged by
/// another one, too. The gate hears that a worker begins a recording, that it is a violation, and that the worker is
/// done, by the numbers of the recordings, from 0; of what is judged again it does not hear. Fails by `ReadFailed`
/// exactly where a read failed, by `WriteFailed` where a write did, and by `TooLong` only where 2^64 bytes or more were
/// read. The memory is that of two blocks, or of the longest line, whatever the length. Where lines are recordings
/// within the small limits, one thing is found in a line, however often and by however many workers it is judged, so
/// any two surveys of the same bytes count and report the same.
pub fn survey<T: Threads + Wait + Sync, R: Source, W: Sink, G: Gate>(
    rt: &T,
    alloc: Global,
    kind: LineKind,
    source: &mut R,
    sink: &mut W,
    reports: Reports,
    workers: usize,
    gate: &G,
) -> Result<SurveyLedger, SurveyError>
    ensures whole { IfOk result (λ ledger. IsSurveyOfRead kind (R.left source.old) (R.left source.new) ledger
        reports (W.written sink.old) (W.written sink.new)) }
    ensures known { IfOk result (λ ledger. IfSome (R.left source.old) (λ bytes. IsSurvey kind bytes ledger
        reports (W.written sink.old) (W.written sink.new))) }
    ensures met { OnOk result (R.is_ended source.new ≡ true) }
    ensures all { OnOk result (IsAtEnd (R.left source.new)) }
    ensures long { IfErr result (λ e. IsLongRead e (R.left source.old) (R.left source.new)) }
    ensures long_known { IfErr result (λ e. IfSome (R.left source.old) (λ bytes. IsLong e (length bytes))) }
    ensures reads { FailsBy is_read_failure (R.read_failed source.old) (R.read_failed source.new) result }
    ensures writes { FailsBy is_write_failure (W.write_failed sink.old) (W.write_failed sink.new) result }
    ensures silent { reports ≢ EachLine → sink.new ≡ sink.old }
    ensures findings { EveryLineHasOneFinding }
    ensures counts { EverySurveyCountsTheSame }
    ensures texts { EverySurveyTellsTheSame }
{
    a_survey_is_one();
    let mut counted = Counted {
        ledger: SurveyLedger::count(alloc, &[])?,
        bytes: 0,
    };
    let Ok(mut chunk) = Vec::from_elem(alloc, 0u8, CHUNK) else {
        return Err(SurveyError::OutOfMemory);
    };
    let queue = WorkQueue::new(alloc, room_of(reports), when_late(kind))?;
    let engine = Engine {
        rt,
        alloc,
        kind,
        reports,
        gate,
        queue: &queue,
        batch: batch_of(reports, workers),
    };
    count_by_workers(&engine, source, sink, &mut counted, &mut chunk, workers)?;
    let Counted { ledger, bytes: _ } = counted;
    Ok(ledger)
}
