//! The answer to a recording that a source gives, written to a sink.

ghost use Rattle.std.specs.Prelude.{◌≡◌, ◌≢◌, ◌≤◌, ℕ, List, true, Err, IfErr, IfOk, OnOk};
ghost use Rattle.std.specs.Io.KnownBytes.{Consumes, IsAtEnd};
ghost use Rattle.devices.specs.Bytes.{FailsBy};
ghost use Rattle.report.specs.declared.error.ReportError.{ReportError};
ghost use Rattle.report.specs.Errors.{is_read_failure, is_write_failure};
ghost use Rattle.report.specs.Written.{IsBegun, IsPut};
ghost use Rattle.text_judge.specs.Answer.{IsAnswerOf};

use crate::error::ReportError;
use common::{Gate, MAX_WORKERS};
use devices::{Failed, ReadError, Sink, Source, read_all, write_all};
use std::alloc::Global;
use std::sync::Wait;
use std::thread::Threads;
use text_judge::answer_by;
use verdicts::{Answer, Outcome};

/// Reads a recording to the end of a source, judges it by 1 to `MAX_WORKERS` workers, between calls of
/// the gate, and writes the text of its verdict to a sink, or the line of its refusal. It flushes nothing.
/// `ReadFailed` exactly where a read failed, before anything was written; `WriteFailed` exactly where a write
/// failed, after a beginning of the text; `OutOfMemory` before anything was written.
pub fn answer<T: Threads + Wait + Sync, R: Source, W: Sink, G: Gate>(
    rt: &T,
    alloc: Global,
    source: &mut R,
    sink: &mut W,
    workers: usize,
    gate: &G,
) -> Result<Outcome, ReportError>
    requires workers { (1 ≤ workers) × (workers ≤ MAX_WORKERS) }
    ensures whole { IfOk result (λ outcome. (bytes : List ℕ) × Consumes (R.left source.old) (R.left source.new) bytes
        × IsPut (IsAnswerOf bytes) (W.written sink.old) (W.written sink.new) outcome) }
    ensures met { OnOk result (R.is_ended source.new ≡ true) }
    ensures all { OnOk result (IsAtEnd (R.left source.new)) }
    ensures read_before { result ≡ Err ReportError.WriteFailed → (R.is_ended source.new ≡ true)
        × IsAtEnd (R.left source.new) }
    ensures read_failed { FailsBy is_read_failure (R.read_failed source.old) (R.read_failed source.new) result }
    ensures write_failed { FailsBy is_write_failure (W.write_failed sink.old) (W.write_failed sink.new) result }
    ensures begun { result ≡ Err ReportError.WriteFailed → (bytes : List ℕ)
        × Consumes (R.left source.old) (R.left source.new) bytes
        × IsBegun (IsAnswerOf bytes) (W.written sink.old) (W.written sink.new) }
    ensures unwritten { IfErr result (λ e. e ≢ ReportError.WriteFailed → sink.new ≡ sink.old) }
{
    let bytes = match read_all(alloc, source) {
        Ok(bytes) => bytes,
        Err(ReadError::ReadFailed) => return Err(ReportError::ReadFailed),
        Err(ReadError::OutOfMemory) => return Err(ReportError::OutOfMemory),
    };
    let Answer { outcome, text } = answer_by(rt, alloc, &bytes, workers, gate)?;
    match write_all(sink, &text) {
        Ok(()) => Ok(outcome),
        Err(Failed) => Err(ReportError::WriteFailed),
    }
}
