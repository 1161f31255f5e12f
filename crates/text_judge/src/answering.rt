//! The answer to the bytes of a recording.

ghost use Rattle.std.specs.Prelude.{◌≤◌, IfOk};
ghost use Rattle.recording.specs.declared.size.RecordingSize.TheVariants.{Short};
ghost use Rattle.text_judge.specs.Answer.{IsAnswerOf, IsLongAnswerOf, IsLongAnswerTo, IsReadOrRefused};

use common::{Gate, MAX_WORKERS, OutOfMemory};
use judge::{judge_alone, judge_gated};
use long::{judge_long, long_text};
use recorder::read_recording_of;
use recording::{Recording, RecordingSize};
use std::alloc::Global;
use std::sync::Wait;
use std::thread::Threads;
use verdicts::{Answer, Outcome, recording_line, verdict_answer};

/// The recording of a size that the bytes are, or what is answered to them, since they are refused. Fails only if out
/// of memory.
pub fn read_or_refuse_of(
    alloc: Global,
    bytes: &[u8],
    size: RecordingSize,
) -> Result<Result<Recording, Answer>, OutOfMemory>
    ensures { IfOk result (IsReadOrRefused size bytes.now) }
{
    match read_recording_of(alloc, bytes, size) {
        Ok(recording) => Ok(Ok(recording)),
        Err(refusal) => match recording_line(alloc, refusal)? {
            Some(line) => Ok(Err(Answer {
                outcome: Outcome::Refused,
                text: line.into_bytes(),
            })),
            None => Err(OutOfMemory),
        },
    }
}

/// The recording that the bytes are, or what is answered to them, since they are refused. Fails only if out of memory.
pub fn read_or_refuse(alloc: Global, bytes: &[u8]) -> Result<Result<Recording, Answer>, OutOfMemory>
    ensures { IfOk result (IsReadOrRefused Short bytes.now) }
{
    read_or_refuse_of(alloc, bytes, RecordingSize::Short)
}

/// The text of the answer to a recording of any length.
fn long_answer_to(alloc: Global, recording: &Recording) -> Result<Answer, OutOfMemory>
    ensures { IfOk result (IsLongAnswerTo recording.now) }
{
    let judged = judge_long(alloc, recording)?;
    long_text(alloc, &judged)
}

/// The text of the answer to the recording of any length that the bytes are, or the line of their refusal: an order,
/// the least overlook, or a cycle of forced pairs of which no event is forced before another than its next. It does not
/// block and starts no thread. Fails only if out of memory.
pub fn long_answer(alloc: Global, bytes: &[u8]) -> Result<Answer, OutOfMemory>
    ensures { IfOk result (IsLongAnswerOf bytes.now) }
{
    match read_or_refuse_of(alloc, bytes, RecordingSize::Long)? {
        Ok(recording) => long_answer_to(alloc, &recording),
        Err(refused) => Ok(refused),
    }
}

/// What `long_answer` answers, to bytes that are given back as soon as they are read.
pub fn long_answer_of(alloc: Global, bytes: Vec<u8>) -> Result<Answer, OutOfMemory>
    ensures { IfOk result (IsLongAnswerOf bytes.items) }
{
    let read = read_or_refuse_of(alloc, &bytes, RecordingSize::Long)?;
    drop(bytes);
    match read {
        Ok(recording) => long_answer_to(alloc, &recording),
        Err(refused) => Ok(refused),
    }
}

/// The text of the verdict on the recording that the bytes are, or the line of their refusal. It does not block
/// and starts no thread. Fails only if out of memory.
pub fn answer_alone(alloc: Global, bytes: &[u8]) -> Result<Answer, OutOfMemory>
    ensures { IfOk result (IsAnswerOf bytes.now) }
{
    match read_or_refuse(alloc, bytes)? {
        Ok(recording) => {
            let verdict = judge_alone(alloc, &recording)?;
            verdict_answer(alloc, Vec::new(alloc), &recording, &verdict)
        }
        Err(refused) => Ok(refused),
    }
}

/// What `answer_alone` answers, by 1 to `MAX_WORKERS` workers that call the gate. It joins the threads that it starts.
/// Fails only if out of memory.
pub fn answer_by<T: Threads + Wait + Sync, G: Gate>(
    rt: &T,
    alloc: Global,
    bytes: &[u8],
    workers: usize,
    gate: &G,
) -> Result<Answer, OutOfMemory>
    requires { (1 ≤ workers) × (workers ≤ MAX_WORKERS) }
    ensures { IfOk result (IsAnswerOf bytes.now) }
{
    match read_or_refuse(alloc, bytes)? {
        Ok(recording) => {
            let verdict = judge_gated(rt, alloc, &recording, workers, gate)?;
            verdict_answer(alloc, Vec::new(alloc), &recording, &verdict)
        }
        Err(refused) => Ok(refused),
    }
}
