//! Reading and judging where a growth may be refused: the usual answer, or none where memory ran out and
//! then the usual one. With ample memory each gives the usual answer; `bench/refuse_growths` refuses
//! each growth in turn.

ghost use Rattle.std.specs.Prelude.{◌≤◌};
ghost use Rattle.common.specs.declared.limits.TheConstants.{MAX_WORKERS};

use crate::recordings::{OVERLOOKED_STORE, STORE_BUFFERING, THREE_AND_FOUR};
use common::MAX_EVENTS;
use judge::judge;
use recorder::read_recording;
use recording::{RecError, Recording};
use report::verdict_text;
use std::alloc::Global;
use std::sync::Wait;
use std::test::Fail;
use std::thread::Threads;

/// Whether the text of the verdict begins as usual; none where there was no memory.
fn is_usual<R: Threads + Wait + Sync>(
    rt: &R,
    alloc: Global,
    recording: &Recording,
    workers: usize,
    usual: &str,
) -> Option<bool>
    requires { (1 ≤ workers) × (workers ≤ MAX_WORKERS) }
{
    if recording.len() > MAX_EVENTS {
        return Some(false);
    }
    let Ok(verdict) = judge(rt, alloc, recording, workers) else {
        return None;
    };
    let Ok(text) = verdict_text(alloc, recording, &verdict) else {
        return None;
    };
    Some(text.as_slice().starts_with(usual.as_bytes()))
}

/// Whether a text is judged as usual by this many workers, twice, where at most one growth is refused.
fn is_judged<R: Threads + Wait + Sync>(
    rt: &R,
    alloc: Global,
    text: &str,
    workers: usize,
    usual: &str,
) -> bool
    requires { (1 ≤ workers) × (workers ≤ MAX_WORKERS) }
{
    let recording = match read_recording(alloc, text.as_bytes()) {
        Ok(recording) => recording,
        Err(refusal) => return refusal == RecError::OutOfMemory,
    };
    let first = is_usual(rt, alloc, &recording, workers, usual);
    let second = is_usual(rt, alloc, &recording, workers, usual);
    match (first, second) {
        (Some(first), Some(second)) => first && second,
        (Some(once), None) | (None, Some(once)) => once,
        (None, None) => false,
    }
}

/// An order, an overlook and a cycle, and how their texts begin.
const USUAL: &[(&str, &str)] = &[
    (STORE_BUFFERING, "ordered: 1 2 3 0\n"),
    (OVERLOOKED_STORE, "overlook: load 1 store 0\n"),
    (
        THREE_AND_FOUR,
        "cycle of 3\n4 -> 5 Rf\n5 -> 6 Po\n6 -> 4 Fr\n",
    ),
];

#[test]
fn a_verdict_or_no_memory(rt: HostRuntime) -> Result<(), Fail> {
    for (text, usual) in USUAL {
        assert!(rt; is_judged(&rt, rt.alloc(), *text, 1, *usual));
        assert!(rt; is_judged(&rt, rt.alloc(), *text, 2, *usual));
    }
    Ok(())
}
