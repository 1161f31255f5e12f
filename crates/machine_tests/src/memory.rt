//! Threads where a growth may be refused: the usual end, or none where memory or a thread was not there, and
//! then the usual one. With ample memory each run ends as usual; `bench/refuse_growths` refuses each
//! growth in turn.

use crate::plain::{STORE_BUFFERING, performs_an_order};
use common::OpenGate;
use litmus::{LitmusError, parse};
use live::{LiveError, drive};
use program::Program;
use std::alloc::Global;
use std::sync::Wait;
use std::test::Fail;
use std::thread::Threads;

/// Whether threads drive a program to its end, in an order of TSO; none where there is no memory or no thread.
fn is_driven<R: Threads + Wait + Sync>(rt: &R, alloc: Global, program: Program) -> Option<bool> {
    match drive(rt, alloc, program, 8, 100_000, &OpenGate) {
        Ok(traced) => performs_an_order(alloc, traced.into_machine()).ok(),
        Err(LiveError::OutOfMemory | LiveError::NoThread) => None,
        Err(_) => Some(false),
    }
}

/// Whether threads drive the program of a text to its end, in an order of TSO; none where there is no memory or no
/// thread.
fn is_usual<R: Threads + Wait + Sync>(rt: &R, alloc: Global, text: &str) -> Option<bool> {
    match parse(alloc, text.as_bytes()) {
        Ok(program) => is_driven(rt, alloc, program),
        Err(LitmusError::OutOfMemory) => None,
        Err(_) => Some(false),
    }
}

#[test]
fn a_run_by_threads_or_no_memory(rt: HostRuntime) -> Result<(), Fail> {
    let first = is_usual(&rt, rt.alloc(), STORE_BUFFERING);
    let second = is_usual(&rt, rt.alloc(), STORE_BUFFERING);
    assert!(rt; first != Some(false) && second != Some(false));
    assert!(rt; first.is_some() || second.is_some());
    Ok(())
}
