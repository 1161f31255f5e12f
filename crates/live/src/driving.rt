//! Threads that drive a machine to its end.

ghost use Rattle.std.specs.Prelude.{◌≡◌, ◌↔◌, IsTrue, IfOk, IfErr};
ghost use Rattle.recording.specs.Tso.{IsTsoOrder};
ghost use Rattle.machine.specs.Configuration.{recording_of, IsAtEnd};
ghost use Rattle.live.specs.Trace.{IsTrace, IsEnded};
ghost use Rattle.live.specs.Driven.{IsAsRequested, IsDriveError, IsThreadError};

use crate::error::LiveError;
use crate::shared_machine::SharedMachine;
use crate::traced::Traced;
use common::{CoreId, Gate, OutOfMemory};
use machine::Machine;
use program::{Fault, Program};
use std::alloc::Global;
use std::sync::Wait;
use std::thread::Threads;

/// Whether a machine has no fault, is of this program, this capacity and this limit, and is at its end.
fn is_run_of(traced: &Traced, program: &Program, capacity: usize, limit: usize) -> bool
    ensures { IsTrue result ↔ IsAsRequested program.now capacity limit traced.now × IsEnded traced.now }
{
    let machine = traced.machine();
    machine.program().is_same(program)
        && machine.capacity() == capacity
        && machine.fault() == Fault::None
        && traced.limit() == limit
        && traced.is_ended()
}

/// What the threads of a shared machine leave. It takes no memory of its own: `NoThread` where one was not started,
/// else `Stranger` where what they left is not as given or not at its end.
fn drive_threads<R: Threads + Wait + Sync, G: Gate>(
    rt: &R,
    shared: SharedMachine,
    program: &Program,
    capacity: usize,
    limit: usize,
    gate: &G,
) -> Result<Traced, LiveError>
    ensures ok { IfOk result (λ t. IsAsRequested program.now capacity limit t × IsEnded t) }
    ensures err { IfErr result IsThreadError }
{
    if !shared.run(rt, program.cores() as CoreId, gate) {
        return Err(LiveError::NoThread);
    }
    let traced = shared.into_traced();
    if !is_run_of(&traced, program, capacity, limit) {
        return Err(LiveError::Stranger);
    }
    Ok(traced)
}

/// Runs a program on a machine whose buffers have room for `capacity` stores each, by a thread for
/// each core, one for drains and one for caches, until it is complete or has taken `limit` steps.
/// Each step is taken under one lock. The gate hears of each core's first turn, as piece and worker
/// of the core's number. Which steps the threads choose is not said. No clause speaks of threads, lock
/// and gate; tests do.
///
/// Fails if out of memory, before the first thread, or by the threads: `NoThread` where one was not
/// started, else `Stranger` where the machine at the end is not as given or not at its end: so it is
/// where the capacity is 0 and a store keeps the machine from its end.
pub fn drive<R: Threads + Wait + Sync, G: Gate>(
    rt: &R,
    alloc: Global,
    program: Program,
    capacity: usize,
    limit: usize,
    gate: &G,
) -> Result<Traced, LiveError>
    ensures given { IfOk result (IsAsRequested program capacity limit) }
    ensures ended { IfOk result IsEnded }
    ensures replay { IfOk result IsTrace }
    // Where it is complete, the order of what was performed is one that TSO allows.
    ensures tso { IfOk result (λ t. IsAtEnd t.machine
        → IsTsoOrder (recording_of t.machine) t.machine.state.performed) }
    ensures err { IfErr result IsDriveError }
{
    let given = program.copy(alloc)?;
    let machine = Machine::new(alloc, program, capacity, Fault::None)?;
    let shared = SharedMachine::new(Traced::new(alloc, machine, limit)?);
    let traced = drive_threads(rt, shared, &given, capacity, limit, gate)?;
    traced.sound();
    Ok(traced)
}
