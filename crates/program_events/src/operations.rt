//! The operations that events came from.

ghost use Rattle.std.specs.Prelude.{◌≡◌, IfOk, map};
ghost use Rattle.std.specs.List.{AllByRecursion};
ghost use Rattle.program.specs.Parts.{Small};
ghost use Rattle.program_events.specs.NamedProgram.{op_of, program_of};

use common::OutOfMemory;
use program::{Op, Ops};
use recording::{Event, Recording};
use std::alloc::Global;

/// The operation that an event came from; a read-modify-write is a swap of what it wrote, and a
/// compare-and-swap that failed expects another value than it read.
fn op_of(event: Event) -> Op
    ensures op { result ≡ op_of event }
    ensures small { Small result }
{
    match event {
        Event::L { a, .. } => Op::Ld(a),
        Event::S { a, w } => Op::St(a, w),
        Event::R { a, w, .. } => Op::Swap(a, w),
        Event::C { a, r, .. } => Op::Cas(a, r.wrapping_add(1), 0),
        Event::F => Op::Fence,
    }
}

/// The operations that the events of a core came from.
fn ops_of(alloc: Global, events: &[Event]) -> Result<Ops, OutOfMemory>
    ensures ops { IfOk result (λ ops. ops ≡ map op_of events.now) }
    ensures small { IfOk result (λ ops. AllByRecursion Small ops) }
{
    let mut ops = Ops::new(alloc);
    for event in events {
        ops.push(op_of(*event))?;
    }
    Ok(ops)
}

/// The operations of each core.
pub(crate) fn cores_of(alloc: Global, recording: &Recording) -> Result<Vec<Ops>, OutOfMemory>
    ensures cores { IfOk result (λ cores. cores.items ≡ program_of recording.now) }
    ensures small { IfOk result (λ cores. AllByRecursion (AllByRecursion Small) cores.items) }
{
    let lists = recording.cores();
    let mut cores = Vec::new(alloc);
    for events in lists {
        cores.push(ops_of(alloc, events.as_slice())?)?;
    }
    Ok(cores)
}
