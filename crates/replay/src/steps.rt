//! Steps that perform a memory order.

ghost use Rattle.std.specs.Prelude.{◌≡◌, ◌<◌, ◌≤◌, ℕ, IfOk, length};
ghost use Rattle.recording.specs.Execution.{event_count};
ghost use Rattle.recording.specs.Order.{times};
ghost use Rattle.recording.specs.Tso.{IsTsoOrder};
ghost use Rattle.recording.specs.FirstUse.{IsNumberedByFirstUse};
ghost use Rattle.recording.specs.Recording.{IsShortRecording};
ghost use Rattle.program_events.specs.NamedProgram.{program_of, named_program};
ghost use Rattle.replay.specs.Steps.{most_stores, order_steps, replay_steps};
ghost use Rattle.replay.specs.OrderReplay.{IsReplay};

use crate::law::every_order_is_replayed;
use crate::replaying::Replay;
use crate::stores::most_stores;
use common::{EventId, OutOfMemory};
use machine::{Machine, Step};
use program::{Fault, Program};
use program_events::named_program;
use recording::Recording;
use std::alloc::Global;

/// The steps that perform a memory order of a recording, on a machine of its program; an `Err` only
/// where there is no memory.
fn steps_of(
    alloc: Global,
    machine: Machine,
    recording: &Recording,
    order: &[EventId],
) -> Result<Replay, OutOfMemory>
    requires cores { machine.program.cores ≡ program_of recording.now }
    requires names { length machine.program.names ≡ length recording.now.write_lists }
    requires events { (e : ℕ) → 0 < times order.now e → e < event_count recording.now }
    ensures steps { IfOk result (λ r. r.steps
        ≡ order_steps recording.now machine.capacity machine.fault machine.state order.now) }
    ensures program { IfOk result (λ r. r.machine.program ≡ machine.program) }
{
    recording.sound();
    let mut replay = Replay {
        machine,
        steps: Vec::new(alloc),
    };
    for number in order {
        let (core, event) = match recording.event(*number) {
            Some(placed) => placed,
            None => unreachable!(),
        };
        replay.turn(core, *number, *event)?;
    }
    Ok(replay)
}

/// A program and the steps that perform a TSO order of a recording that is no larger: a machine of this program
/// without fault, whose store buffers have room for the plain stores of a core (`most_stores`),
/// takes them all, comes to its end, and makes this recording again. They are at most three times as
/// many as the events; the addresses of the recording are numbered by first use, and none is unused.
/// Fails only if out of memory.
pub fn replay_steps(
    alloc: Global,
    recording: &Recording,
    order: &[EventId],
) -> Result<(Program, Vec<Step>), OutOfMemory>
    requires short { IsShortRecording recording.now }
    requires numbered { IsNumberedByFirstUse recording.now }
    requires order { IsTsoOrder recording.now order.now }
    ensures program { IfOk result (λ r. r.0 ≡ named_program recording.now) }
    ensures steps { IfOk result (λ r. r.1.items ≡ replay_steps recording.now order.now) }
    ensures replay { IfOk result (λ r. (capacity : ℕ) → most_stores recording.now.cores ≤ capacity
        → IsReplay recording.now order.now r.0 capacity r.1.items) }
{
    every_order_is_replayed();
    recording.sound();
    let program = named_program(alloc, recording)?;
    program.sound();
    let machine = Machine::new(alloc, program, most_stores(recording), Fault::None)?;
    let replay = steps_of(alloc, machine, recording, order)?;
    let Replay { machine, steps } = replay;
    Ok((machine.into_program(), steps))
}
