//! Whether a recording is one of a program.

ghost use Rattle.std.specs.Prelude.{◌≡◌, ◌↔◌, IsTrue};
ghost use Rattle.program_events.specs.ProgramOf.{Makes, AreOpsOf, IsProgramOf};

use crate::made::event_of;
use program::{Op, Program};
use recording::{Event, Recording};

/// Whether an operation makes an event, from the value that the event read and its source.
fn makes(op: Op, event: &Event) -> bool
    ensures { IsTrue result ↔ Makes op event.now }
{
    event_of(op, (event.value_read(), event.source())) == *event
}

/// Whether there is an operation for each event, which makes it.
fn are_ops_of(ops: &[Op], events: &[Event]) -> bool
    ensures { IsTrue result ↔ AreOpsOf ops.now events.now }
{
    if ops.len() != events.len() {
        return false;
    }
    for i in 0..ops.len() {
        if !makes(ops[i], &events[i]) {
            return false;
        }
    }
    true
}

/// Whether the values are the same.
fn are_same_values(values: &[u32], others: &[u32]) -> bool
    ensures { IsTrue result ↔ (values.now ≡ others.now) }
{
    values == others
}

/// Whether a recording is one of a program: the operations of each core make its events, from the
/// values that these read, and the addresses begin with the program's values.
pub fn is_program_of(program: &Program, recording: &Recording) -> bool
    ensures { IsTrue result ↔ IsProgramOf program.now recording.now }
{
    let cores = recording.cores();
    if program.cores() != cores.len() {
        return false;
    }
    for core in 0..cores.len() {
        if !are_ops_of(program.lists()[core].as_slice(), &cores[core]) {
            return false;
        }
    }
    are_same_values(program.init(), recording.init())
}
