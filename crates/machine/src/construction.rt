//! The parts of a new machine.

ghost use Rattle.std.specs.Prelude.{◌≡◌, ◌≤◌, ◌++◌, ◌∷◌, [], length, replicate, IfOk, OnOk, None};
ghost use Rattle.program.specs.Parts.{op_count};
ghost use Rattle.machine.specs.Configuration.{AreUnits};

use crate::bounded::BoundedList;
use common::{EventId, MAX_EVENTS, OutOfMemory};
use core_unit::CoreUnit;
use program::Ops;
use std::alloc::Global;
use write_buffer::WriteBuffer;

/// This many empty lists, each with the same room.
pub(crate) fn bounded_lists<T: Drop>(
    alloc: Global,
    count: usize,
    room: usize,
) -> Result<Vec<BoundedList<T>>, OutOfMemory>
    ensures { IfOk result (λ v. v.items ≡ replicate count (record { items = []; room = room })) }
{
    let mut lists = Vec::with_capacity(alloc, count)?;
    for _ in 0..count {
        lists.push(BoundedList::new(alloc, room)?)?;
    }
    Ok(lists)
}

/// This many empty store buffers of one capacity.
pub(crate) fn buffers_of(
    alloc: Global,
    count: usize,
    capacity: usize,
) -> Result<Vec<WriteBuffer>, OutOfMemory>
    ensures { IfOk result (λ v. v.items
        ≡ replicate count (record { entries = []; capacity = capacity })) }
{
    let mut buffers = Vec::with_capacity(alloc, count)?;
    for _ in 0..count {
        buffers.push(WriteBuffer::new(alloc, capacity)?)?;
    }
    Ok(buffers)
}

/// Each core before its first operation, and how many events there are.
pub(crate) fn units_of(
    alloc: Global,
    program: &[Ops],
) -> Result<(Vec<CoreUnit>, usize), OutOfMemory>
    requires { op_count program.now ≤ MAX_EVENTS }
    ensures { IfOk result (λ r. AreUnits program.now r.0.items r.1) }
{
    let mut units = Vec::new(alloc);
    let mut next = 0;
    for ops in program {
        units.push(CoreUnit::new(next as EventId))?;
        next += ops.as_slice().len();
    }
    Ok((units, next))
}
