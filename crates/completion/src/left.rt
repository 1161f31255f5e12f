//! What is left of values while events are taken away.

ghost use Rattle.std.specs.Prelude.{◌≡◌, ◌≤◌, IfOk, length};
ghost use Rattle.common.specs.declared.limits.TheConstants.{MAX_EVENTS};
ghost use Rattle.completion.specs.Left.{IsLeft, LeavesFed};
ghost use Rattle.completion.specs.Pairs.{IsTable};

use crate::dropping::drop_all_unfed;
use crate::restricting::restrict_to;
use crate::table::Placed;
use bitrow::BitRow;
use common::{EventId, OutOfMemory};
use std::alloc::Global;
use values::Values;

/// Some events, and the values with these alone.
#[derive(Drop)]
pub struct Left {
    /// The events as a set.
    pub(crate) row: BitRow,
    /// Their numbers, ascending.
    pub(crate) events: Vec<EventId>,
    /// The values with these events alone.
    pub(crate) values: Values,
}

/// What is left of the events of a row where all reads that are not fed among them are taken away, which something may
/// feed. Fails only if out of memory.
pub(crate) fn left_of(
    alloc: Global,
    values: &Values,
    table: &[Placed],
    row: BitRow,
) -> Result<Left, OutOfMemory>
    requires table { IsTable values.now table.now }
    requires row { length row ≡ length table.now }
    requires few { length table.now ≤ MAX_EVENTS }
    ensures left { IfOk result (IsLeft values.now) }
    ensures leaves { IfOk result (λ l. LeavesFed values.now row l.row) }
{
    let mut row = row;
    drop_all_unfed(values, table, &mut row);
    let events = row.to_numbers(alloc)?;
    let rest = restrict_to(alloc, values, table, &row, &events)?;
    Ok(Left {
        row,
        events,
        values: rest,
    })
}
