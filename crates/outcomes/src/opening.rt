//! Where a program begins.

ghost use Rattle.std.specs.Prelude.{◌≡◌, ◌≤◌, IfOk, map};
ghost use Rattle.common.specs.declared.limits.TheConstants.{MAX_EVENTS};
ghost use Rattle.program.specs.Parts.{op_count};
ghost use Rattle.outcomes.specs.Situation.{beginning, stores_first};

use crate::ops::stores_first;
use common::OutOfMemory;
use program::{Ops, Program};
use situations::Row;
use std::alloc::Global;

/// How many operations there are.
pub(crate) fn op_count(cores: &[Ops]) -> usize
    requires { op_count cores.now ≤ MAX_EVENTS }
    ensures { result ≡ op_count cores.now }
{
    let mut total = 0;
    for ops in cores {
        total += ops.as_slice().len();
    }
    total
}

/// How many plain stores come first on each core.
fn places(alloc: Global, cores: &[Ops]) -> Result<Vec<u32>, OutOfMemory>
    requires { op_count cores.now ≤ MAX_EVENTS }
    ensures { IfOk result (λ v. v.items ≡ map stores_first cores.now) }
{
    let mut places = Vec::new(alloc);
    for ops in cores {
        let first = stores_first(ops.as_slice());
        places.push(first as u32)?;
    }
    Ok(places)
}

/// The row in which a program begins. Fails only if out of memory.
pub fn beginning(alloc: Global, program: &Program) -> Result<Row, OutOfMemory>
    ensures { IfOk result (λ r. r ≡ beginning program.now) }
{
    program.sound();
    let places = places(alloc, program.lists())?;
    let reads = op_count(program.lists());
    Row::begin(alloc, &places, program.init(), reads, 0)
}
