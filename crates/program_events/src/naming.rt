//! The program that makes a recording again.

ghost use Rattle.std.specs.Prelude.{◌≡◌, IfOk};
ghost use Rattle.std.specs.List.{AllByRecursion};
ghost use Rattle.program.specs.Parts.{IsSmall};
ghost use Rattle.recording.specs.FirstUse.{IsNumberedByFirstUse};
ghost use Rattle.recording.specs.Recording.{IsShortRecording};
ghost use Rattle.program_events.specs.ProgramOf.{IsProgramOf};
ghost use Rattle.program_events.specs.NamedProgram.{named_program};

use crate::operations::cores_of;
use common::OutOfMemory;
use program::{Program, address_names};
use recording::Recording;
use std::alloc::Global;

/// The initial values, in memory of their own.
fn values_of(alloc: Global, init: &[u32]) -> Result<Vec<u32>, OutOfMemory>
    ensures values { IfOk result (λ values. values.items ≡ init.now) }
    ensures small { IfOk result (λ values. AllByRecursion IsSmall values.items) }
{
    let mut values = Vec::new(alloc);
    for value in init {
        values.push(*value)?;
    }
    Ok(values)
}

/// The program that makes a recording that is no larger, whose addresses are numbered by first use, none unused: the
/// operation that each event came from, the name `a` and its number for each address, and the initial values.
/// Fails only if out of memory.
pub fn named_program(alloc: Global, recording: &Recording) -> Result<Program, OutOfMemory>
    requires short { IsShortRecording recording.now }
    requires numbered { IsNumberedByFirstUse recording.now }
    ensures program { IfOk result (λ program. program ≡ named_program recording.now) }
    ensures made { IfOk result (λ program. IsProgramOf program recording.now) }
{
    recording.sound();
    let names = address_names(alloc, recording.addresses())?;
    let cores = cores_of(alloc, recording)?;
    let init = values_of(alloc, recording.init())?;
    match Program::new(names, cores, init) {
        Some(program) => Ok(program),
        None => unreachable!(),
    }
}
