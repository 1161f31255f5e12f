//! The items of an outcome.

ghost use Rattle.std.specs.Prelude.{◌≡◌, ◌+◌, ◌^◌, ◌<◌, IfOk, OnOk, length};
ghost use Rattle.outcome_texts.specs.OutcomeText.{items_text, with_cores, with_reads, with_values};

use crate::pieces::{put_read, put_value};
use common::{CoreId, OutOfMemory};
use outcomes::{Outcome, does_read, value_at};
use program::{Op, Program, name_at};
use std::alloc::Global;

/// Adds what the operations of a core read, of which the first has this number.
fn put_reads(
    line: &mut Vec<u8>,
    core: usize,
    first: usize,
    ops: &[Op],
    reads: &[u32],
) -> Result<(), OutOfMemory>
    requires { first + length ops.now < 2 ^ 64 }
    ensures { OnOk result (line.new.items ≡ with_reads line.old.items core 0 first ops.now reads.now) }
{
    let mut k = 0;
    for (i, op) in ops.iter().enumerate() {
        if does_read(*op) {
            put_read(line, core, k, value_at(reads, first + i) as usize)?;
            k += 1;
        }
    }
    Ok(())
}

/// Adds what the operations of all cores read.
fn put_cores(line: &mut Vec<u8>, program: &Program, reads: &[u32]) -> Result<(), OutOfMemory>
    ensures { OnOk result (line.new.items ≡ with_cores line.old.items 0 0 program.now.cores reads.now) }
{
    program.sound();
    let mut first = 0;
    for core in 0..program.cores() {
        let ops = program.ops(core as CoreId);
        put_reads(line, core, first, ops, reads)?;
        first += ops.len();
    }
    Ok(())
}

/// Adds what the addresses end with.
fn put_values(line: &mut Vec<u8>, program: &Program, memory: &[u32]) -> Result<(), OutOfMemory>
    ensures { OnOk result (line.new.items ≡ with_values line.old.items 0 program.now.names memory.now) }
{
    let names = program.names();
    for i in 0..names.len() {
        put_value(line, name_at(names, i), value_at(memory, i) as usize)?;
    }
    Ok(())
}

/// The items of an outcome of a program, as they stand on its line. Fails only if out of memory.
pub fn items_of(alloc: Global, program: &Program, outcome: &Outcome) -> Result<Vec<u8>, OutOfMemory>
    ensures { IfOk result (λ items. items.items ≡ items_text program.now outcome.now) }
{
    let mut items = Vec::new(alloc);
    put_cores(&mut items, program, outcome.reads())?;
    put_values(&mut items, program, outcome.memory())?;
    Ok(items)
}
