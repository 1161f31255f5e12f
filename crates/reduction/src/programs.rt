//! The program of the events that are kept.

ghost use Rattle.common.specs.declared.limits.TheConstants.{MAX_RECORDED_EVENTS};
ghost use Rattle.std.specs.Prelude.{◌≡◌, ◌≤◌, IfOk, map, length};
ghost use Rattle.std.specs.List.{IsDistinct};
ghost use Rattle.program.specs.Names.{name_eq, name_at};
ghost use Rattle.recording.specs.Order.{place};
ghost use Rattle.program_events.specs.Operations.{placed_op};
ghost use Rattle.program_events.specs.ProgramOf.{IsProgramOf};
ghost use Rattle.reduction.specs.Restriction.{AreClosed, restriction};
ghost use Rattle.reduction.specs.RestrictedProgram.{readdressed, readdressed_op, restricted_program};

use crate::addresses::addresses_of;
use crate::core_lists::used_cores;
use crate::events::number_in;
use crate::writes::values_of;
use common::{Addr, EventId, OutOfMemory};
use indexmap::IndexSet;
use program::{Name, Op, Ops, Program, name_at};
use recording::Recording;
use std::alloc::Global;

/// The operation of a number, counted core by core; a fence past the last operation.
fn op_at(program: &Program, number: EventId) -> Op
    ensures { result ≡ (placed_op program.now.cores number).1 }
{
    let lists = program.lists();
    let mut rest = number as usize;
    for list in lists {
        let ops = list.as_slice();
        if rest < ops.len() {
            return ops[rest];
        }
        rest -= ops.len();
    }
    Op::Fence
}

/// An operation with its address by its place.
fn readdress(op: Op, addresses: &[Addr]) -> Op
    requires { length addresses.now ≤ MAX_RECORDED_EVENTS }
    ensures { result ≡ readdressed (place addresses.now) op }
{
    match op {
        Op::St(addr, value) => Op::St(number_in(addresses, addr), value),
        Op::Ld(addr) => Op::Ld(number_in(addresses, addr)),
        Op::Fence => Op::Fence,
        Op::Swap(addr, value) => Op::Swap(number_in(addresses, addr), value),
        Op::Add(addr, value) => Op::Add(number_in(addresses, addr), value),
        Op::Cas(addr, expected, value) => Op::Cas(number_in(addresses, addr), expected, value),
    }
}

/// The operations of a core's events, with their addresses by their places.
fn ops_of(
    alloc: Global,
    program: &Program,
    addresses: &[Addr],
    numbers: &[EventId],
) -> Result<Ops, OutOfMemory>
    requires { length addresses.now ≤ MAX_RECORDED_EVENTS }
    ensures { IfOk result (λ ops. ops ≡ map (readdressed_op program.now addresses.now) numbers.now) }
{
    let mut ops = Ops::new(alloc);
    for number in numbers {
        ops.push(readdress(op_at(program, *number), addresses))?;
    }
    Ok(ops)
}

/// The operations of each core's events, with their addresses by their places.
fn cores_of(
    alloc: Global,
    program: &Program,
    addresses: &[Addr],
    cores: &[Vec<EventId>],
) -> Result<Vec<Ops>, OutOfMemory>
    requires { length addresses.now ≤ MAX_RECORDED_EVENTS }
    ensures { IfOk result (λ lists. lists.items
        ≡ map (λ v. map (readdressed_op program.now addresses.now) v.items) cores.now) }
{
    let mut lists = Vec::new(alloc);
    for numbers in cores {
        lists.push(ops_of(alloc, program, addresses, numbers)?)?;
    }
    Ok(lists)
}

/// The names of addresses.
fn names_of(
    alloc: Global,
    program: &Program,
    addresses: &[Addr],
) -> Result<IndexSet<Name>, OutOfMemory>
    requires { IsDistinct name_eq (map (name_at program.now.names) addresses.now) }
    ensures { IfOk result (λ names. names.keys ≡ map (name_at program.now.names) addresses.now) }
{
    let mut names = IndexSet::new(alloc);
    for address in addresses {
        let _new = names.insert(name_at(program.names(), *address as usize))?;
    }
    Ok(names)
}

/// What is left of the program of a recording where the operations of some events alone are kept, with the
/// names and the initial values of the addresses that they use: a program of the recording of these
/// events. Fails only if out of memory.
pub fn restricted_program(
    alloc: Global,
    program: &Program,
    recording: &Recording,
    kept: &[EventId],
) -> Result<Program, OutOfMemory>
    requires closed { AreClosed recording.now kept.now }
    requires program { IsProgramOf program.now recording.now }
    ensures program { IfOk result
        (λ rest. rest ≡ restricted_program program.now recording.now kept.now) }
    ensures made { IfOk result (λ rest. IsProgramOf rest (restriction recording.now kept.now)) }
{
    recording.sound();
    program.sound();
    let addresses = addresses_of(alloc, recording, kept)?;
    let used = used_cores(alloc, recording, kept)?;
    let cores = cores_of(alloc, program, &addresses, &used)?;
    let init = values_of(alloc, recording, &addresses)?;
    let Ok(names) = names_of(alloc, program, &addresses) else {
        return Err(OutOfMemory);
    };
    Ok(Program::of_lawful(names, cores, init))
}
