//! Moves of cores, from one row to another.

ghost use Rattle.std.specs.Prelude.{◌≡◌, ◌+◌, ◌<◌, ◌≤◌, IfOk, Some, length};
ghost use Rattle.std.specs.Prelude.{slice_index_or, []};
ghost use Rattle.outcomes.specs.declared.moves.Move.TheVariants.{Exec, Drain};
ghost use Rattle.outcomes.specs.Situation.{beginning, executed_next, left_by, may_go, modified, moved, ops_of};
ghost use Rattle.outcomes.specs.Situation.{performed};
ghost use Rattle.situations.specs.Situation.{place_of};

use crate::moves::Move;
use crate::ops::past_stores;
use crate::reads::first_event;
use common::{Addr, CoreId, OutOfMemory};
use program::{Op, Program};
use situations::{Row, between, forwarded_value, none_waits, oldest};
use std::alloc::Global;

/// The value that a read-modify-write leaves where it reads this one.
fn left_by(op: Op, value: u32) -> u32
    ensures { result ≡ left_by op value }
{
    match op {
        Op::St(_, _) => value,
        Op::Ld(_) => value,
        Op::Fence => value,
        Op::Swap(_, new) => new,
        Op::Add(_, more) => value.wrapping_add(more),
        Op::Cas(_, expected, new) => { if value == expected { new } else { value } }
    }
}

/// Whether an operation may be executed where these stores wait before it.
fn may_go(waiting: &[Op], op: Op) -> bool
    ensures { result ≡ may_go waiting.now op }
{
    match op {
        Op::St(_, _) => false,
        Op::Ld(_) => true,
        Op::Fence => none_waits(waiting),
        Op::Swap(_, _) => none_waits(waiting),
        Op::Add(_, _) => none_waits(waiting),
        Op::Cas(_, _, _) => none_waits(waiting),
    }
}

/// An event reads an address and writes it at once, as its operation says.
fn modify(row: &mut Row, event: usize, address: Addr, op: Op)
    ensures { row.new ≡ modified row.old event address op }
{
    let value = row.value(address as usize);
    row.note(event, value);
    row.write(address as usize, left_by(op, value));
}

/// What an operation does to values as an event, where these stores wait before it.
fn perform(row: &mut Row, waiting: &[Op], event: usize, op: Op)
    ensures { row.new ≡ performed row.old waiting.now event op }
{
    match op {
        Op::St(_, _) => {}
        Op::Ld(address) => {
            let value = forwarded_value(address, row.value(address as usize), waiting);
            row.note(event, value);
        }
        Op::Fence => {}
        Op::Swap(address, _) => modify(row, event, address, op),
        Op::Add(address, _) => modify(row, event, address, op),
        Op::Cas(address, _, _) => modify(row, event, address, op),
    }
}

/// What the next operation of a core leads to; none where it has to wait.
fn row_after_op(
    alloc: Global,
    program: &Program,
    row: &Row,
    core: usize,
    op: Op,
) -> Result<Option<Row>, OutOfMemory>
    requires core { core < length program.now.cores }
    requires there { place_of row.now core < length (ops_of program.now.cores core) }
    ensures { IfOk result (λ r. r ≡ executed_next program.now.cores row.now core (Some op)) }
{
    program.sound();
    let ops = program.ops(core as CoreId);
    let place = row.place(core);
    let event = first_event(program.lists(), core) + place;
    let waiting = between(ops, row.drained_place(core), place);
    if !may_go(waiting, op) {
        return Ok(None);
    }
    let mut next = row.copy(alloc)?;
    perform(&mut next, waiting, event, op);
    next.go_on(core, past_stores(ops, place + 1));
    Ok(Some(next))
}

/// What executing its next operation leads a core to; none where none is left, or it has to wait.
fn exec(
    alloc: Global,
    program: &Program,
    row: &Row,
    core: usize,
) -> Result<Option<Row>, OutOfMemory>
    requires core { core < length program.now.cores }
    ensures { IfOk result (λ r. r ≡ moved program.now.cores row.now Exec core) }
{
    program.sound();
    let ops = program.ops(core as CoreId);
    let place = row.place(core);
    if place >= ops.len() {
        return Ok(None);
    }
    row_after_op(alloc, program, row, core, ops[place])
}

/// What the oldest waiting store of a core, come to memory, leads to; none where none waits.
fn drain(
    alloc: Global,
    program: &Program,
    row: &Row,
    core: usize,
) -> Result<Option<Row>, OutOfMemory>
    requires core { core < length program.now.cores }
    ensures { IfOk result (λ r. r ≡ moved program.now.cores row.now Drain core) }
{
    program.sound();
    let ops = program.ops(core as CoreId);
    let from = row.drained_place(core);
    let waiting = between(ops, from, row.place(core));
    let Some(store) = oldest(from, waiting) else {
        return Ok(None);
    };
    let mut next = row.copy(alloc)?;
    next.drain(core, store.place + 1);
    next.write(store.address as usize, store.value);
    Ok(Some(next))
}

/// What a move of a core leads to; none where it cannot be made. Fails only if out of memory.
pub(crate) fn after(
    alloc: Global,
    program: &Program,
    row: &Row,
    step: Move,
    core: usize,
) -> Result<Option<Row>, OutOfMemory>
    requires core { core < length program.now.cores }
    ensures { IfOk result (λ r. r ≡ moved program.now.cores row.now step core) }
{
    match step {
        Move::Exec => exec(alloc, program, row, core),
        Move::Drain => drain(alloc, program, row, core),
    }
}
