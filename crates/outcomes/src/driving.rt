//! A machine that makes moves.

ghost use Rattle.std.specs.Prelude.{◌≡◌, ◌<◌, IfOk, IfSome, OnOk, Some, length};
ghost use Rattle.program.specs.Parts.{IsWithin};
ghost use Rattle.outcomes.specs.declared.moves.Move.TheVariants.{Exec, Drain};
ghost use Rattle.outcomes.specs.Follow.{HasComeTo};
ghost use Rattle.outcomes.specs.Reachable.{after_moves};
ghost use Rattle.outcomes.specs.Situation.{beginning, moved};
ghost use Rattle.situations.specs.Situation.{Situation};
ghost use Rattle.outcomes.specs.Witness.{op_moved};

use crate::moves::{Move, Turn};
use crate::opening::{beginning, op_count};
use crate::reads::first_event;
use crate::steps::after;
use common::{CoreId, OutOfMemory};
use machine::Machine;
use program::{Fault, Op, Program};
use program_events::event_of;
use replay::Replay;
use situations::{Row, between, oldest};
use std::alloc::Global;

/// The operation that a move performs; none where it can't be made.
fn op_moved(program: &Program, row: &Row, turn: Turn) -> Option<Op>
    requires { turn.core < length program.now.cores }
    ensures value { result ≡ op_moved program.now.cores row.now turn.step turn.core }
{
    program.sound();
    let ops = program.ops(turn.core as CoreId);
    let place = row.place(turn.core);
    match turn.step {
        Move::Exec => if place < ops.len() {
            Some(ops[place])
        } else {
            None
        },
        Move::Drain => {
            let from = row.drained_place(turn.core);
            match oldest(from, between(ops, from, place)) {
                Some(store) => Some(Op::St(store.address, store.value)),
                None => None,
            }
        }
    }
}

/// A machine that has come to a row makes a move.
fn make(replay: &mut Replay, program: &Program, row: &Row, turn: Turn) -> Result<(), OutOfMemory>
    requires core { turn.core < length program.now.cores }
    requires come { HasComeTo program.now row.now replay.old }
    ensures { OnOk result ((s : Situation) → moved program.now.cores row.now turn.step turn.core ≡ Some s
        → HasComeTo program.now s replay.new) }
{
    program.sound();
    let Some(op) = op_moved(program, row, turn) else {
        return Ok(());
    };
    let core = turn.core as CoreId;
    let first = first_event(program.lists(), turn.core);
    replay.execute_to(core, first + row.place(turn.core))?;
    replay.perform(core, event_of(op, (0, None)))
}

/// A machine that has come to a row makes a move that can be made, and the row is that which it leads to.
fn make_and_follow(
    alloc: Global,
    program: &Program,
    replay: &mut Replay,
    row: &mut Row,
    turn: Turn,
) -> Result<(), OutOfMemory>
    requires come { HasComeTo program.now row.old replay.old }
    requires can { (s : Situation) × (moved program.now.cores row.old turn.step turn.core ≡ Some s) }
    ensures come { OnOk result (HasComeTo program.now row.new replay.new) }
    ensures moved { OnOk result (moved program.now.cores row.old turn.step turn.core ≡ Some row.new) }
{
    make(replay, program, row, turn)?;
    match after(alloc, program, row, turn.step, turn.core)? {
        Some(next) => {
            *row = next;
            Ok(())
        }
        None => unreachable!(),
    }
}

/// A machine of a program at its beginning, whose buffers have room for all operations.
fn open_replay(alloc: Global, program: &Program) -> Result<Replay, OutOfMemory>
    ensures { IfOk result (HasComeTo program.now (beginning program.now)) }
{
    program.sound();
    let capacity = op_count(program.lists());
    let machine = Machine::new(alloc, program.copy(alloc)?, capacity, Fault::None)?;
    Ok(Replay {
        machine,
        steps: Vec::new(alloc),
    })
}

/// A machine at its beginning makes moves that can be made.
fn follow(
    alloc: Global,
    program: &Program,
    replay: &mut Replay,
    turns: &[Turn],
) -> Result<(), OutOfMemory>
    requires begun { HasComeTo program.now (beginning program.now) replay.old }
    requires can { (r : Situation) × (after_moves program.now.cores (beginning program.now) turns.now ≡ Some r) }
    ensures { OnOk result ((r : Situation)
        → after_moves program.now.cores (beginning program.now) turns.now ≡ Some r
        → HasComeTo program.now r replay.new) }
{
    let mut row = beginning(alloc, program)?;
    for turn in turns {
        make_and_follow(alloc, program, replay, &mut row, *turn)?;
    }
    Ok(())
}

/// A machine of a program that has made moves that can be made. Fails only if out of memory.
pub(crate) fn drive(alloc: Global, program: &Program, turns: &[Turn]) -> Result<Replay, OutOfMemory>
    requires { (r : Situation) × (after_moves program.now.cores (beginning program.now) turns.now ≡ Some r) }
    ensures { IfOk result (λ replay. (r : Situation)
        → after_moves program.now.cores (beginning program.now) turns.now ≡ Some r
        → HasComeTo program.now r replay) }
{
    let mut replay = open_replay(alloc, program)?;
    follow(alloc, program, &mut replay, turns)?;
    Ok(replay)
}
