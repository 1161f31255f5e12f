//! Ways from the beginning of a program.

ghost use Rattle.std.specs.Prelude.{◌≡◌, ◌≢◌, ◌<◌, ◌↔◌, ℕ, IfNone, IfOk, IfSome, IsTrue, Some, length, slice_get};
ghost use Rattle.outcomes.specs.declared.moves.Move.{Move};
ghost use Rattle.outcomes.specs.Situation.{beginning, moved};
ghost use Rattle.outcomes.specs.Reachable.{AreInOrder, after_moves};

use crate::moves::{Move, Turn};
use crate::steps::after;
use common::OutOfMemory;
use program::Program;
use situations::{Row, Rows};
use std::alloc::Global;

/// Whether a move leads from one row to another.
fn leads(
    alloc: Global,
    program: &Program,
    from: &Row,
    to: &Row,
    turn: Turn,
) -> Result<bool, OutOfMemory>
    requires { turn.core < length program.now.cores }
    ensures { IfOk result (λ b. IsTrue b ↔ (moved program.now.cores from.now turn.step turn.core ≡ Some to.now)) }
{
    match after(alloc, program, from, turn.step, turn.core)? {
        Some(next) => Ok(next == *to),
        None => Ok(false),
    }
}

/// A move that leads from one row to another; none where none does.
fn turn_between(
    alloc: Global,
    program: &Program,
    from: &Row,
    to: &Row,
) -> Result<Option<Turn>, OutOfMemory>
    ensures some { IfOk result (λ o. IfSome o
        (λ t. moved program.now.cores from.now t.step t.core ≡ Some to.now)) }
    ensures none { IfOk result (λ o. IfNone o
        ((move : Move) (c : ℕ) → moved program.now.cores from.now move c ≢ Some to.now)) }
{
    for core in 0..program.cores() {
        let exec = Turn {
            step: Move::Exec,
            core,
        };
        if leads(alloc, program, from, to, exec)? {
            return Ok(Some(exec));
        }
        let drain = Turn {
            step: Move::Drain,
            core,
        };
        if leads(alloc, program, from, to, drain)? {
            return Ok(Some(drain));
        }
    }
    Ok(None)
}

/// The moves that lead from the beginning of a program to the row at an index. Fails only if out of memory.
pub(crate) fn way_to(
    alloc: Global,
    program: &Program,
    rows: &Rows,
    at: usize,
) -> Result<Vec<Turn>, OutOfMemory>
    requires order { AreInOrder program.now rows.now.keys }
    requires there { at < length rows.now.keys }
    ensures { IfOk result (λ turns.
        after_moves program.now.cores (beginning program.now) turns.items ≡ slice_get rows.now.keys at) }
{
    let mut turns = Vec::new(alloc);
    let mut to = at;
    for tried in 0..at {
        let from = at - 1 - tried;
        let earlier = rows.row(alloc, from)?;
        let later = rows.row(alloc, to)?;
        match turn_between(alloc, program, &earlier, &later)? {
            Some(turn) => {
                turns.push(turn)?;
                to = from;
            }
            None => {}
        }
    }
    turns.reverse();
    Ok(turns)
}
