//! The search for all that a program can lead to.

ghost use Rattle.std.specs.Prelude.{◌≡◌, ◌<◌, ◌≤◌, ℕ, All, Contains, IfOk, IfNone, IfSome, OnOk, Some};
ghost use Rattle.std.specs.Prelude.{length, slice_get};
ghost use Rattle.outcomes.specs.declared.moves.Move.{Move};
ghost use Rattle.outcomes.specs.Situation.{beginning, moved};
ghost use Rattle.situations.specs.Situation.{Situation};
ghost use Rattle.situations.specs.Row.{FitsAmong};
ghost use Rattle.outcomes.specs.Reachable.{AreInOrder, AreReachable, HasMore, HasMove, HasNext, HasPlace, Grows, Leads};
ghost use Rattle.outcomes.specs.Reachable.{with_next};

use crate::moves::{Move, Turn};
use crate::opening::beginning;
use crate::steps::after;
use common::OutOfMemory;
use program::Program;
use situations::{Row, Rows};
use std::alloc::Global;

/// Adds a row, if there is one, unless it is there.
fn add(alloc: Global, seen: &mut Rows, next: Option<Row>) -> Result<(), OutOfMemory>
    requires { IfSome next (FitsAmong seen.old) }
    ensures { OnOk result (seen.new ≡ record seen.old { keys = with_next seen.old.keys next }) }
{
    match next {
        Some(row) => seen.insert(alloc, &row),
        None => Ok(()),
    }
}

/// Adds what a move of a core leads to from a row that was seen.
fn take(
    alloc: Global,
    program: &Program,
    seen: &mut Rows,
    row: &Row,
    turn: Turn,
) -> Result<(), OutOfMemory>
    requires core { turn.core < length program.now.cores }
    requires there { HasPlace seen.old.keys row.now }
    requires fits { FitsAmong seen.old row.now }
    requires reached { All (Leads program.now.cores (beginning program.now)) seen.old.keys }
    requires order { AreInOrder program.now seen.old.keys }
    ensures grows { OnOk result (Grows seen.old.keys seen.new.keys) }
    ensures reached { OnOk result (All (Leads program.now.cores (beginning program.now)) seen.new.keys) }
    ensures order { OnOk result (AreInOrder program.now seen.new.keys) }
    ensures next { OnOk result (HasMove program.now.cores seen.new.keys row.now turn.step turn.core) }
    ensures rest { OnOk result (seen.new ≡ record seen.old { keys = seen.new.keys }) }
{
    let next = after(alloc, program, row, turn.step, turn.core)?;
    add(alloc, seen, next)
}

/// Adds what all moves lead to from a row that was seen.
fn take_all(alloc: Global, program: &Program, seen: &mut Rows, row: &Row) -> Result<(), OutOfMemory>
    requires there { HasPlace seen.old.keys row.now }
    requires fits { FitsAmong seen.old row.now }
    requires reached { All (Leads program.now.cores (beginning program.now)) seen.old.keys }
    requires order { AreInOrder program.now seen.old.keys }
    ensures grows { OnOk result (Grows seen.old.keys seen.new.keys) }
    ensures reached { OnOk result (All (Leads program.now.cores (beginning program.now)) seen.new.keys) }
    ensures order { OnOk result (AreInOrder program.now seen.new.keys) }
    ensures next { OnOk result (HasNext program.now.cores seen.new.keys row.now) }
{
    for core in 0..program.cores() {
        let exec = Turn {
            step: Move::Exec,
            core,
        };
        let drain = Turn {
            step: Move::Drain,
            core,
        };
        take(alloc, program, seen, row, exec)?;
        take(alloc, program, seen, row, drain)?;
    }
    Ok(())
}

/// Adds what all moves lead to from the row with a number.
fn expand(alloc: Global, program: &Program, seen: &mut Rows, at: usize) -> Result<(), OutOfMemory>
    requires there { at < length seen.old.keys }
    requires reached { All (Leads program.now.cores (beginning program.now)) seen.old.keys }
    requires order { AreInOrder program.now seen.old.keys }
    ensures grows { OnOk result (Grows seen.old.keys seen.new.keys) }
    ensures reached { OnOk result (All (Leads program.now.cores (beginning program.now)) seen.new.keys) }
    ensures order { OnOk result (AreInOrder program.now seen.new.keys) }
    ensures next { OnOk result ((r : Situation) → slice_get seen.old.keys at ≡ Some r
        → HasNext program.now.cores seen.new.keys r) }
{
    let row = seen.row(alloc, at)?;
    take_all(alloc, program, seen, &row)
}

/// The rows that moves lead to from the beginning of a program, each once; None where there are more than
/// `limit`. Fails only if out of memory, or with 2^32 - 1 rows.
pub fn search(alloc: Global, program: &Program, limit: usize) -> Result<Option<Rows>, OutOfMemory>
    ensures found { IfOk result (λ o. IfSome o (λ seen. AreReachable program.now seen.keys)) }
    // None only where there are more.
    ensures more { IfOk result (λ o. IfNone o (HasMore program.now limit)) }
{
    program.sound();
    let first = beginning(alloc, program)?;
    let mut seen = Rows::new(
        alloc,
        first.cores(),
        first.memory().len(),
        first.notes().len(),
    )?;
    seen.insert(alloc, &first)?;
    for at in 0..limit {
        if at == seen.len() {
            return Ok(Some(seen));
        }
        if limit < seen.len() {
            seen.sound();
            return Ok(None);
        }
        expand(alloc, program, &mut seen, at)?;
    }
    if seen.len() == limit {
        return Ok(Some(seen));
    }
    seen.sound();
    Ok(None)
}
