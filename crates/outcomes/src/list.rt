//! The outcomes that TSO allows of a program.

ghost use Rattle.std.specs.Prelude.{◌≡◌, ◌<◌, ◌≤◌, ◌↔◌, ℕ, All, Contains, IfNone, IfOk, IfSome, OnOk, IsTrue, length};
ghost use Rattle.outcomes.specs.Outcome.{AreOutcomes};
ghost use Rattle.outcomes.specs.Situation.{IsEnd, IsOver};
ghost use Rattle.situations.specs.Situation.{Situation};
ghost use Rattle.outcomes.specs.Reachable.{AreReachable, HasMore, outcome_in};
ghost use Rattle.std.specs.List.{IsDistinct};
ghost use Rattle.std.specs.List.Sorted.{IsSorted};
ghost use Rattle.outcomes.specs.Listed.{AreEndings, IsEnding, compared, same_outcome, with_outcome};

use crate::law::every_outcome_is_reached;
use crate::outcome::Outcome;
use crate::seen::search;
use common::{CoreId, OutOfMemory};
use indexmap::IndexSet;
use program::Program;
use situations::{Row, Rows, between, oldest};
use std::alloc::Global;

/// Whether a core has come to its end.
fn is_over(program: &Program, row: &Row, core: usize) -> bool
    requires { core < length program.now.cores }
    ensures { IsTrue result ↔ IsOver program.now.cores row.now core }
{
    program.sound();
    let ops = program.ops(core as CoreId);
    let place = row.place(core);
    if place < ops.len() {
        return false;
    }
    let from = row.drained_place(core);
    oldest(from, between(ops, from, place)).is_none()
}

/// Whether every core has come to its end.
pub(crate) fn is_end(program: &Program, row: &Row) -> bool
    ensures { IsTrue result ↔ IsEnd program.now.cores row.now }
{
    for core in 0..program.cores() {
        if !is_over(program, row, core) {
            return false;
        }
    }
    true
}

/// Adds the outcome of a row, unless it is there.
fn add(alloc: Global, row: &Row, found: &mut IndexSet<Outcome>) -> Result<(), OutOfMemory>
    ensures { OnOk result (found.new.keys ≡ with_outcome found.old.keys (outcome_in row.now)) }
{
    let reads = Vec::from_slice(alloc, row.notes())?;
    let memory = Vec::from_slice(alloc, row.memory())?;
    let _new = found.insert(Outcome::new(reads, memory))?;
    Ok(())
}

/// The outcomes of the rows in which every core has come to its end.
fn endings(alloc: Global, program: &Program, rows: &Rows) -> Result<IndexSet<Outcome>, OutOfMemory>
    ensures { IfOk result (λ found. AreEndings program.now.cores rows.now.keys found.keys) }
{
    let mut found = IndexSet::new(alloc);
    for at in 0..rows.len() {
        let row = rows.row(alloc, at)?;
        if is_end(program, &row) {
            add(alloc, &row, &mut found)?;
        }
    }
    Ok(found)
}

/// The outcomes that TSO allows of a program, by all rows that moves lead to: each once, in dictionary order. Fails
/// only if out of memory.
pub(crate) fn list_outcomes(
    alloc: Global,
    program: &Program,
    rows: &Rows,
) -> Result<IndexSet<Outcome>, OutOfMemory>
    requires { AreReachable program.now rows.now.keys }
    ensures exact { IfOk result (λ found. AreOutcomes program.now found.keys) }
    ensures sorted { IfOk result (λ found. IsSorted compared found.keys) }
    ensures once { IfOk result (λ found. IsDistinct same_outcome found.keys) }
    ensures ending { IfOk result (λ found. All (IsEnding program.now.cores rows.now.keys) found.keys) }
{
    every_outcome_is_reached();
    program.sound();
    let mut found = endings(alloc, program, rows)?;
    found.sort()?;
    Ok(found)
}

/// The outcomes that TSO allows of a program, each once, in dictionary order; None where the search would look at more
/// than `limit` situations. Fails only if out of memory.
pub fn outcomes(
    alloc: Global,
    program: &Program,
    limit: usize,
) -> Result<Option<IndexSet<Outcome>>, OutOfMemory>
    ensures exact { IfOk result (λ o. IfSome o (λ found. AreOutcomes program.now found.keys)) }
    ensures more { IfOk result (λ o. IfNone o (HasMore program.now limit)) }
    ensures sorted { IfOk result (λ o. IfSome o (λ found. IsSorted compared found.keys)) }
    ensures once { IfOk result (λ o. IfSome o (λ found. IsDistinct same_outcome found.keys)) }
{
    let Some(seen) = search(alloc, program, limit)? else {
        return Ok(None);
    };
    Ok(Some(list_outcomes(alloc, program, &seen)?))
}
