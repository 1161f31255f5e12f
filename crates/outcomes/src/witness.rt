//! Recordings of the first outcome with some values.

ghost use Rattle.std.specs.Prelude.{◌≡◌, ◌↔◌, ℕ, IfNone, IfOk, IfSome, IsTrue, option_map};
ghost use Rattle.outcomes.specs.Listed.{IsEnding};
ghost use Rattle.outcomes.specs.Reachable.{AreReachable, outcome_in};
ghost use Rattle.outcomes.specs.Situation.{IsEnd};
ghost use Rattle.outcomes.specs.Witness.{IsEndingAt, IsRecordingOf, IsWitness, first_showing};

use crate::driving::drive;
use crate::list::{is_end, list_outcomes};
use crate::observed::{Observation, shows_all};
use crate::outcome::Outcome;
use crate::seen::search;
use crate::way::way_to;
use common::OutOfMemory;
use program::Program;
use recording::Recording;
use situations::{Row, Rows};
use std::alloc::Global;

/// What is known of executions with some values.
#[derive(Drop)]
pub enum Witness {
    /// A recording of the first outcome that has them.
    Found(Recording),
    /// TSO allows no outcome that has them.
    Forbidden,
    /// There are more states than may be looked at.
    Unfinished,
}

/// The first of these outcomes that has the values.
fn first_showing<'a>(outcomes: &'a [Outcome], seen: &[Observation]) -> Option<&'a Outcome>
    ensures { option_map (λ o. o.now) result ≡ first_showing outcomes.now seen.now }
{
    for outcome in outcomes {
        if shows_all(outcome, seen) {
            return Some(outcome);
        }
    }
    None
}

/// Whether a row is at its end, with this outcome.
fn comes_to(program: &Program, row: &Row, outcome: &Outcome) -> bool
    ensures { IsTrue result ↔ (IsEnd program.now.cores row.now × (outcome_in row.now ≡ outcome.now)) }
{
    row.notes() == outcome.reads() && row.memory() == outcome.memory() && is_end(program, row)
}

/// The index of a row at its end with this outcome, where there is one.
fn ending_with(
    alloc: Global,
    program: &Program,
    rows: &Rows,
    outcome: &Outcome,
) -> Result<Option<usize>, OutOfMemory>
    ensures some { IfOk result (λ o. IfSome o (IsEndingAt program.now.cores rows.now.keys outcome.now)) }
    ensures none { IfOk result (λ o. IfNone o (IsEnding program.now.cores rows.now.keys outcome.now → ⊥)) }
{
    for at in 0..rows.len() {
        let row = rows.row(alloc, at)?;
        if comes_to(program, &row, outcome) {
            return Ok(Some(at));
        }
    }
    Ok(None)
}

/// A recording of an outcome to which one of the rows comes.
fn recording_of(
    alloc: Global,
    program: &Program,
    rows: &Rows,
    outcome: &Outcome,
) -> Result<Recording, OutOfMemory>
    requires reachable { AreReachable program.now rows.now.keys }
    requires ending { IsEnding program.now.cores rows.now.keys outcome.now }
    ensures { IfOk result (IsRecordingOf program.now outcome.now) }
{
    program.sound();
    let Some(at) = ending_with(alloc, program, rows, outcome)? else {
        unreachable!()
    };
    let turns = way_to(alloc, program, rows, at)?;
    let replay = drive(alloc, program, &turns)?;
    match replay.machine.finish() {
        Ok(recording) => Ok(recording),
        Err(_) => unreachable!(),
    }
}

/// What these rows, to which moves lead, show of the values: a recording of the first outcome that has them, or that
/// none has.
fn witness_among(
    alloc: Global,
    program: &Program,
    rows: &Rows,
    seen: &[Observation],
) -> Result<Witness, OutOfMemory>
    requires { AreReachable program.now rows.now.keys }
    ensures { IfOk result (λ witness. (limit : ℕ) → IsWitness program.now limit seen.now witness) }
{
    let found = list_outcomes(alloc, program, rows)?;
    match first_showing(found.as_slice(), seen) {
        Some(outcome) => Ok(Witness::Found(recording_of(alloc, program, rows, outcome)?)),
        None => Ok(Witness::Forbidden),
    }
}

/// A recording of the first outcome of a program that has the values, where TSO allows one and no more than `limit`
/// situations have to be looked at. Fails only if out of memory.
pub fn first_recording(
    alloc: Global,
    program: &Program,
    seen: &[Observation],
    limit: usize,
) -> Result<Witness, OutOfMemory>
    ensures { IfOk result (IsWitness program.now limit seen.now) }
{
    match search(alloc, program, limit)? {
        Some(rows) => witness_among(alloc, program, &rows, seen),
        None => Ok(Witness::Unfinished),
    }
}
