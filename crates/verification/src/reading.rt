//! The numbers of the text of a verdict, read as those of one.

ghost use Rattle.std.specs.Prelude.{◌≡◌, ◌≤◌, ◌<◌, ◌*◌, ◌^◌, ◌++◌, ◌∷◌, ℕ, List, IfOk, MatchOption, codes, decimal};
ghost use Rattle.std.specs.Prelude.{length};
ghost use Rattle.long.specs.declared.answer.LongAnswer.{LongAnswer as Given};
ghost use Rattle.verification.specs.Spelled.{HasSizes, IsSameAnswer, Spells, SpellsAnswer, pair_numbers};

use crate::numbers::numbers;
use common::{EventId, OutOfMemory};
use long::LongAnswer;
use std::alloc::Global;
use texts::Cursor;

/// Reads an order of this many events.
fn order(
    rest: &mut Cursor<'_>,
    alloc: Global,
    count: usize,
) -> Result<Option<LongAnswer>, OutOfMemory>
    ensures { IfOk result (λ r. (a : Given) (most : ℕ) (later : List ℕ) → HasSizes count most a
        → SpellsAnswer a later (codes "ordered:" ++ rest.old)
        → MatchOption r ⊥ (IsSameAnswer a) × Spells later rest.new) }
{
    let order = numbers(rest, alloc, count)?;
    Ok(Some(LongAnswer::Order(order)))
}

/// Reads a load and a store.
fn overlook(rest: &mut Cursor<'_>, alloc: Global) -> Result<Option<LongAnswer>, OutOfMemory>
    ensures { IfOk result (λ r. (a : Given) (later : List ℕ)
        → SpellsAnswer a later (codes "overlook: load " ++ rest.old)
        → MatchOption r ⊥ (IsSameAnswer a) × Spells later rest.new) }
{
    let pair = numbers(rest, alloc, 2)?;
    if pair.len() < 2 {
        return Ok(None);
    }
    Ok(Some(LongAnswer::Overlook(pair[0], pair[1])))
}

/// The events of a cycle of this length, by the numbers of its pairs: the first number, and the second of each pair but
/// the last.
fn events_of(alloc: Global, numbers: &[u32], size: usize) -> Result<Vec<EventId>, OutOfMemory>
    requires { 2 * size ≤ length numbers.now }
    ensures { IfOk result (λ v. (c : List ℕ) → length c ≡ size → numbers.now ≡ pair_numbers c size → v.items ≡ c) }
{
    let mut events = Vec::with_capacity(alloc, size)?;
    for i in 0..size {
        events.push(numbers[(2 * i).saturating_sub(1)])?;
    }
    Ok(events)
}

/// Reads the length of a cycle of at most this many events, and its events.
fn cycle(
    rest: &mut Cursor<'_>,
    alloc: Global,
    most: usize,
) -> Result<Option<Vec<EventId>>, OutOfMemory>
    requires { most ≤ 2 ^ 62 }
    ensures { IfOk result (λ r. (c later text : List ℕ) → length c ≤ most
        → Spells (pair_numbers c (length c) ++ later) (10 ∷ text) → rest.old ≡ decimal (length c) ++ 10 ∷ text
        → MatchOption r ⊥ (λ v. v.items ≡ c) × Spells later rest.new) }
{
    let Some(size) = rest.number() else {
        return Ok(None);
    };
    if size > most as u64 {
        return Ok(None);
    }
    let size = size as usize;
    let numbers = numbers(rest, alloc, 2 * size)?;
    if numbers.len() < 2 * size {
        return Ok(None);
    }
    let events = events_of(alloc, &numbers, size)?;
    Ok(Some(events))
}

/// Reads a cycle of at most this many events.
fn cyclic(
    rest: &mut Cursor<'_>,
    alloc: Global,
    most: usize,
) -> Result<Option<LongAnswer>, OutOfMemory>
    requires { most ≤ 2 ^ 62 }
    ensures { IfOk result (λ r. (a : Given) (count : ℕ) (later : List ℕ) → HasSizes count most a
        → SpellsAnswer a later (codes "cycle of " ++ rest.old)
        → MatchOption r ⊥ (IsSameAnswer a) × Spells later rest.new) }
{
    match cycle(rest, alloc, most)? {
        Some(events) => Ok(Some(LongAnswer::Cycle(events))),
        None => Ok(None),
    }
}

/// Reads an order of this many events, an overlook, or a cycle of at most so many, whatever stands between the numbers.
pub(crate) fn read_answer(
    rest: &mut Cursor<'_>,
    alloc: Global,
    count: usize,
    most: usize,
) -> Result<Option<LongAnswer>, OutOfMemory>
    requires { most ≤ 2 ^ 62 }
    ensures { IfOk result (λ r. (a : Given) (later : List ℕ) → HasSizes count most a → SpellsAnswer a later rest.old
        → MatchOption r ⊥ (IsSameAnswer a) × Spells later rest.new) }
{
    if rest.take(b"ordered:") {
        return order(rest, alloc, count);
    }
    if rest.take(b"overlook: load ") {
        return overlook(rest, alloc);
    }
    if rest.take(b"cycle of ") {
        return cyclic(rest, alloc, most);
    }
    Ok(None)
}
