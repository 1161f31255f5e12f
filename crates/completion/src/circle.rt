//! A circle of events, of which each comes before the next.

ghost use Rattle.std.specs.Prelude.{All, IfOk, IfSome, IsTrue};
ghost use Rattle.values.specs.Values.{Values};
ghost use Rattle.completion.specs.Circle.{IsCircle, IsRound};
ghost use Rattle.completion.specs.Inferred.{AreInferred, IsLink};
ghost use Rattle.completion.specs.Pairs.{IsSquare};

use crate::cause::Link;
use crate::inferred::Inferred;
use crate::pairs::{has, has_circle};
use crate::way::{places_by_second, way_back};
use common::OutOfMemory;
use std::alloc::Global;
use values::Values;

/// Fewest links that lead from an event back to it, and no more than `most`, if it comes before itself; else none. The
/// places are those of `places_by_second`.
fn round_at(
    alloc: Global,
    inferred: &Inferred,
    places: &[Vec<usize>],
    event: usize,
    most: usize,
) -> Result<Vec<Link>, OutOfMemory>
    requires { IsSquare inferred.now.rows.items }
    ensures { IfOk result (λ round. (v : Values) → All (IsLink v) inferred.now.links.items
        → All (IsLink v) round.items) }
{
    if !has(&inferred.rows, event, event) {
        return Ok(Vec::new(alloc));
    }
    let round = way_back(alloc, &inferred.links, places, event, most)?;
    Ok(round)
}

/// How many links a round may have that is shorter than one before, if there was one.
fn most_links(inferred: &Inferred, shortest: &[Link]) -> usize {
    if shortest.is_empty() {
        inferred.links.len()
    } else {
        shortest.len() - 1
    }
}

/// The shorter of two rounds, of which each has links or is none; the first of two that are as long.
fn shorter(first: Vec<Link>, second: Vec<Link>) -> Vec<Link>
    ensures { (v : Values) → All (IsLink v) first.items → All (IsLink v) second.items → All (IsLink v) result.items }
{
    if first.is_empty() {
        return second;
    }
    if second.is_empty() || first.len() <= second.len() {
        return first;
    }
    second
}

/// Fewest links that lead from an event back to it, for the least such event; none where there are none.
fn shortest_round(
    alloc: Global,
    values: &Values,
    inferred: &Inferred,
) -> Result<Vec<Link>, OutOfMemory>
    requires { AreInferred values.now inferred.now }
    ensures { IfOk result (λ round. All (IsLink values.now) round.items) }
{
    let _values = values;
    let count = inferred.rows.len();
    let places = places_by_second(alloc, &inferred.links, count)?;
    let mut shortest = Vec::new(alloc);
    for event in 0..count {
        let most = most_links(inferred, &shortest);
        let round = round_at(alloc, inferred, &places, event, most)?;
        shortest = shorter(shortest, round);
    }
    Ok(shortest)
}

/// Whether links follow one another and lead from an event back to it.
fn is_round(links: &[Link]) -> bool
    ensures { IsTrue result → IsRound links.now }
{
    if links.is_empty() {
        return false;
    }
    let start = links[0].first;
    let mut event = start;
    for link in links {
        if link.first != event {
            return false;
        }
        event = link.second;
    }
    event == start
}

/// A circle of the links that rules put, as short as any, where some event comes before itself; else none. It is the
/// same for the same values. Fails only if out of memory.
pub(crate) fn circle_of(
    alloc: Global,
    values: &Values,
    inferred: &Inferred,
) -> Result<Option<Vec<Link>>, OutOfMemory>
    requires { AreInferred values.now inferred.now }
    ensures { IfOk result (λ found. IfSome found (λ circle. IsCircle values.now circle.items)) }
{
    if !has_circle(&inferred.rows) {
        return Ok(None);
    }
    let round = shortest_round(alloc, values, inferred)?;
    if !is_round(&round) {
        return Ok(None);
    }
    Ok(Some(round))
}
