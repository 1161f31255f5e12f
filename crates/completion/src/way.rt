//! Ways along links, by breadth-first search.

ghost use Rattle.std.specs.Prelude.{All, IfOk};
ghost use Rattle.values.specs.Values.{Values};
ghost use Rattle.completion.specs.Inferred.{IsLink};

use crate::cause::Link;
use common::OutOfMemory;
use std::alloc::Global;

/// A link by its place among all; one more than the number of the step that comes after it on the way, 0 where none
/// does; and how many links the way has from it on.
#[derive(Clone, Copy)]
struct Step {
    link: usize,
    then: usize,
    length: usize,
}

/// The steps by which events were reached, backwards, and which events were.
#[derive(Drop)]
struct Walk {
    steps: Vec<Step>,
    reached: Vec<bool>,
}

/// For each event the places of the links that lead to it.
pub(crate) fn places_by_second(
    alloc: Global,
    links: &[Link],
    count: usize,
) -> Result<Vec<Vec<usize>>, OutOfMemory> {
    let mut places = Vec::with_capacity(alloc, count)?;
    for _ in 0..count {
        places.push(Vec::new(alloc))?;
    }
    for place in 0..links.len() {
        let second = links[place].second;
        if second < places.len() {
            places[second].push(place)?;
        }
    }
    Ok(places)
}

/// How many links a way has that begins before a step, by one more than its number.
fn length_before(walk: &Walk, then: usize) -> usize {
    if then == 0 || then > walk.steps.len() {
        return 1;
    }
    walk.steps[then - 1].length.saturating_add(1)
}

/// Takes the links that lead to an event from events that were not reached.
fn reach(
    walk: &mut Walk,
    links: &[Link],
    places: &[Vec<usize>],
    event: usize,
    then: usize,
) -> Result<(), OutOfMemory> {
    if event >= places.len() {
        return Ok(());
    }
    let length = length_before(walk, then);
    for place in &places[event] {
        let link = *place;
        if link < links.len() {
            let first = links[link].first;
            if first < walk.reached.len() && !walk.reached[first] {
                walk.reached[first] = true;
                walk.steps.push(Step { link, then, length })?;
            }
        }
    }
    Ok(())
}

/// The links of the steps from one on.
fn links_from(
    alloc: Global,
    links: &[Link],
    steps: &[Step],
    first: usize,
) -> Result<Vec<Link>, OutOfMemory>
    ensures { IfOk result (λ way. (v : Values) → All (IsLink v) links.now → All (IsLink v) way.items) }
{
    let mut way = Vec::new(alloc);
    let mut number = first;
    for _ in 0..steps.len() {
        if number >= steps.len() || steps[number].link >= links.len() {
            return Ok(way);
        }
        way.push(links[steps[number].link])?;
        let then = steps[number].then;
        if then == 0 {
            return Ok(way);
        }
        number = then - 1;
    }
    Ok(way)
}

/// Goes back from an event along links until a step begins at the event, and gives its number; none where no way of at
/// most `most` links does.
fn walk_back(
    walk: &mut Walk,
    links: &[Link],
    places: &[Vec<usize>],
    event: usize,
    most: usize,
) -> Result<Option<usize>, OutOfMemory> {
    reach(walk, links, places, event, 0)?;
    for number in 0..places.len() {
        if number >= walk.steps.len() || walk.steps[number].link >= links.len() {
            return Ok(None);
        }
        let first = links[walk.steps[number].link].first;
        if first == event {
            return Ok(Some(number));
        }
        if walk.steps[number].length < most {
            reach(walk, links, places, first, number + 1)?;
        }
    }
    Ok(None)
}

/// Fewest links that lead from an event back to it, and no more than `most`; none where there are none. The places are
/// those of `places_by_second`.
pub(crate) fn way_back(
    alloc: Global,
    links: &[Link],
    places: &[Vec<usize>],
    event: usize,
    most: usize,
) -> Result<Vec<Link>, OutOfMemory>
    ensures { IfOk result (λ way. (v : Values) → All (IsLink v) links.now → All (IsLink v) way.items) }
{
    if most == 0 {
        return Ok(Vec::new(alloc));
    }
    let mut walk = Walk {
        steps: Vec::new(alloc),
        reached: vec![in alloc; false; places.len()]?,
    };
    match walk_back(&mut walk, links, places, event, most)? {
        Some(number) => links_from(alloc, links, &walk.steps, number),
        None => Ok(Vec::new(alloc)),
    }
}
