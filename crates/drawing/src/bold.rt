//! The edges that an answer is about.

ghost use Rattle.std.specs.Prelude.{◌<◌, IfOk, length};
ghost use Rattle.relations.specs.Cycle.{IsCycle};
ghost use Rattle.relations.specs.Forced.{Forced};
ghost use Rattle.long.specs.Answer.{IsWitness};
ghost use Rattle.long.specs.declared.answer.LongAnswer.TheVariants.{Overlook};
ghost use Rattle.drawing.specs.Bold.{IsCycleEdge, AreCycleEdges, AreBold};

use crate::edges::Edge;
use common::{EventId, OutOfMemory};
use long::LongAnswer;
use recording::Recording;
use relations::{Places, Reason, next_in_cycle};
use std::alloc::Global;

/// The edge from a place of a cycle to the event after it.
fn cycle_edge(places: &Places<'_>, cycle: &[EventId], i: usize) -> Edge
    requires within { i < length cycle.now }
    requires cycle { IsCycle (Forced places.now) cycle.now }
    ensures { IsCycleEdge places.now cycle.now i result }
{
    let first = cycle[i];
    let second = next_in_cycle(cycle, i);
    Edge {
        first,
        second,
        reason: places.forced_reason(first, second),
    }
}

/// The edges of a cycle.
fn cycle_edges(
    alloc: Global,
    places: &Places<'_>,
    cycle: &[EventId],
) -> Result<Vec<Edge>, OutOfMemory>
    requires { IsCycle (Forced places.now) cycle.now }
    ensures { IfOk result (λ edges. AreCycleEdges places.now cycle.now (length cycle.now) edges.items) }
{
    let mut edges = Vec::new(alloc);
    for i in 0..cycle.len() {
        edges.push(cycle_edge(places, cycle, i))?;
    }
    Ok(edges)
}

/// The edges of an overlook.
fn overlook_edges(
    alloc: Global,
    recording: &Recording,
    load: EventId,
    store: EventId,
) -> Result<Vec<Edge>, OutOfMemory>
    ensures { IfOk result (λ edges. AreBold recording.now (Overlook load store) edges.items) }
{
    let mut edges = Vec::new(alloc);
    edges.push(Edge {
        first: store,
        second: load,
        reason: Reason::Po,
    })?;
    edges.push(Edge {
        first: load,
        second: store,
        reason: Reason::Fr,
    })?;
    Ok(edges)
}

/// The edges that an answer is about: those of a cycle, by the first reason of each; of an overlook the
/// store before the load in program order, and the load before the store since it read an older value.
pub(crate) fn bold_edges(
    alloc: Global,
    recording: &Recording,
    answer: &LongAnswer,
) -> Result<Vec<Edge>, OutOfMemory>
    requires { IsWitness recording.now answer.now }
    ensures { IfOk result (λ edges. AreBold recording.now answer.now edges.items) }
{
    match answer {
        LongAnswer::Order(_) => Ok(Vec::new(alloc)),
        LongAnswer::Overlook(load, store) => overlook_edges(alloc, recording, *load, *store),
        LongAnswer::Cycle(cycle) => {
            let places = Places::of(alloc, recording)?;
            cycle_edges(alloc, &places, cycle)
        }
    }
}
