//! Edges of a picture.

ghost use Rattle.std.specs.Prelude.{◌≡◌, slice_get};
ghost use Rattle.drawing.specs.Edges.{edge_to, edge_from, next_on_core, next_in_list};
ghost use Rattle.drawing.specs.Edges.{other_than, first_newer, po_edge, rf_edge, co_edge, fr_edge};
ghost use Rattle.drawing.specs.Edges.{is_same_edge, is_drawn};

use common::{Addr, EventId};
use event_texts::event_of;
use recording::{Recording, place};
use relations::{Reason, first_newer_place};

/// An edge from one event to another, with the reason for it.
#[derive(Clone, Copy)]
pub(crate) struct Edge {
    pub(crate) first: EventId,
    pub(crate) second: EventId,
    pub(crate) reason: Reason,
}

/// An edge to an event, if there is one.
fn edge_to(first: EventId, reason: Reason, second: Option<EventId>) -> Option<Edge>
    ensures { result ≡ edge_to first reason second }
{
    let Some(second) = second else {
        return None;
    };
    Some(Edge {
        first,
        second,
        reason,
    })
}

/// An edge from an event, if there is one.
fn edge_from(second: EventId, reason: Reason, first: Option<EventId>) -> Option<Edge>
    ensures { result ≡ edge_from second reason first }
{
    let Some(first) = first else {
        return None;
    };
    Some(Edge {
        first,
        second,
        reason,
    })
}

/// The event after an event on its core.
#[tactic(auto, unfolding(crate::specs::Edges::next_on_core))]
fn next_on_core(recording: &Recording, number: EventId) -> Option<EventId>
    ensures { result ≡ next_on_core recording.now number }
{
    recording.sound();
    if number as usize + 1 >= recording.len() {
        return None;
    }
    let next = number + 1;
    let (core, _) = event_of(recording, number);
    let (other, _) = event_of(recording, next);
    if other == core { Some(next) } else { None }
}

/// What stands at a place of a list.
fn item_at(list: &[EventId], at: usize) -> Option<EventId>
    ensures { result ≡ slice_get list.now at }
{
    if at < list.len() {
        Some(list[at])
    } else {
        None
    }
}

/// The write after an event in the write list of an address.
fn next_in_list(recording: &Recording, number: EventId, address: Option<Addr>) -> Option<EventId>
    ensures { result ≡ next_in_list recording.now number address }
{
    let Some(address) = address else {
        return None;
    };
    let list = recording.write_list(address);
    item_at(list, place(list, number) + 1)
}

/// An event, if it is not this one.
fn other_than(number: EventId, other: Option<EventId>) -> Option<EventId>
    ensures { result ≡ other_than number other }
{
    let Some(other) = other else {
        return None;
    };
    if other == number { None } else { Some(other) }
}

/// The first write of an address that is newer than what an event read, if it is another event.
fn first_newer(recording: &Recording, number: EventId, address: Option<Addr>) -> Option<EventId>
    ensures { result ≡ first_newer recording.now number address }
{
    let Some(address) = address else {
        return None;
    };
    let list = recording.write_list(address);
    other_than(
        number,
        item_at(list, first_newer_place(list, recording.source(number))),
    )
}

/// The edge of an event to the next of its core.
pub(crate) fn po_edge(recording: &Recording, number: EventId) -> Option<Edge>
    ensures { result ≡ po_edge recording.now number }
{
    edge_to(number, Reason::Po, next_on_core(recording, number))
}

/// The edge to an event from the write that it read.
pub(crate) fn rf_edge(recording: &Recording, number: EventId) -> Option<Edge>
    ensures { result ≡ rf_edge recording.now number }
{
    edge_from(number, Reason::Rf, recording.source(number))
}

/// The edge of an event to the next write of the address that it writes.
pub(crate) fn co_edge(recording: &Recording, number: EventId) -> Option<Edge>
    ensures { result ≡ co_edge recording.now number }
{
    edge_to(
        number,
        Reason::Wo,
        next_in_list(recording, number, recording.written_address(number)),
    )
}

/// The edge of an event to the first write that is newer than what it read.
pub(crate) fn fr_edge(recording: &Recording, number: EventId) -> Option<Edge>
    ensures { result ≡ fr_edge recording.now number }
{
    edge_to(
        number,
        Reason::Fr,
        first_newer(recording, number, recording.read_address(number)),
    )
}

/// Whether two edges are one.
fn is_same_edge(edge: Edge, other: Edge) -> bool
    ensures { result ≡ is_same_edge edge other }
{
    edge.first == other.first && edge.second == other.second && edge.reason == other.reason
}

/// Whether an edge is among some.
pub(crate) fn is_drawn(edges: &[Edge], edge: Edge) -> bool
    ensures { result ≡ is_drawn edges.now edge }
{
    for other in edges {
        if is_same_edge(edge, *other) {
            return true;
        }
    }
    false
}
