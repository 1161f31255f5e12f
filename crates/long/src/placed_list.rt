//! Events in a list, with their places.

use common::{EventId, OutOfMemory};
use relations::{IndexedEvent, Places};
use std::alloc::Global;
use std::marker::Model;

/// Events of a recording in a list, with their places.
#[derive(Drop)]
pub(crate) struct PlacedList<'a> {
    places: &'a Places<'a>,
    numbers: &'a [EventId],
    events: Vec<IndexedEvent>,
}

impl<'a> Model for PlacedList<'a> {
    ghost use Rattle.long.specs.PlacedEvents.{PlacedEvents, ArePlaced, placed_events};

    ghost Value = { PlacedEvents };

    ghost view = { λ p. placed_events p.places.now p.numbers.now };

    ghost invariant = { λ p. ArePlaced (placed_events p.places.now p.numbers.now) p.events.items };
}

impl<'a> PlacedList<'a> {
    ghost use Rattle.std.specs.Prelude.{◌≡◌, ◌<◌, ◌↔◌, ℕ, IsTrue, IfOk, length, slice_index};
    ghost use Rattle.recording.specs.Execution.{event_count};
    ghost use Rattle.relations.specs.Forced.{Forced};
    ghost use Rattle.long.specs.PlacedEvents.{placed_events};

    /// The events with these numbers. Fails only if out of memory.
    pub(crate) fn of(
        alloc: Global,
        places: &'a Places<'a>,
        numbers: &'a [EventId],
    ) -> Result<PlacedList<'a>, OutOfMemory>
        requires { (i : ℕ) → i < length numbers.now → slice_index numbers.now i < event_count places.now }
        ensures { IfOk result (λ list. list ≡ placed_events places.now numbers.now) }
    {
        let mut events = Vec::with_capacity(alloc, numbers.len())?;
        for i in 0..numbers.len() {
            events.push(places.event(numbers[i] as usize))?;
        }
        Ok(PlacedList {
            places,
            numbers,
            events,
        })
    }

    /// How many events there are.
    pub(crate) fn len(&self) -> usize
        ensures { result ≡ length self.now.numbers }
    {
        self.events.len()
    }

    /// Whether every memory order of TSO has the event at one place before the one at another.
    pub(crate) fn forces(&self, first: usize, second: usize) -> bool
        requires first { first < length self.now.numbers }
        requires second { second < length self.now.numbers }
        ensures { IsTrue result ↔ Forced self.now.execution (slice_index self.now.numbers first)
            (slice_index self.now.numbers second) }
    {
        self.events[first].is_forced_before(&self.events[second])
    }
}
