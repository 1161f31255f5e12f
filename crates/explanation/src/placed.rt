//! Places in a memory order, in constant time, and in write lists, in time logarithmic in the number of cores.

ghost use Rattle.std.specs.Prelude.{◌≡◌, ◌≢◌, ◌<◌, ℕ, length, slice_index};
ghost use Rattle.recording.specs.Execution.{write_list};
ghost use Rattle.recording.specs.Order.{place};

use common::{Addr, EventId, OutOfMemory};
use recording::place;
use relations::Places;
use std::alloc::Global;
use std::marker::Model;

/// Puts the place of an event, where there is room for it.
fn put_place(places: &mut [usize], event: EventId, at: usize)
    ensures size { length places.new ≡ length places.old }
    ensures here { event < length places.old → slice_index places.new event ≡ at }
    ensures others { (e : ℕ) → e ≢ event → slice_index places.new e ≡ slice_index places.old e }
{
    if (event as usize) < places.len() {
        places[event as usize] = at;
    }
}

/// A memory order, with the place of each event in it.
#[derive(Drop)]
pub(crate) struct PlacedOrder<'a> {
    order: &'a [EventId],
    places: Vec<usize>,
}

impl<'a> Model for PlacedOrder<'a> {
    ghost use Rattle.std.specs.Prelude.{◌≡◌, ◌<◌, ℕ, List, length, slice_index};
    ghost use Rattle.recording.specs.Order.{place};

    ghost Value = { List ℕ };

    ghost view = { λ p. p.order.now };

    ghost invariant = { λ p. (e : ℕ) → e < length p.places.items
        → slice_index p.places.items e ≡ place p.order.now e };
}

impl<'a> PlacedOrder<'a> {
    ghost use Rattle.std.specs.Prelude.{◌≡◌, IfOk};
    ghost use Rattle.recording.specs.Order.{place};

    /// An order, with the places of this many events.
    pub(crate) fn of(
        alloc: Global,
        order: &'a [EventId],
        count: usize,
    ) -> Result<PlacedOrder<'a>, OutOfMemory>
        ensures { IfOk result (λ placed. placed ≡ order.now) }
    {
        let mut places = vec![in alloc; order.len(); count]?;
        for i in 0..order.len() {
            let at = order.len() - 1 - i;
            put_place(&mut places, order[at], at);
        }
        Ok(PlacedOrder { order, places })
    }

    /// Where an event first stands; the length where it does not.
    pub(crate) fn place(&self, event: EventId) -> usize
        ensures { result ≡ place self.now event }
    {
        if (event as usize) < self.places.len() {
            return self.places[event as usize];
        }
        place(self.order, event)
    }
}

/// Where an event stands in the write list of an address; its length where it does not.
pub(crate) fn place_in_list(places: &Places<'_>, address: Addr, event: EventId) -> usize
    ensures { result ≡ place (write_list places.now address) event }
{
    if (event as usize) < places.len() {
        let placed = places.event(event as usize);
        if let Some(own) = placed.writes {
            if own == address {
                return placed.place as usize;
            }
        }
    }
    place(places.write_list(address), event)
}

/// The event at a place of the write list of an address; 0 past the last.
pub(crate) fn write_at(places: &Places<'_>, address: Addr, at: usize) -> EventId
    ensures { result ≡ slice_index (write_list places.now address) at }
{
    places.write_list(address).get(at).copied().unwrap_or(0)
}
