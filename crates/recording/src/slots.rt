//! Where the writes of parts of a recording stand, each at its number.

ghost use Rattle.std.specs.Prelude.{◌≡◌, ◌<◌, ◌≤◌, ◌++◌, ◌∷◌, [], false, length, vec_capacity};
ghost use Rattle.common.specs.declared.limits.TheConstants.{MAX_RECORDED_EVENTS};
ghost use Rattle.recording.specs.Listed.{is_placed, low, unpacked, written, written_of};
ghost use Rattle.recording.specs.declared.slots.Slot.TheVariants.{Placed};

use crate::event::Event;
use common::{Addr, EventId, OutOfMemory};
use std::alloc::Global;
use std::marker::Model;

/// Where a write stands in its write list, and the write after it there; its own number where there is none.
#[derive(Clone, Copy)]
pub struct WritePlace {
    /// Its place, from 0 on.
    pub place: u32,
    /// The write after it.
    pub next: EventId,
}

/// What is known of an event.
#[derive(Clone, Copy)]
pub(crate) enum Slot {
    /// It writes nothing, or an address that is too high for a recording.
    Quiet,
    /// It writes this value to this address, and was not met in a write list.
    Written(Addr, u32),
    /// It was met in the write list of its address, at this place.
    Placed(WritePlace),
}

/// What is known of an event, at its number, in eight bytes.
#[derive(Clone, Copy)]
pub(crate) struct PackedSlot {
    /// The address below `PLACED`; from there on the place, or `QUIET`.
    head: u32,
    /// The value, or the write after it.
    tail: u32,
}

/// The head of the place 0. Addresses are below it.
const PLACED: u32 = 2_147_483_648;

/// The head of an event that writes nothing.
const QUIET: u32 = u32::MAX;

impl PackedSlot {
    /// What is known.
    pub(crate) fn slot(self) -> Slot
        ensures { result ≡ unpacked self }
    {
        if self.head < PLACED {
            return Slot::Written(self.head, self.tail);
        }
        if self.head == QUIET {
            return Slot::Quiet;
        }
        Slot::Placed(WritePlace {
            place: self.head - PLACED,
            next: self.tail,
        })
    }

    /// That an event was met in a write list, at a place.
    pub(crate) fn placed(place: WritePlace) -> PackedSlot
        requires { place.place < MAX_RECORDED_EVENTS }
        ensures { unpacked result ≡ Placed place }
    {
        PackedSlot {
            head: PLACED + place.place,
            tail: place.next,
        }
    }
}

/// The slot of an event that was not met in a write list.
pub(crate) fn slot_of(event: &Event) -> PackedSlot
    ensures written { written_of (unpacked result) ≡ low (written event.now) }
    ensures unmet { is_placed (unpacked result) ≡ false }
{
    if let Some((address, value)) = event.written() {
        if address < PLACED {
            return PackedSlot {
                head: address,
                tail: value,
            };
        }
    }
    PackedSlot {
        head: QUIET,
        tail: 0,
    }
}

/// Adds a slot where there is room. It takes no memory.
pub(crate) fn put_slot(slots: &mut Vec<PackedSlot>, slot: PackedSlot)
    requires { length slots.old.items < vec_capacity slots.old }
    ensures items { slots.new.items ≡ slots.old.items ++ slot ∷ [] }
    ensures room { vec_capacity slots.old ≤ vec_capacity slots.new }
{
    if slots.push(slot).is_err() {
        unreachable!()
    }
}

/// Room for the places of the writes of a recording of at most this many events.
#[derive(Drop)]
pub struct PlaceRoom {
    slots: Vec<PackedSlot>,
    most: usize,
}

impl Model for PlaceRoom {
    ghost use Rattle.std.specs.Prelude.{◌≡◌, ◌≤◌, [], ℕ, vec_capacity};

    ghost Value = { ℕ };

    ghost view = { λ r. r.most };

    ghost invariant = { λ r. (r.slots.items ≡ []) × (r.most ≤ vec_capacity r.slots) };
}

impl PlaceRoom {
    ghost use Rattle.std.specs.Prelude.{◌≡◌, ◌≤◌, [], IfOk, vec_capacity};

    /// Room for this many events. Fails only if out of memory.
    pub fn new(alloc: Global, events: usize) -> Result<PlaceRoom, OutOfMemory>
        ensures { IfOk result (λ room. room ≡ events) }
    {
        Ok(PlaceRoom {
            slots: Vec::with_capacity(alloc, events)?,
            most: events,
        })
    }

    /// No slots, and room for them.
    pub(crate) fn into_slots(self) -> Vec<PackedSlot>
        ensures empty { result.items ≡ [] }
        ensures room { self ≤ vec_capacity result }
    {
        let PlaceRoom { slots, most: _ } = self;
        slots
    }
}
