//! Recordings.

use crate::event::Event;
use crate::fault::RecError;
use crate::numbered::Numbered;
use crate::parts::RecordingParts;
use crate::size::RecordingSize;
use crate::slots::{PackedSlot, PlaceRoom, Slot, WritePlace};
use common::{Addr, CoreId, EventId, OutOfMemory};
use std::alloc::Global;
use std::marker::Model;

/// A recording: the events of each core in program order, and for each address its writes in memory order
/// and its initial value. It has no more cores, events and addresses than `RecordingSize::Long` says. It keeps
/// where each write stands in its write list.
#[derive(Drop)]
pub struct Recording {
    parts: RecordingParts,
    slots: Vec<PackedSlot>,
}

impl Model for Recording {
    ghost use Rattle.recording.specs.Execution.{Execution};
    ghost use Rattle.recording.specs.Listed.{AreAllPlaced};
    ghost use Rattle.recording.specs.Recording.{IsRecording};

    ghost Value = { Execution };

    ghost view = { λ r. r.parts };

    ghost invariant = { λ r. IsRecording r.parts × AreAllPlaced r.parts r.slots.items };
}

impl Recording {
    ghost use Rattle.std.specs.Prelude.{◌≡◌, ◌≤◌, ◌<◌, ℕ, map, ◌↔◌, MatchOption, length, IsOk};
    ghost use Rattle.std.specs.Prelude.{IfOk, IfErr};
    ghost use Rattle.recording.specs.Execution.{event_count, event_at, core_of, initial_value, write_list, Writes};
    ghost use Rattle.recording.specs.WritePlace.{IsWritePlace};
    ghost use Rattle.recording.specs.Recording.{executed, IsRecording, IsRecordingWithin};
    ghost use Rattle.recording.specs.Refusals.{IsRefusal};

    /// The recording of these events, write lists and initial values, which have to be one (`from_parts`
    /// tests it). Fails only if out of memory.
    pub fn new(
        alloc: Global,
        cores: Vec<Vec<Event>>,
        writes: Vec<Vec<EventId>>,
        init: Vec<u32>,
    ) -> Result<Recording, OutOfMemory>
        requires { IsRecording
            (executed (map (λ v. v.items) cores.items) (map (λ v. v.items) writes.items) init.items) }
        ensures { IfOk result (λ r. r
            ≡ executed (map (λ v. v.items) cores.items) (map (λ v. v.items) writes.items) init.items) }
    {
        let parts = RecordingParts::new(cores, writes, init);
        let room = PlaceRoom::new(alloc, parts.len())?;
        Ok(Recording::of_parts(room, parts))
    }

    /// What `new` answers, where there is room for as many events. It takes no memory.
    pub fn in_room(
        room: PlaceRoom,
        cores: Vec<Vec<Event>>,
        writes: Vec<Vec<EventId>>,
        init: Vec<u32>,
    ) -> Recording
        requires fits { event_count
            (executed (map (λ v. v.items) cores.items) (map (λ v. v.items) writes.items) init.items) ≤ room }
        requires recording { IsRecording
            (executed (map (λ v. v.items) cores.items) (map (λ v. v.items) writes.items) init.items) }
        ensures { result
            ≡ executed (map (λ v. v.items) cores.items) (map (λ v. v.items) writes.items) init.items }
    {
        Recording::of_parts(room, RecordingParts::new(cores, writes, init))
    }

    /// The recording of these parts.
    fn of_parts(room: PlaceRoom, parts: RecordingParts) -> Recording
        requires fits { event_count parts ≤ room }
        requires recording { IsRecording parts }
        ensures { result ≡ parts }
    {
        let mut slots = Numbered::new(room, &parts).into_slots();
        let _refused = parts.first_without_list(&mut slots);
        Recording { parts, slots }
    }

    /// The recording of a size of these events, write lists and initial values, or the first refusal: of the
    /// limits, of the least event without its source, of the least event without the value of its
    /// source, of the least address without its write list. Fails only if out of memory.
    pub fn from_parts(
        alloc: Global,
        size: RecordingSize,
        cores: Vec<Vec<Event>>,
        writes: Vec<Vec<EventId>>,
        init: Vec<u32>,
    ) -> Result<Result<Recording, RecError>, OutOfMemory>
        ensures exact { IfOk result (λ r. IsOk r ↔ IsRecordingWithin size
            (executed (map (λ v. v.items) cores.items) (map (λ v. v.items) writes.items) init.items)) }
        ensures ok { IfOk result (λ r. IfOk r (λ r. r
            ≡ executed (map (λ v. v.items) cores.items) (map (λ v. v.items) writes.items) init.items)) }
        ensures size { IfOk result (λ r. IfOk r (IsRecordingWithin size)) }
        ensures err { IfOk result (λ r. IfErr r (λ e. IsRefusal size
            (executed (map (λ v. v.items) cores.items) (map (λ v. v.items) writes.items) init.items) e)) }
    {
        let parts = RecordingParts::new(cores, writes, init);
        match parts.placed(alloc, size)? {
            Ok(slots) => Ok(Ok(Recording { parts, slots })),
            Err(refusal) => Ok(Err(refusal)),
        }
    }

    /// What every recording keeps. It does nothing.
    pub fn sound(&self)
        ensures { IsRecording self.now }
    {
        let _parts = &self.parts;
    }

    /// The events of each core, in program order.
    pub fn cores(&self) -> &[Vec<Event>]
        ensures { map (λ v. v.items) result.now ≡ self.now.cores }
    {
        self.parts.cores()
    }

    /// For each address the numbers of its writes, in memory order.
    pub fn writes(&self) -> &[Vec<EventId>]
        ensures { map (λ v. v.items) result.now ≡ self.now.write_lists }
    {
        self.parts.writes()
    }

    /// For each address the value that it begins with.
    pub fn init(&self) -> &[u32]
        ensures value { result.now ≡ self.now.initial }
        ensures count { length result.now ≡ length self.now.write_lists }
    {
        self.parts.init()
    }

    /// How many events there are.
    pub fn len(&self) -> usize
        ensures { result ≡ event_count self.now }
    {
        self.parts.len()
    }

    /// The core and the event of a number; none past the last event.
    pub fn event(&self, number: EventId) -> Option<(CoreId, &Event)>
        ensures { MatchOption result (event_count self.now ≤ number)
            (λ p. (number < event_count self.now) × (p.0 ≡ core_of self.now number)
            × (p.1.now ≡ event_at self.now number)) }
    {
        self.parts.event(number)
    }

    /// How many addresses have a write list.
    pub fn addresses(&self) -> usize
        ensures { result ≡ length self.now.write_lists }
    {
        self.parts.writes().len()
    }

    /// The writes of an address, in memory order, which is the coherence order (co) of the address;
    /// none where there is no such address.
    pub fn write_list(&self, address: Addr) -> &[EventId]
        ensures { result.now ≡ write_list self.now address }
    {
        self.parts.write_list(address)
    }

    /// Where a write stands in the write list of its address. Of an event that does not write it says nothing.
    pub fn write_place(&self, number: EventId) -> WritePlace
        ensures { (a : ℕ) → Writes self.now number a → IsWritePlace (write_list self.now a) number result }
    {
        let nowhere = WritePlace { place: 0, next: 0 };
        let Some(slot) = self.slots.get(number as usize) else {
            return nowhere;
        };
        match slot.slot() {
            Slot::Placed(place) => place,
            _ => nowhere,
        }
    }

    /// The initial value of an address; 0 where there is no such address.
    pub fn initial_value(&self, address: Addr) -> u32
        ensures { result ≡ initial_value self.now address }
    {
        self.parts.initial_value(address)
    }
}
