//! A recording that is not yet written.

use crate::bounded::BoundedList;
use crate::construction::bounded_lists;
use crate::record::{record_all, unwrap_all};
use common::{EventId, OutOfMemory};
use program::Ops;
use recording::{Event, PlaceRoom};
use std::alloc::Global;
use std::marker::Model;

/// The room for a recording: for each core's events, for the write lists and for the places of writes; and the initial
/// values.
#[derive(Drop)]
pub(crate) struct Blank {
    cores: BoundedList<Vec<Event>>,
    events: Vec<BoundedList<Event>>,
    room: usize,
    writes: BoundedList<Vec<EventId>>,
    places: PlaceRoom,
    init: Vec<u32>,
}

/// The parts of a recording, and room for the places of its writes.
#[derive(Drop)]
pub(crate) struct Filled {
    pub(crate) places: PlaceRoom,
    pub(crate) cores: Vec<Vec<Event>>,
    pub(crate) writes: Vec<Vec<EventId>>,
    pub(crate) init: Vec<u32>,
}

impl Model for Blank {
    ghost use Rattle.std.specs.Prelude.{◌≡◌, [], replicate};
    ghost use Rattle.machine.specs.Configuration.{BlankSize};

    ghost Value = { BlankSize };

    ghost view = { λ b. record {
      cores = b.cores.room;
      events = b.room;
      addresses = b.writes.room;
      initial = b.init.items;
    } };

    ghost invariant = { λ b. (b.cores.items ≡ []) × (b.writes.items ≡ []) × (b.places ≡ b.room)
        × (b.events.items ≡ replicate b.cores.room (record { items = []; room = b.room })) };
}

impl Blank {
    ghost use Rattle.std.specs.Prelude.{◌≡◌, ◌≤◌, length, map, IfOk};
    ghost use Rattle.program.specs.Parts.{op_count};
    ghost use Rattle.machine.specs.State.{cores_from};

    /// Room for the recording of this many cores and events, and of as many addresses as there are
    /// initial values, with a copy of these.
    pub(crate) fn new(
        alloc: Global,
        cores: usize,
        events: usize,
        init: &[u32],
    ) -> Result<Blank, OutOfMemory>
        ensures { IfOk result (λ b. b ≡ record {
          cores = cores;
          events = events;
          addresses = length init.now;
          initial = init.now;
        }) }
    {
        Ok(Blank {
            cores: BoundedList::new(alloc, cores)?,
            events: bounded_lists(alloc, cores, events)?,
            room: events,
            writes: BoundedList::new(alloc, init.len())?,
            places: PlaceRoom::new(alloc, events)?,
            init: Vec::from_slice(alloc, init)?,
        })
    }

    /// The events of a program's operations from what they read, the write lists, and the initial
    /// values. It can't run out of memory.
    pub(crate) fn fill(
        self,
        program: &[Ops],
        reads: &[(u32, Option<EventId>)],
        writes: Vec<BoundedList<EventId>>,
    ) -> Filled
        requires cores { self.cores ≡ length program.now }
        requires events { self.events ≡ length reads.now }
        requires addresses { self.addresses ≡ length writes.items }
        requires fits { op_count program.now ≤ length reads.now }
        ensures places { result.places ≡ self.events }
        ensures cores { map (λ v. v.items) result.cores.items ≡ cores_from 0 program.now reads.now }
        ensures writes { map (λ v. v.items) result.writes.items ≡ map (λ b. b.items) writes.items }
        ensures initial { result.init.items ≡ self.initial }
    {
        let Blank {
            cores,
            events,
            writes: lists,
            places,
            init,
            ..
        } = self;
        Filled {
            places,
            cores: record_all(cores, events, program, reads),
            writes: unwrap_all(lists, writes),
            init,
        }
    }
}
