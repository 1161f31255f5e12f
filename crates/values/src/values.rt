//! The values of a run.

ghost use Rattle.std.specs.Prelude.{◌≡◌, IfOk, map};
ghost use Rattle.values.specs.Values.{unsourced};

use common::{Addr, EventId, OutOfMemory};
use recording::Event;
use std::alloc::Global;
use std::marker::Model;

/// The events of each core in program order, without their sources, and for each address the value that it begins
/// with; beside them the sources of reads and the final values of addresses that are known.
#[derive(Drop)]
pub struct Values {
    cores: Vec<Vec<Event>>,
    sources: Vec<Option<Option<EventId>>>,
    init: Vec<u32>,
    final_values: Vec<Option<u32>>,
}

impl Model for Values {
    ghost use Rattle.std.specs.Prelude.{◌≡◌, map};
    ghost use Rattle.values.specs.Values as spec;

    ghost Value = { spec.Values };

    ghost view = { λ v. record {
      cores = map (λ l. l.items) v.cores.items;
      sources = v.sources.items;
      initial = v.init.items;
      final_values = v.final_values.items;
    } };

    ghost invariant = { λ v. map (map spec.unsourced) (map (λ l. l.items) v.cores.items)
        ≡ map (λ l. l.items) v.cores.items };
}

/// An event without its source.
fn without_source(event: Event) -> Event
    ensures { result ≡ unsourced event }
{
    match event {
        Event::L { a, r, .. } => Event::L { a, r, s: None },
        Event::S { a, w } => Event::S { a, w },
        Event::R { a, r, w, .. } => Event::R { a, r, s: None, w },
        Event::C { a, r, .. } => Event::C { a, r, s: None },
        Event::F => Event::F,
    }
}

/// Events without their sources.
fn strip(alloc: Global, events: &[Event]) -> Result<Vec<Event>, OutOfMemory>
    ensures { IfOk result (λ v. v.items ≡ map unsourced events.now) }
{
    let mut stripped = Vec::with_capacity(alloc, events.len())?;
    for event in events {
        stripped.push(without_source(*event))?;
    }
    Ok(stripped)
}

/// The events of all cores without their sources.
fn strip_all(alloc: Global, cores: &[Vec<Event>]) -> Result<Vec<Vec<Event>>, OutOfMemory>
    ensures { IfOk result (λ v. map (λ l. l.items) v.items ≡ map (map unsourced) (map (λ l. l.items) cores.now)) }
{
    let mut stripped = Vec::with_capacity(alloc, cores.len())?;
    for events in cores {
        let one = strip(alloc, events.as_slice())?;
        stripped.push(one)?;
    }
    Ok(stripped)
}

impl Values {
    ghost use Rattle.std.specs.Prelude.{◌≡◌, IfOk, map};
    ghost use Rattle.values.specs.Values.{unsourced, core_events, known_source, known_final};

    /// The values of these events, whose own sources are not looked at, and these initial values; of each event by its
    /// number the source that is known (`Some(None)` is the initial value), and of each address the final value that is
    /// known. What a list is too short for is not known. Fails only if out of memory.
    pub fn new(
        alloc: Global,
        cores: &[Vec<Event>],
        sources: Vec<Option<Option<EventId>>>,
        init: Vec<u32>,
        final_values: Vec<Option<u32>>,
    ) -> Result<Values, OutOfMemory>
        ensures { IfOk result (λ v. v ≡ record {
          cores = map (map unsourced) (map (λ l. l.items) cores.now);
          sources = sources.items;
          initial = init.items;
          final_values = final_values.items;
        }) }
    {
        let cores = strip_all(alloc, cores)?;
        Ok(Values {
            cores,
            sources,
            init,
            final_values,
        })
    }

    /// What all values keep. It does nothing.
    pub fn sound(&self)
        ensures { map (map unsourced) self.now.cores ≡ self.now.cores }
    {
        let _init = &self.init;
    }

    /// The events of each core, in program order.
    pub fn cores(&self) -> &[Vec<Event>]
        ensures { map (λ l. l.items) result.now ≡ self.now.cores }
    {
        self.cores.as_slice()
    }

    /// The events of a core, in program order; none where there is no such core.
    pub fn events(&self, core: usize) -> &[Event]
        ensures { result.now ≡ core_events self.now core }
    {
        if core >= self.cores.len() {
            return &[];
        }
        self.cores[core].as_slice()
    }

    /// For each event by its number the source that is known, if one is; it may be too short.
    pub fn sources(&self) -> &[Option<Option<EventId>>]
        ensures { result.now ≡ self.now.sources }
    {
        self.sources.as_slice()
    }

    /// The source that is known of an event, if one is: `Some(None)` is the initial value.
    pub fn source(&self, event: EventId) -> Option<Option<EventId>>
        ensures { result ≡ known_source self.now event }
    {
        if event as usize >= self.sources.len() {
            return None;
        }
        self.sources[event as usize]
    }

    /// For each address the value that it begins with.
    pub fn init(&self) -> &[u32]
        ensures { result.now ≡ self.now.initial }
    {
        self.init.as_slice()
    }

    /// For each address the value that it ends with, if that is known; it may be too short.
    pub fn final_values(&self) -> &[Option<u32>]
        ensures { result.now ≡ self.now.final_values }
    {
        self.final_values.as_slice()
    }

    /// The value that an address ends with, if that is known.
    pub fn final_value(&self, address: Addr) -> Option<u32>
        ensures { result ≡ known_final self.now address }
    {
        if address as usize >= self.final_values.len() {
            return None;
        }
        self.final_values[address as usize]
    }
}
