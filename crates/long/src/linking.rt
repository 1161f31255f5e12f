//! The forced pairs from which all others follow.

ghost use Rattle.std.specs.Prelude.{◌≡◌, ◌≤◌, ◌<◌, ◌+◌, ◌*◌, ◌↔◌, ℕ, [], IfOk, IsTrue, length};
ghost use Rattle.recording.specs.Execution.{Execution, event_count, ProgramOrder};
ghost use Rattle.order.specs.Open.{IsOpen};
ghost use Rattle.relations.specs.Forced.{Forced, IsCoreStart};
ghost use Rattle.relations.specs.Indexed.{IsIndexed};
ghost use Rattle.long.specs.Chains.{times_kept, times_listed};
ghost use Rattle.long.specs.Linked.{IsLinked};
ghost use Rattle.long.specs.Steps.{IsStep, MayBeLastStore, MayBeLastOther};

use crate::pairs::Pairs;
use common::{CoreId, EventId, OutOfMemory};
use recording::{Event, Recording};
use relations::{IndexedEvent, indexed_event};
use std::alloc::Global;

/// Pairs of events, in the order in which they were put.
#[derive(Drop)]
pub(crate) struct Linked {
    pub(crate) list: Vec<(EventId, EventId)>,
}

/// Whether an event is earlier than another on the core of that one, whose first event this is.
fn is_earlier(start: EventId, first: EventId, second: EventId) -> bool
    ensures { (x : Execution) → IsCoreStart x start second → IsTrue result ↔ ProgramOrder x first second }
{
    start <= first && first < second
}

/// The last event of a core that is no plain load, if it is a plain store, after one more event.
fn last_store(last: Option<EventId>, event: &IndexedEvent) -> Option<EventId>
    ensures { (x : Execution) (start : ℕ) → IsIndexed x event.now → start ≤ event.now.number
        → MayBeLastStore x start last event.now.number → MayBeLastStore x start result (event.now.number + 1) }
{
    if event.is_load {
        return last;
    }
    if event.is_store {
        return Some(event.number);
    }
    None
}

/// The last event of a core that is no plain store, after one more event.
fn last_other(last: Option<EventId>, event: &IndexedEvent) -> Option<EventId>
    ensures { (x : Execution) (start : ℕ) → IsIndexed x event.now → start ≤ event.now.number
        → MayBeLastOther x start last event.now.number → MayBeLastOther x start result (event.now.number + 1) }
{
    if event.is_store {
        return last;
    }
    Some(event.number)
}

impl Linked {
    ghost use Rattle.std.specs.Prelude.{◌≡◌, ◌≤◌, ◌<◌, ◌+◌, ◌*◌, ℕ, [], false, IfOk, OnOk, length};
    ghost use Rattle.recording.specs.Execution.{core_of};
    ghost use Rattle.relations.specs.declared.reason.Reason.TheVariants.{Rf};
    ghost use Rattle.relations.specs.Direct.{IsNextWrite};
    ghost use Rattle.relations.specs.Forced.{Forced, Holds, IsCoreStart};
    ghost use Rattle.relations.specs.Indexed.{AreFrom, IsIndexed};
    ghost use Rattle.long.specs.Chains.{times_listed};
    ghost use Rattle.long.specs.Linked.{HasPairsOf, IsLinked, KeepsPairs};
    ghost use Rattle.long.specs.Steps.{IsLast, IsLastStore, IsNewerStep, MayBeLastOther, MayBeLastStore};

    /// No pair, with room for three of each of these events.
    fn none(alloc: Global, count: usize) -> Result<Linked, OutOfMemory>
        ensures { IfOk result (λ l. l.list.items ≡ []) }
    {
        let list = Vec::with_capacity(alloc, count.saturating_mul(3))?;
        Ok(Linked { list })
    }

    /// Puts a pair that is forced.
    fn put_forced(
        &mut self,
        _recording: &Recording,
        first: EventId,
        second: EventId,
    ) -> Result<(), OutOfMemory>
        requires forced { Forced _recording.now first second }
        requires linked { IsLinked _recording.now self.old }
        ensures few { OnOk result (length self.new.list.items ≤ length self.old.list.items + 1) }
        ensures linked { OnOk result (IsLinked _recording.now self.new) }
        ensures kept { OnOk result (KeepsPairs self.old self.new) }
        ensures here { OnOk result (0 < times_listed self.new.list.items first second) }
    {
        self.list.push((first, second))?;
        Ok(())
    }

    /// Puts the pair of an event and the last event before it on its core that is no plain load, if that is a plain
    /// store and memory order keeps it before. The first event of the core is given.
    fn put_store(
        &mut self,
        recording: &Recording,
        event: &IndexedEvent,
        start: EventId,
        store: Option<EventId>,
    ) -> Result<(), OutOfMemory>
        requires event { IsIndexed recording.now event.now }
        requires start { IsCoreStart recording.now start event.now.number }
        requires store { MayBeLastStore recording.now start store event.now.number }
        requires linked { IsLinked recording.now self.old }
        ensures few { OnOk result (length self.new.list.items ≤ length self.old.list.items + 1) }
        ensures linked { OnOk result (IsLinked recording.now self.new) }
        ensures kept { OnOk result (KeepsPairs self.old self.new) }
        ensures here { OnOk result ((d : ℕ) → IsLastStore recording.now d event.now.number
            → Forced recording.now d event.now.number → 0 < times_listed self.new.list.items d event.now.number) }
    {
        let Some(first) = store else {
            return Ok(());
        };
        if event.is_load {
            return Ok(());
        }
        self.put_forced(recording, first, event.number)
    }

    /// Puts the pair of an event and the last event before it on its core that is no plain store. The first event of
    /// the core is given.
    fn put_other(
        &mut self,
        recording: &Recording,
        event: &IndexedEvent,
        start: EventId,
        other: Option<EventId>,
    ) -> Result<(), OutOfMemory>
        requires event { IsIndexed recording.now event.now }
        requires start { IsCoreStart recording.now start event.now.number }
        requires other { MayBeLastOther recording.now start other event.now.number }
        requires linked { IsLinked recording.now self.old }
        ensures few { OnOk result (length self.new.list.items ≤ length self.old.list.items + 1) }
        ensures linked { OnOk result (IsLinked recording.now self.new) }
        ensures kept { OnOk result (KeepsPairs self.old self.new) }
        ensures here { OnOk result ((d : ℕ) → IsLast recording.now false d event.now.number
            → 0 < times_listed self.new.list.items d event.now.number) }
    {
        match other {
            Some(first) => self.put_forced(recording, first, event.number),
            None => Ok(()),
        }
    }

    /// Puts the pair of an event and its source, if it has one that is not before it on its core. The first event of
    /// the core is given.
    fn put_source(
        &mut self,
        recording: &Recording,
        event: &IndexedEvent,
        start: EventId,
    ) -> Result<(), OutOfMemory>
        requires event { IsIndexed recording.now event.now }
        requires start { IsCoreStart recording.now start event.now.number }
        requires linked { IsLinked recording.now self.old }
        ensures few { OnOk result (length self.new.list.items ≤ length self.old.list.items + 1) }
        ensures linked { OnOk result (IsLinked recording.now self.new) }
        ensures kept { OnOk result (KeepsPairs self.old self.new) }
        ensures here { OnOk result ((d : ℕ) → Holds recording.now Rf d event.now.number
            → 0 < times_listed self.new.list.items d event.now.number) }
    {
        let Some(source) = event.source else {
            return Ok(());
        };
        if is_earlier(start, source, event.number) {
            return Ok(());
        }
        self.put_forced(recording, source, event.number)
    }

    /// Puts the pair of an event and the write after it in its write list, if there is one.
    fn put_next(&mut self, recording: &Recording, event: &IndexedEvent) -> Result<(), OutOfMemory>
        requires event { IsIndexed recording.now event.now }
        requires linked { IsLinked recording.now self.old }
        ensures few { OnOk result (length self.new.list.items ≤ length self.old.list.items + 1) }
        ensures linked { OnOk result (IsLinked recording.now self.new) }
        ensures kept { OnOk result (KeepsPairs self.old self.new) }
        ensures here { OnOk result ((w : ℕ) → IsNextWrite recording.now event.now.number w
            → 0 < times_listed self.new.list.items event.now.number w) }
    {
        let Some(_) = event.writes else {
            return Ok(());
        };
        if event.next == event.number {
            return Ok(());
        }
        self.put_forced(recording, event.number, event.next)
    }

    /// Puts the pair of an event and the first write that is newer than its source, if there is one that is neither the
    /// event nor before it on its core. The first event of the core is given.
    fn put_newer(
        &mut self,
        recording: &Recording,
        event: &IndexedEvent,
        start: EventId,
    ) -> Result<(), OutOfMemory>
        requires event { IsIndexed recording.now event.now }
        requires start { IsCoreStart recording.now start event.now.number }
        requires linked { IsLinked recording.now self.old }
        ensures few { OnOk result (length self.new.list.items ≤ length self.old.list.items + 1) }
        ensures linked { OnOk result (IsLinked recording.now self.new) }
        ensures kept { OnOk result (KeepsPairs self.old self.new) }
        ensures here { OnOk result ((w : ℕ) → IsNewerStep recording.now event.now.number w
            → 0 < times_listed self.new.list.items event.now.number w) }
    {
        let Some(_) = event.reads else {
            return Ok(());
        };
        let newer = event.first_newer;
        if newer == event.number {
            return Ok(());
        }
        if is_earlier(start, newer, event.number) {
            return Ok(());
        }
        self.put_forced(recording, event.number, newer)
    }

    /// Puts the forced pairs that are listed with an event. Given are the first event of its core, and the last ones
    /// before it there: the one that is no plain load, if it is a plain store, and the one that is no plain store.
    fn put_event(
        &mut self,
        recording: &Recording,
        event: &IndexedEvent,
        start: EventId,
        store: Option<EventId>,
        other: Option<EventId>,
    ) -> Result<(), OutOfMemory>
        requires event { IsIndexed recording.now event.now }
        requires start { IsCoreStart recording.now start event.now.number }
        requires store { MayBeLastStore recording.now start store event.now.number }
        requires other { MayBeLastOther recording.now start other event.now.number }
        requires linked { IsLinked recording.now self.old }
        ensures few { OnOk result (length self.new.list.items ≤ length self.old.list.items + 5) }
        ensures linked { OnOk result (IsLinked recording.now self.new) }
        ensures kept { OnOk result (KeepsPairs self.old self.new) }
        ensures here { OnOk result (HasPairsOf recording.now event.now.number self.new) }
    {
        self.put_store(recording, event, start, store)?;
        self.put_other(recording, event, start, other)?;
        self.put_source(recording, event, start)?;
        self.put_next(recording, event)?;
        self.put_newer(recording, event, start)?;
        Ok(())
    }

    /// Puts the forced pairs that are listed with the events of a core, which are numbered from `start` on.
    fn put_core(
        &mut self,
        recording: &Recording,
        core: CoreId,
        events: &[Event],
        start: EventId,
    ) -> Result<(), OutOfMemory>
        requires events { AreFrom recording.now start events.now }
        requires core { (i : ℕ) → i < length events.now → core_of recording.now (start + i) ≡ core }
        requires few { length self.old.list.items ≤ 5 * start }
        requires linked { IsLinked recording.now self.old }
        ensures few { OnOk result (length self.new.list.items ≤ 5 * (start + length events.now)) }
        ensures linked { OnOk result (IsLinked recording.now self.new) }
        ensures kept { OnOk result (KeepsPairs self.old self.new) }
        ensures here { OnOk result ((i : ℕ) → i < length events.now → HasPairsOf recording.now (start + i) self.new) }
    {
        recording.sound();
        let mut store = None;
        let mut other = None;
        for place in 0..events.len() {
            let number = start + place as EventId;
            let event = indexed_event(recording, core, &events[place], number);
            self.put_event(recording, &event, start, store, other)?;
            store = last_store(store, &event);
            other = last_other(other, &event);
        }
        Ok(())
    }
}

/// The forced pairs of a recording from which all others follow where no read overlooks a store, at most five for each
/// event.
pub(crate) fn link_all(alloc: Global, recording: &Recording) -> Result<Linked, OutOfMemory>
    ensures few { IfOk result (λ l. length l.list.items ≤ 5 * event_count recording.now) }
    ensures linked { IfOk result (IsLinked recording.now) }
    ensures enough { IfOk result (λ l. (d e : ℕ) → IsStep recording.now d e
        → 0 < times_listed l.list.items d e) }
{
    recording.sound();
    let mut linked = Linked::none(alloc, recording.len())?;
    let mut start = 0;
    for core in 0..recording.cores().len() {
        let events = &recording.cores()[core];
        linked.put_core(recording, core as CoreId, events, start)?;
        start += events.len() as EventId;
    }
    Ok(linked)
}

/// These pairs, with a chain for each first event, and for each event one more than how often it is the second of a
/// pair.
pub(crate) fn link_chains(
    alloc: Global,
    recording: &Recording,
) -> Result<(Pairs, Vec<u32>), OutOfMemory>
    ensures size { IfOk result (λ r. length r.0.heads ≡ event_count recording.now) }
    ensures few { IfOk result (λ r. length r.0.links ≤ 5 * event_count recording.now) }
    ensures forced { IfOk result (λ r. (d e : ℕ) → 0 < times_kept r.0 d e → Forced recording.now d e) }
    ensures enough { IfOk result (λ r. (d e : ℕ) → IsStep recording.now d e → 0 < times_kept r.0 d e) }
    ensures open { IfOk result (λ r. IsOpen (times_kept r.0) (event_count recording.now) [] r.1.items) }
{
    recording.sound();
    let linked = link_all(alloc, recording)?;
    Pairs::of(alloc, linked.list, recording.len())
}
