//! The events that words ask for: where each stands, and what it reads and writes.

use crate::closing::{word_after, word_at};
use crate::limits::{address_count, external_count};
use crate::word::{Kind, Word, is_external, is_fenced, is_other_address, is_turn, meeting, start};
use common::{Addr, EventId, OutOfMemory};
use recording::{Event, place};
use std::alloc::Global;

/// What a recording is made of.
#[derive(Drop)]
pub(crate) struct Plan {
    /// The events of each core.
    pub(crate) cores: Vec<Vec<Event>>,
    /// The writes of each address, in memory order.
    pub(crate) writes: Vec<Vec<EventId>>,
    /// The event at which each word starts.
    pub(crate) events: Vec<EventId>,
}

/// The word before one of them; before the first comes the last.
fn word_before(words: &[Word], at: usize) -> Word {
    if at == 0 {
        return word_at(words, words.len().saturating_sub(1));
    }
    word_at(words, at - 1)
}

/// Whether a word may lead from the last access of the last core to the first of the first: to another core, or, where
/// there is one core alone, back on it.
fn leads_back(word: Word, cores: usize) -> bool {
    if cores == 0 {
        return matches!(word, Word::Side(_));
    }
    is_external(word)
}

/// The first place after a word that may lead back.
fn first_place(words: &[Word]) -> usize {
    let cores = external_count(words);
    for at in 0..words.len() {
        if leads_back(word_before(words, at), cores) {
            return at;
        }
    }
    0
}

/// The words from a place on, and then those before it.
fn rotate_words(alloc: Global, words: &[Word], first: usize) -> Result<Vec<Word>, OutOfMemory> {
    let mut turned = Vec::new(alloc);
    for i in first..words.len() {
        turned.push(word_at(words, i))?;
    }
    for i in 0..first {
        turned.push(word_at(words, i))?;
    }
    Ok(turned)
}

/// An access: what it does, its number, and its address.
#[derive(Clone, Copy)]
struct Access {
    kind: Kind,
    number: EventId,
    address: Addr,
}

/// The address after one of them; after the last comes the first.
fn address_after(address: Addr, addresses: usize) -> Addr {
    let next = address.wrapping_add(1);
    if next as usize == addresses {
        return 0;
    }
    next
}

/// The accesses of words, core by core, if each two words meet.
fn accesses(alloc: Global, words: &[Word]) -> Result<Option<Vec<Access>>, OutOfMemory> {
    let addresses = address_count(words).max(1);
    let mut found = Vec::new(alloc);
    let mut number: EventId = 0;
    let mut address: Addr = 0;
    for at in 0..words.len() {
        let word = word_at(words, at);
        let Some(kind) = meeting(word_before(words, at), word) else {
            return Ok(None);
        };
        found.push(Access {
            kind,
            number,
            address,
        })?;
        number = number.wrapping_add(1);
        if is_fenced(word) {
            number = number.wrapping_add(1);
        }
        if is_other_address(word) {
            address = address_after(address, addresses);
        }
    }
    Ok(Some(found))
}

/// The first access before which the writes of its address begin: after a word that leads to another address; where
/// none does, after a word in program order; and else within an atomic access.
fn first_turn(words: &[Word]) -> usize {
    for at in 0..words.len() {
        if is_other_address(word_before(words, at)) {
            return at;
        }
    }
    for at in 0..words.len() {
        if matches!(word_before(words, at), Word::Pair(_)) {
            return at;
        }
    }
    for at in 0..words.len() {
        if is_turn(word_before(words, at), word_at(words, at)) {
            return at;
        }
    }
    0
}

/// The writes of each address, and what each access reads.
#[derive(Drop)]
struct Memory {
    writes: Vec<Vec<EventId>>,
    sources: Vec<Option<EventId>>,
}

impl Memory {
    /// No writes of this many addresses, and no sources of this many accesses. Fails only if out of memory.
    fn new(alloc: Global, addresses: usize, accesses: usize) -> Result<Memory, OutOfMemory> {
        let mut writes = Vec::new(alloc);
        for _ in 0..addresses {
            writes.push(Vec::new(alloc))?;
        }
        let mut sources = Vec::new(alloc);
        for _ in 0..accesses {
            sources.push(None)?;
        }
        Ok(Memory { writes, sources })
    }

    /// Reads the last write of an address.
    fn read(&mut self, at: usize, access: Access) {
        let Some(list) = self.writes.get(access.address as usize) else {
            return;
        };
        let last = list.last().copied();
        if let Some(source) = self.sources.get_mut(at) {
            *source = last;
        }
    }

    /// Adds a write of an address.
    fn write(&mut self, access: Access) -> Result<(), OutOfMemory> {
        if let Some(list) = self.writes.get_mut(access.address as usize) {
            list.push(access.number)?;
        }
        Ok(())
    }

    /// Performs an access.
    fn perform(&mut self, at: usize, access: Access) -> Result<(), OutOfMemory> {
        if access.kind != Kind::Store {
            self.read(at, access);
        }
        if access.kind != Kind::Load {
            self.write(access)?;
        }
        Ok(())
    }

    /// The value that a write gives an address: its place in memory order, from 1.
    fn value(&self, address: Addr, write: EventId) -> u32 {
        match self.writes.get(address as usize) {
            Some(list) => u32::try_from(place(list, write))
                .unwrap_or(0)
                .wrapping_add(1),
            None => 0,
        }
    }

    /// The event of an access.
    fn event(&self, at: usize, access: Access) -> Event {
        let a = access.address;
        let s = match self.sources.get(at) {
            Some(source) => *source,
            None => None,
        };
        let r = match s {
            Some(write) => self.value(a, write),
            None => 0,
        };
        match access.kind {
            Kind::Load => Event::L { a, r, s },
            Kind::Store => Event::S {
                a,
                w: self.value(a, access.number),
            },
            Kind::Atomic => Event::R {
                a,
                r,
                s,
                w: self.value(a, access.number),
            },
        }
    }
}

/// Performs all accesses of words, from the first turn on. Where that is within an atomic access, the side of it with
/// which its word starts comes first, and the other last.
fn perform_accesses(
    alloc: Global,
    words: &[Word],
    accesses: &[Access],
) -> Result<Memory, OutOfMemory> {
    let addresses = address_count(words).max(1);
    let mut memory = Memory::new(alloc, addresses, accesses.len())?;
    let first = first_turn(words);
    let is_split = address_count(words) == 0 && matches!(word_before(words, first), Word::Side(_));
    if !is_split {
        perform_between(&mut memory, accesses, first, accesses.len())?;
        perform_between(&mut memory, accesses, 0, first)?;
        return Ok(memory);
    }
    let (earlier, later) = if start(word_at(words, first)).is_store {
        (AtomicSide::Write, AtomicSide::Read)
    } else {
        (AtomicSide::Read, AtomicSide::Write)
    };
    perform_side(&mut memory, accesses, first, earlier)?;
    perform_between(&mut memory, accesses, first.wrapping_add(1), accesses.len())?;
    perform_between(&mut memory, accesses, 0, first)?;
    perform_side(&mut memory, accesses, first, later)?;
    Ok(memory)
}

/// Performs the accesses from one place up to another.
fn perform_between(
    memory: &mut Memory,
    accesses: &[Access],
    from: usize,
    to: usize,
) -> Result<(), OutOfMemory> {
    for at in from..to {
        if let Some(access) = accesses.get(at) {
            memory.perform(at, *access)?;
        }
    }
    Ok(())
}

/// A side of an atomic access.
#[derive(Clone, Copy)]
enum AtomicSide {
    Read,
    Write,
}

/// Performs one side of an atomic access.
fn perform_side(
    memory: &mut Memory,
    accesses: &[Access],
    at: usize,
    side: AtomicSide,
) -> Result<(), OutOfMemory> {
    let Some(access) = accesses.get(at) else {
        return Ok(());
    };
    match side {
        AtomicSide::Read => {
            memory.read(at, *access);
            Ok(())
        }
        AtomicSide::Write => memory.write(*access),
    }
}

/// The events of each core: those of the accesses, and fences.
fn cores(
    alloc: Global,
    words: &[Word],
    accesses: &[Access],
    memory: &Memory,
) -> Result<Vec<Vec<Event>>, OutOfMemory> {
    let mut cores = Vec::new(alloc);
    let mut events = Vec::new(alloc);
    for at in 0..words.len() {
        let Some(access) = accesses.get(at) else {
            return Ok(cores);
        };
        events.push(memory.event(at, *access))?;
        if is_fenced(word_at(words, at)) {
            events.push(Event::F)?;
        }
        if is_external(word_at(words, at)) {
            cores.push(events)?;
            events = Vec::new(alloc);
        }
    }
    if !events.is_empty() {
        cores.push(events)?;
    }
    Ok(cores)
}

/// The numbers of the accesses in the order of the words, of which the first ones stand at the end.
fn numbers(alloc: Global, accesses: &[Access], first: usize) -> Result<Vec<EventId>, OutOfMemory> {
    let mut events = Vec::new(alloc);
    let from = accesses.len().saturating_sub(first);
    for at in from..accesses.len() {
        events.push(accesses[at].number)?;
    }
    for at in 0..from {
        events.push(accesses[at].number)?;
    }
    Ok(events)
}

/// The events that words ask for, if each two words meet: the accesses of each core in program order, in the order in
/// which words lead from one core to another; the writes of each address in the order in which words lead from one to
/// the next. Fails only if out of memory.
pub(crate) fn plan_events(alloc: Global, words: &[Word]) -> Result<Option<Plan>, OutOfMemory> {
    let first = first_place(words);
    let turned = rotate_words(alloc, words, first)?;
    let Some(accesses) = accesses(alloc, &turned)? else {
        return Ok(None);
    };
    let memory = perform_accesses(alloc, &turned, &accesses)?;
    let cores = cores(alloc, &turned, &accesses, &memory)?;
    let events = numbers(alloc, &accesses, first)?;
    let Memory { writes, .. } = memory;
    Ok(Some(Plan {
        cores,
        writes,
        events,
    }))
}
