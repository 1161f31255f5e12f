//! Situations, as rows of numbers.

ghost use Rattle.std.specs.Prelude.{◌≡◌, ◌+◌, ◌^◌, ◌<◌, ◌++◌, IfOk, OnOk, length, replicate};

use crate::memory::value_at;
use common::OutOfMemory;
use std::alloc::Global;
use std::marker::Model;

/// How far each core of a machine with store buffers over one memory is, and memory: what a search knows again.
#[derive(Drop)]
pub struct Row {
    /// For each core its place, then for each the place up to which memory has its stores; then the values of the
    /// addresses, and the notes.
    words: Vec<u32>,
    /// How many cores there are.
    cores: usize,
    /// How many addresses there are.
    addresses: usize,
}

impl Model for Row {
    ghost use Rattle.std.specs.Prelude.{◌+◌, ◌≤◌, length};
    ghost use Rattle.situations.specs.Row.{row_of};
    ghost use Rattle.situations.specs.Situation.{Situation};

    ghost Value = { Situation };

    ghost view = { λ r. row_of r.cores r.addresses r.words.items };

    ghost invariant = { λ r. r.cores + r.cores + r.addresses ≤ length r.words.items };
}

impl PartialEq for Row {
    ghost use Rattle.std.specs.Cmp.Rules.{comparing};
    ghost use Rattle.std.proofs.Common.{rules};
    ghost use Rattle.situations.specs.Row.{same_situation};

    ghost eq = { same_situation };

    ghost laws = { Prim.search (comparing, rules) };

    fn eq(&self, other: &Row) -> bool {
        self.places() == other.places()
            && self.drains() == other.drains()
            && self.memory() == other.memory()
            && self.notes() == other.notes()
    }
}

/// Adds a word so many times.
fn add_times(words: &mut Vec<u32>, count: usize, word: u32) -> Result<(), OutOfMemory>
    ensures { OnOk result (words.new.items ≡ words.old.items ++ replicate count word) }
{
    let old = words.len();
    words.resize(old.saturating_add(count), word)?;
    Ok(())
}

impl Row {
    ghost use Rattle.std.specs.Prelude.{◌≡◌, ◌+◌, ◌^◌, ◌<◌, ◌≤◌, IfOk, length, slice_index};
    ghost use Rattle.situations.specs.Row.{begun, row_of};
    ghost use Rattle.situations.specs.Situation.{place_of, drained_of, with_note, with_value, with_drained, with_place};

    /// The row of these words.
    pub(crate) fn new(words: Vec<u32>, cores: usize, addresses: usize) -> Row
        requires { cores + cores + addresses ≤ length words.items }
        ensures { result ≡ row_of cores addresses words.items }
    {
        Row {
            words,
            cores,
            addresses,
        }
    }

    /// The row of cores that are at these places, with these values in memory, which has no store yet, and each of so
    /// many notes this. Fails only if out of memory.
    pub fn begin(
        alloc: Global,
        places: &[u32],
        memory: &[u32],
        notes: usize,
        note: u32,
    ) -> Result<Row, OutOfMemory>
        ensures { IfOk result (λ r. r ≡ begun places.now memory.now notes note) }
    {
        let mut words = Vec::from_slice(alloc, places)?;
        add_times(&mut words, places.len(), 0)?;
        words.extend_from_slice(memory)?;
        add_times(&mut words, notes, note)?;
        Ok(Row::new(words, places.len(), memory.len()))
    }

    /// A copy of the row. Fails only if out of memory.
    pub fn copy(&self, alloc: Global) -> Result<Row, OutOfMemory>
        ensures { IfOk result (λ r. r ≡ self.now) }
    {
        let words = Vec::from_slice(alloc, &self.words)?;
        Ok(Row {
            words,
            cores: self.cores,
            addresses: self.addresses,
        })
    }

    /// All words of the row: its places and drains, then the values of the addresses, and the notes.
    pub(crate) fn words(&self) -> &[u32]
        ensures row { row_of (length self.now.places) (length self.now.memory) result.now ≡ self.now }
        ensures many { length result.now
            ≡ length self.now.places + length self.now.places + length self.now.memory + length self.now.notes }
    {
        &self.words
    }

    /// How many cores there are.
    pub fn cores(&self) -> usize
        ensures { result ≡ length self.now.places }
    {
        self.cores
    }

    /// For each core the place of the first of its steps that it has not executed.
    fn places(&self) -> &[u32]
        ensures { result.now ≡ self.now.places }
    {
        &self.words[..self.cores]
    }

    /// For each core the place after its last store that memory has.
    fn drains(&self) -> &[u32]
        ensures { result.now ≡ self.now.drained }
    {
        let rest = &self.words[self.cores..];
        &rest[..self.cores]
    }

    /// The place of the first step that a core has not executed.
    pub fn place(&self, core: usize) -> usize
        ensures value { result ≡ place_of self.now core }
        ensures few { result < 2 ^ 32 }
    {
        value_at(self.places(), core) as usize
    }

    /// The place after the last store of a core that memory has.
    pub fn drained_place(&self, core: usize) -> usize
        ensures value { result ≡ drained_of self.now core }
        ensures few { result < 2 ^ 32 }
    {
        value_at(self.drains(), core) as usize
    }

    /// The value that an address has in memory.
    pub fn value(&self, address: usize) -> u32
        ensures { result ≡ slice_index self.now.memory address }
    {
        value_at(self.memory(), address)
    }

    /// The values of the addresses in memory.
    pub fn memory(&self) -> &[u32]
        ensures { result.now ≡ self.now.memory }
    {
        let rest = &self.words[self.cores + self.cores..];
        &rest[..self.addresses]
    }

    /// What else is told apart.
    pub fn notes(&self) -> &[u32]
        ensures { result.now ≡ self.now.notes }
    {
        &self.words[self.cores + self.cores + self.addresses..]
    }

    /// A core goes on to a place.
    pub fn go_on(&mut self, core: usize, place: usize)
        requires { place < 2 ^ 32 }
        ensures { self.new ≡ with_place self.old core place }
    {
        if core < self.cores {
            self.words[core] = place as u32;
        }
    }

    /// Memory has the stores of a core before a place.
    pub fn drain(&mut self, core: usize, place: usize)
        requires { place < 2 ^ 32 }
        ensures { self.new ≡ with_drained self.old core place }
    {
        if core < self.cores {
            let at = self.cores + core;
            self.words[at] = place as u32;
        }
    }

    /// An address has a value.
    pub fn write(&mut self, address: usize, value: u32)
        ensures { self.new ≡ with_value self.old address value }
    {
        if address < self.addresses {
            let at = self.cores + self.cores + address;
            self.words[at] = value;
        }
    }

    /// Puts a note at an index; nothing past the end.
    pub fn note(&mut self, index: usize, note: u32)
        ensures { self.new ≡ with_note self.old index note }
    {
        let first = self.cores + self.cores + self.addresses;
        if index < self.words.len() - first {
            self.words[first + index] = note;
        }
    }
}
