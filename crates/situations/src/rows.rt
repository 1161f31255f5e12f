//! Rows that were seen.

use crate::row::Row;
use crate::set::ListSet;
use common::OutOfMemory;
use std::alloc::Global;
use std::marker::Model;

/// Rows of as many cores, addresses and notes each, in the order in which they came, each once.
#[derive(Drop)]
pub struct Rows {
    /// How many cores each has.
    cores: usize,
    /// How many addresses each has.
    addresses: usize,
    /// How many notes each has.
    notes: usize,
    /// The words of each.
    lists: ListSet,
}

impl Model for Rows {
    ghost use Rattle.std.specs.Prelude.{map};
    ghost use Rattle.situations.specs.Row.{AreOnce, SeenRows, row_of};

    ghost Value = { SeenRows };

    ghost view = { λ r. record {
      cores = r.cores;
      addresses = r.addresses;
      notes = r.notes;
      keys = map (row_of r.cores r.addresses) r.lists.lists;
    } };

    ghost invariant = { λ r. AreOnce r.cores r.addresses r.notes r.lists.width r.lists.lists };
}

impl Rows {
    ghost use Rattle.std.specs.Prelude.{◌≡◌, ◌+◌, ◌^◌, ◌<◌, ◌++◌, ◌∷◌, [], IfNone, IfOk, IfSome, OnOk, Some, false};
    ghost use Rattle.std.specs.Prelude.{length, slice_get};
    ghost use Rattle.std.specs.List.{IsDistinct, list_any};
    ghost use Rattle.indexmap.specs.IndexSet.{insert_key};
    ghost use Rattle.situations.specs.Row.{FitsAmong, same_situation};

    /// No rows, of as many cores, addresses and notes. Fails only if out of memory.
    pub fn new(
        alloc: Global,
        cores: usize,
        addresses: usize,
        notes: usize,
    ) -> Result<Rows, OutOfMemory>
        requires { cores + cores + addresses + notes < 2 ^ 32 }
        ensures { IfOk result (λ rows. rows
            ≡ record { cores = cores; addresses = addresses; notes = notes; keys = [] }) }
    {
        let lists = ListSet::new(alloc, cores + cores + addresses + notes)?;
        Ok(Rows {
            cores,
            addresses,
            notes,
            lists,
        })
    }

    /// What all rows keep. It does nothing.
    pub fn sound(&self)
        ensures { IsDistinct same_situation self.now.keys }
    {
        let _lists = &self.lists;
    }

    /// How many rows there are.
    pub fn len(&self) -> usize
        ensures { result ≡ length self.now.keys }
    {
        self.lists.len()
    }

    /// A copy of the row with a number. Fails only if out of memory.
    pub fn row(&self, alloc: Global, number: usize) -> Result<Row, OutOfMemory>
        requires { number < length self.now.keys }
        ensures row { IfOk result (λ r. slice_get self.now.keys number ≡ Some r) }
        ensures fits { IfOk result (FitsAmong self.now) }
    {
        self.lists.sound();
        let words = self.lists.list(number).copy(alloc)?;
        Ok(Row::new(words, self.cores, self.addresses))
    }

    /// The number of a row; none where it was not seen.
    pub fn number(&mut self, row: &Row) -> Option<usize>
        requires { FitsAmong self.old row.now }
        ensures known { IfSome result (λ i. slice_get self.old.keys i ≡ Some row.now) }
        ensures new { IfNone result (list_any (same_situation row.now) self.old.keys ≡ false) }
        ensures kept { self.new ≡ self.old }
    {
        self.lists.number(row.words())
    }

    /// Adds a row that was not seen. Fails only if out of memory, or with 2^32 - 1 rows.
    pub fn push(&mut self, alloc: Global, row: &Row) -> Result<(), OutOfMemory>
        requires fits { FitsAmong self.old row.now }
        requires new { list_any (same_situation row.now) self.old.keys ≡ false }
        ensures { OnOk result (self.new ≡ record self.old { keys = self.old.keys ++ row.now ∷ [] }) }
    {
        self.lists.sound();
        self.lists.push(alloc, row.words())
    }

    /// Adds a row, unless it is there. Fails only if out of memory, or with 2^32 - 1 rows.
    pub fn insert(&mut self, alloc: Global, row: &Row) -> Result<(), OutOfMemory>
        requires { FitsAmong self.old row.now }
        ensures { OnOk result (self.new ≡ record self.old { keys = insert_key same_situation self.old.keys row.now }) }
    {
        self.lists.sound();
        self.lists.insert(alloc, row.words())
    }
}
