//! Rows that a search has seen.

use common::OutOfMemory;
use situations::{Row, Rows};
use std::alloc::Global;

/// Rows that a search has seen, each once, in the order in which they came; and for each, whether it is dead: no way
/// leads from it to the end.
#[derive(Drop)]
pub struct Seen {
    rows: Rows,
    dead: Vec<bool>,
}

impl Seen {
    ghost use Rattle.std.specs.Prelude.{◌≡◌, ◌+◌, ◌^◌, ◌<◌, ◌++◌, ◌∷◌, [], IfNone, IfOk, IfSome, OnOk, Some, false};
    ghost use Rattle.std.specs.Prelude.{true};
    ghost use Rattle.std.specs.Prelude.{length, slice_get, slice_index_or, slice_set};
    ghost use Rattle.std.specs.List.{list_any};
    ghost use Rattle.situations.specs.Row.{FitsAmong, same_situation};
    ghost use Rattle.completion.specs.Seen.{HasNumber};

    /// No rows, of as many cores and addresses. Fails only if out of memory.
    pub(crate) fn new(alloc: Global, cores: usize, addresses: usize) -> Result<Seen, OutOfMemory>
        requires { cores + cores + addresses + addresses < 2 ^ 32 }
        ensures rows { IfOk result (λ seen. seen.rows
            ≡ record { cores = cores; addresses = addresses; notes = addresses; keys = [] }) }
        ensures dead { IfOk result (λ seen. seen.dead.items ≡ []) }
    {
        Ok(Seen {
            rows: Rows::new(alloc, cores, addresses, addresses)?,
            dead: Vec::new(alloc),
        })
    }

    /// How many rows there are.
    pub(crate) fn len(&self) -> usize
        ensures { result ≡ length self.now.rows.keys }
    {
        self.rows.len()
    }

    /// A copy of the row with a number. Fails only if out of memory.
    pub(crate) fn row(&self, alloc: Global, number: usize) -> Result<Row, OutOfMemory>
        requires { number < length self.now.rows.keys }
        ensures { IfOk result (λ r. HasNumber self.now r number) }
    {
        self.rows.row(alloc, number)
    }

    /// The number of a row; none where it was not seen.
    pub(crate) fn number(&mut self, row: &Row) -> Option<usize>
        requires { FitsAmong self.old.rows row.now }
        ensures known { IfSome result (HasNumber self.old row.now) }
        ensures new { IfNone result (list_any (same_situation row.now) self.old.rows.keys ≡ false) }
        ensures kept { self.new ≡ self.old }
    {
        self.rows.number(row)
    }

    /// Whether the row with a number is dead.
    pub(crate) fn is_dead(&self, number: usize) -> bool
        ensures { result ≡ slice_index_or self.now.dead.items number false }
    {
        if number < self.dead.len() {
            self.dead[number]
        } else {
            false
        }
    }

    /// Adds a row that was not seen, and gives its number. Fails only if out of memory, or with 2^32 - 1 rows.
    pub(crate) fn add(&mut self, alloc: Global, row: &Row) -> Result<usize, OutOfMemory>
        requires fits { FitsAmong self.old.rows row.now }
        requires new { list_any (same_situation row.now) self.old.rows.keys ≡ false }
        ensures rows { OnOk result (self.new.rows
            ≡ record self.old.rows { keys = self.old.rows.keys ++ row.now ∷ [] }) }
        ensures dead { OnOk result (self.new.dead.items ≡ self.old.dead.items ++ false ∷ []) }
        ensures number { IfOk result (λ i. i ≡ length self.old.rows.keys) }
    {
        let number = self.rows.len();
        self.rows.push(alloc, row)?;
        self.dead.push(false)?;
        Ok(number)
    }

    /// The row with a number is dead.
    pub(crate) fn bury(&mut self, number: usize)
        requires { number < length self.old.dead.items }
        ensures rows { self.new.rows ≡ self.old.rows }
        ensures dead { self.new.dead.items ≡ slice_set self.old.dead.items number true }
    {
        self.dead[number] = true;
    }
}
