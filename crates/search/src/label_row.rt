//! Rows of labels.

use crate::cut::cut_at;
use common::EventId;
use relations::Relation;
use std::marker::Model;
use std::sync::Arc;

/// The least numbers of steps from one event to each, cut at the length of a cycle or at the number
/// of events.
pub struct LabelRow {
    relation: Arc<Relation>,
    source: EventId,
    cap: Option<u16>,
    numbers: Vec<u16>,
}

impl Model for LabelRow {
    ghost use Rattle.std.specs.Arc.{arc_value};
    ghost use Rattle.search.specs.SourceRow.{SourceRow, source_row, IsSourceRow};

    ghost Value = { SourceRow };

    ghost view = { λ r. source_row (arc_value r.relation) r.source r.cap r.numbers.items };

    ghost invariant = { λ r. IsSourceRow (source_row (arc_value r.relation) r.source r.cap r.numbers.items) };
}

impl Drop for LabelRow {
    fn drop(self) {
        let LabelRow {
            relation: _,
            source: _,
            cap: _,
            numbers: _,
        } = self;
    }
}

impl LabelRow {
    ghost use Rattle.std.specs.Prelude.{◌≡◌};
    ghost use Rattle.std.specs.Arc.{arc_value};
    ghost use Rattle.relations.specs.Relation.{Related};
    ghost use Rattle.search.specs.Cycles.{IsLeastLength};
    ghost use Rattle.search.specs.SourceRow.{source_row, IsSourceRow, IsNamed};

    /// A row of numbers that were found for a source under a cap, with a share of its relation.
    pub(crate) fn of(
        relation: Arc<Relation>,
        source: EventId,
        cap: Option<u16>,
        numbers: Vec<u16>,
    ) -> LabelRow
        requires { IsSourceRow (source_row (arc_value relation) source cap numbers.items) }
        ensures { result ≡ source_row (arc_value relation) source cap numbers.items }
    {
        LabelRow {
            relation,
            source,
            cap,
            numbers,
        }
    }

    /// The row cut at the length of the shortest cycles; as it is where there is no cycle.
    pub(crate) fn cut_to(&mut self, cap: Option<u16>)
        requires { IsLeastLength (Related self.old.relation) cap }
        ensures { IsNamed self.old.relation cap self.old.source self.new }
    {
        if self.cap == cap {
            return;
        }
        self.relation.sound();
        cut_at(self.numbers.as_mut_slice(), cap);
        self.cap = cap;
    }

    /// What every row keeps. It does nothing.
    pub fn sound(&self)
        ensures { IsSourceRow self.now }
    {
        let _numbers = &self.numbers;
    }

    /// The event that the steps begin at.
    pub fn source(&self) -> EventId
        ensures { result ≡ self.now.source }
    {
        self.source
    }

    /// The length of a cycle that the numbers are cut at; none where it is the number of events.
    pub fn cap(&self) -> Option<u16>
        ensures { result ≡ self.now.cap }
    {
        self.cap
    }

    /// The number of steps to each event.
    pub fn numbers(&self) -> &[u16]
        ensures { result.now ≡ self.now.numbers }
    {
        self.numbers.as_slice()
    }

    /// The numbers, given away.
    pub fn into_numbers(self) -> Vec<u16>
        ensures { result.items ≡ self.numbers }
    {
        let LabelRow {
            relation: _,
            source: _,
            cap: _,
            numbers,
        } = self;
        numbers
    }
}
