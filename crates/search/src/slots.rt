//! Rows that are collected by source.

ghost use Rattle.std.specs.Prelude.{ℕ, List, ◌<◌, ◌+◌, length, All, IfOk, IfSome};
ghost use Rattle.std.specs.Arc.{arc_value};
ghost use Rattle.relations.specs.Relation.{Table};
ghost use Rattle.search.specs.Bound.{IsSeatFor, Keeps, lengths_of};
ghost use Rattle.search.specs.WorkerJobs.{IsRowFor, AreRowsFor};
ghost use Rattle.search.specs.Slots.{AreSlots, AreSlotsFilled, IsRowFrom};

use crate::label_row::LabelRow;
use crate::under::row_for;
use crate::worker_jobs::WorkerRows;
use best::{Best, BestSeat};
use common::{EventId, Gate, OutOfMemory};
use relations::Relation;
use std::alloc::Global;
use std::sync::Arc;

/// A place for the row of each event, all of them empty.
pub(crate) fn empty_slots(
    alloc: Global,
    relation: &Relation,
) -> Result<Vec<Option<LabelRow>>, OutOfMemory>
    ensures { IfOk result (λ slots. (lengths : List ℕ) → AreSlots relation.now lengths slots.items) }
{
    let mut slots = Vec::with_capacity(alloc, relation.len())?;
    for _ in 0..relation.len() {
        slots.push(None)?;
    }
    Ok(slots)
}

/// Puts a row into its source's place. A row of a stranger, or one whose place is filled, is
/// dropped.
fn put_row(row: LabelRow, slots: &mut Vec<Option<LabelRow>>)
    ensures { (t : Table) (lengths : List ℕ) → IsRowFor t lengths row → AreSlots t lengths slots.old.items
        → AreSlots t lengths slots.new.items }
{
    let source = row.source() as usize;
    if source < slots.len() && slots[source].is_none() {
        slots[source] = Some(row);
    }
}

/// Takes the row out of a source's place, if there is one.
fn take_row(source: usize, slots: &mut Vec<Option<LabelRow>>) -> Option<LabelRow>
    ensures { (t : Table) (lengths : List ℕ) → AreSlots t lengths slots.old.items
        → IfSome result (IsRowFrom t lengths source) × AreSlots t lengths slots.new.items }
{
    if source < slots.len() {
        slots[source].take()
    } else {
        None
    }
}

/// Puts rows into their sources' places.
pub(crate) fn put_rows(rows: Vec<LabelRow>, slots: &mut Vec<Option<LabelRow>>)
    ensures { (t : Table) (lengths : List ℕ) → All (IsRowFor t lengths) rows.items
        → AreSlots t lengths slots.old.items → AreSlots t lengths slots.new.items }
{
    for row in rows {
        put_row(row, slots);
    }
}

/// Puts the row in a place, or else a row that is made here, after the rows of the events before.
fn add_row<G: Gate>(
    alloc: Global,
    relation: &Arc<Relation>,
    source: EventId,
    slot: Option<LabelRow>,
    best: &Best,
    seat: &mut BestSeat,
    gate: &G,
    rows: &mut Vec<LabelRow>,
) -> Result<(), OutOfMemory>
    requires source { source < length (arc_value relation.now) }
    requires slot { IfSome slot (IsRowFrom (arc_value relation.now) (lengths_of seat.old) source) }
    requires seat { IsSeatFor best.now (arc_value relation.now) seat.old }
    requires rows { AreSlotsFilled (arc_value relation.now) (lengths_of seat.old) source
        rows.old.items }
    ensures seat { IsSeatFor best.now (arc_value relation.now) seat.new }
    ensures kept { Keeps (lengths_of seat.old) (lengths_of seat.new) }
    ensures rows { IfOk result (λ _. AreSlotsFilled (arc_value relation.now) (lengths_of seat.new)
        (source + 1) rows.new.items) }
{
    if let Some(row) = slot {
        rows.push(row)?;
        return Ok(());
    }
    gate.begin(0, source as usize);
    let made = row_for(alloc, relation, source, best, seat);
    gate.done(0, source as usize);
    rows.push(made?)?;
    Ok(())
}

/// The rows of all events, by event: those in the places, and the missing ones made here.
pub(crate) fn fill_rows<G: Gate>(
    alloc: Global,
    relation: &Arc<Relation>,
    slots: Vec<Option<LabelRow>>,
    best: &Best,
    seat: &mut BestSeat,
    gate: &G,
) -> Result<Vec<LabelRow>, OutOfMemory>
    requires seat { IsSeatFor best.now (arc_value relation.now) seat.old }
    requires slots { AreSlots (arc_value relation.now) (lengths_of seat.old) slots.items }
    ensures seat { IsSeatFor best.now (arc_value relation.now) seat.new }
    ensures kept { Keeps (lengths_of seat.old) (lengths_of seat.new) }
    ensures rows { IfOk result (λ rows. AreSlotsFilled (arc_value relation.now) (lengths_of seat.new)
        (length (arc_value relation.now)) rows.items) }
{
    let table: &Relation = relation;
    table.sound();
    let mut slots = slots;
    let mut rows = Vec::with_capacity(alloc, table.len())?;
    for number in 0..table.len() {
        let source = number as EventId;
        let slot = take_row(number, &mut slots);
        add_row(alloc, relation, source, slot, best, seat, gate, &mut rows)?;
    }
    Ok(rows)
}
