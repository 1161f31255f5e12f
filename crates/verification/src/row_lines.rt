//! The lines of labels that hold.

ghost use Rattle.std.specs.Prelude.{◌≡◌, ◌≤◌, ◌<◌, ◌++◌, ◌∷◌, ℕ, List, ◌↔◌, IfOk, IfSome, MatchOption, OnOk, length};
ghost use Rattle.common.specs.declared.limits.TheConstants.{MAX_EVENTS};
ghost use Rattle.recording.specs.Execution.{event_count};
ghost use Rattle.relations.specs.Forced.{Forced};
ghost use Rattle.relations.specs.Relation.{Related};
ghost use Rattle.labels.specs.Certified.{lists_of};
ghost use Rattle.verification.specs.Faults.{IsRowThatHolds};
ghost use Rattle.verification.specs.Held.{AreRowsHeld, PutsRows};
ghost use Rattle.verification.specs.Spelled.{Spells};

use crate::labelled::row;
use common::{EventId, MAX_EVENTS, OutOfMemory};
use labels::is_labelling;
use recording::Recording;
use relations::Relation;
use std::alloc::Global;
use texts::Cursor;
use verdicts::put_rows;

/// The labels of the next line, if they show that no cycle through this event has fewer than this many events.
fn row_that_holds(
    alloc: Global,
    recording: &Recording,
    relation: &Relation,
    rest: &mut Cursor<'_>,
    size: usize,
    event: usize,
) -> Result<Option<Vec<u16>>, OutOfMemory>
    requires few { event_count recording.now ≤ MAX_EVENTS }
    requires there { event < event_count recording.now }
    requires size { length relation.now ≡ event_count recording.now }
    requires related { (e f : ℕ) → Related relation.now e f ↔ Forced recording.now e f }
    ensures found { IfOk result (λ r. IfSome r (λ v. IsRowThatHolds recording.now size event v.items)) }
    ensures only { IfOk result (λ r. (labels later : List ℕ) → IsRowThatHolds recording.now size event labels
        → Spells ((event ∷ labels) ++ later) rest.old
        → MatchOption r ⊥ (λ v. v.items ≡ labels) × Spells later rest.new) }
{
    let Some(row) = row(rest, alloc, recording.len())? else {
        return Ok(None);
    };
    if !is_labelling(relation, size, event as EventId, &row) {
        return Ok(None);
    }
    Ok(Some(row))
}

/// The rows of labels that stand next, as far as they show that no cycle has fewer than this many events.
fn rows_that_hold(
    alloc: Global,
    recording: &Recording,
    rest: &mut Cursor<'_>,
    size: usize,
) -> Result<Vec<Vec<u16>>, OutOfMemory>
    requires { event_count recording.now ≤ MAX_EVENTS }
    ensures { IfOk result (λ v. AreRowsHeld recording.now size rest.old (lists_of v.items)) }
{
    let relation = Relation::of(alloc, recording)?;
    let mut rows = Vec::new(alloc);
    for event in 0..recording.len() {
        let Some(row) = row_that_holds(alloc, recording, &relation, rest, size, event)? else {
            return Ok(rows);
        };
        rows.push(row)?;
    }
    Ok(rows)
}

/// Adds the lines of the labels for a cycle of this length, as far as they show that none is shorter.
pub(crate) fn put_rows_that_hold(
    out: &mut Vec<u8>,
    alloc: Global,
    recording: &Recording,
    rest: &mut Cursor<'_>,
    size: usize,
) -> Result<(), OutOfMemory>
    requires { event_count recording.now ≤ MAX_EVENTS }
    ensures { OnOk result (PutsRows recording.now size rest.old out.old.items out.new.items) }
{
    let rows = rows_that_hold(alloc, recording, rest, size)?;
    put_rows(alloc, out, &rows, size)
}
