//! What the rows of all events say.

ghost use Rattle.std.specs.Prelude.{◌≡◌, ℕ, Option, IfOk};
ghost use Rattle.relations.specs.Relation.{Table};
ghost use Rattle.labels.specs.Certified.{lists_of};
ghost use Rattle.search.specs.SourceRow.{AreLeastRows, numbers_of};

use crate::label_row::LabelRow;
use common::OutOfMemory;
use std::alloc::Global;

/// The length of the shortest cycles, from the rows of all events that are cut at it, as `run_alone` and
/// `run_jobs` give them; none where there is no cycle.
pub fn least_length(rows: &[LabelRow]) -> Option<u16>
    ensures { (t : Table) (cap : Option ℕ) → AreLeastRows t cap rows.now → result ≡ cap }
{
    if rows.len() == 0 {
        return None;
    }
    rows[0].cap()
}

/// The numbers of each row, given away.
pub(crate) fn into_lists(alloc: Global, rows: Vec<LabelRow>) -> Result<Vec<Vec<u16>>, OutOfMemory>
    ensures { IfOk result (λ lists. lists_of lists.items ≡ numbers_of rows.items) }
{
    let mut lists = Vec::with_capacity(alloc, rows.len())?;
    for row in rows {
        lists.push(row.into_numbers())?;
    }
    Ok(lists)
}
