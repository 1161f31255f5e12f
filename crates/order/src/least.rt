//! The least order.

ghost use Rattle.std.specs.Prelude.{◌↔◌, ℕ, List, IfOk, IfSome, IsNone, length};
ghost use Rattle.relations.specs.Cycle.{IsCycle};
ghost use Rattle.relations.specs.Relation.{Related};
ghost use Rattle.relations.specs.Respects.{IsLeastOrder};

use crate::waiting::Waiting;
use common::{EventId, OutOfMemory};
use relations::{Relation, ordered_is_acyclic};
use std::alloc::Global;

/// The first in dictionary order of the orders that have the forced pairs in order; none where the
/// forced pairs have a cycle. Fails only if out of memory.
pub fn build(alloc: Global, relation: &Relation) -> Result<Option<Vec<EventId>>, OutOfMemory>
    ensures least { IfOk result (λ found. IfSome found
        (λ m. IsLeastOrder (Related relation.now) (length relation.now) m.items)) }
    ensures cycle { IfOk result (λ found. IsNone found
        ↔ ((c : List ℕ) × IsCycle (Related relation.now) c)) }
{
    relation.sound();
    ordered_is_acyclic();
    let len = relation.len();
    let mut waiting = Waiting::all(alloc, relation)?;
    let mut order = Vec::with_capacity(alloc, len)?;
    for placed in 0..len {
        let Some(event) = waiting.first() else {
            return Ok(None);
        };
        waiting.place(relation, event);
        order.push(event)?;
    }
    Ok(Some(order))
}
