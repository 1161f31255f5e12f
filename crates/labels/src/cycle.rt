//! Cycles.

ghost use Rattle.std.specs.Prelude.{◌↔◌, IsTrue};
ghost use Rattle.relations.specs.Relation.{Related};
ghost use Rattle.relations.specs.Cycle.{IsCycle};

use common::EventId;
use relations::Relation;

/// Whether each event of a list of any numbers is forced before the next, and the last before the
/// first.
pub(crate) fn is_cycle(relation: &Relation, cycle: &[EventId]) -> bool
    ensures { IsTrue result ↔ IsCycle (Related relation.now) cycle.now }
{
    if cycle.len() == 0 {
        return false;
    }
    for i in 0..cycle.len() - 1 {
        if !relation.forced(cycle[i], cycle[i + 1]) {
            return false;
        }
    }
    relation.forced(cycle[cycle.len() - 1], cycle[0])
}
