//! The check of certificates.

ghost use Rattle.std.specs.Prelude.{◌≡◌, ◌↔◌, IsTrue, length};
ghost use Rattle.relations.specs.Relation.{Related};
ghost use Rattle.relations.specs.Cycle.{IsShortest};
ghost use Rattle.labels.specs.Certified.{Certifies, AreLabellings};

use crate::certificate::Certificate;
use crate::cycle::is_cycle;
use crate::labelling::is_labelling;
use common::EventId;
use relations::Relation;

/// Whether each event has a row by which no cycle through it is shorter than the length.
fn are_labellings(relation: &Relation, size: usize, rows: &[Vec<u16>]) -> bool
    ensures { IsTrue result ↔ AreLabellings relation.now size rows.now }
{
    if rows.len() != relation.len() {
        return false;
    }
    relation.sound();
    for v in 0..rows.len() {
        if !is_labelling(relation, size, v as EventId, &rows[v]) {
            return false;
        }
    }
    true
}

/// Whether the cycle is one, and each event's row shows that no cycle through it is shorter. The
/// lists may be of any lengths, and hold any numbers.
pub fn check(relation: &Relation, certificate: &Certificate) -> bool
    ensures exact { IsTrue result ↔ Certifies relation.now certificate.now }
    ensures shortest { IsTrue result → IsShortest (Related relation.now) certificate.now.cycle.items }
{
    relation.sound();
    let size = certificate.cycle.len();
    is_cycle(relation, &certificate.cycle) && are_labellings(relation, size, &certificate.rows)
}
