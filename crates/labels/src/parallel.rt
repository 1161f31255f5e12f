//! The check of certificates by threads.

ghost use Rattle.std.specs.Prelude.{◌≡◌, ◌<◌, ◌≤◌, ◌↔◌, [], IsTrue, length, slice_index_or};
ghost use Rattle.common.specs.declared.limits.TheConstants.{MAX_EVENTS};
ghost use Rattle.relations.specs.Relation.{Related};
ghost use Rattle.relations.specs.Cycle.{IsLabelling, IsShortest};
ghost use Rattle.labels.specs.Certified.{lists_of, Certifies, AreLabellings};

use crate::certificate::Certificate;
use crate::cycle::is_cycle;
use crate::labelling::is_labelling;
use common::EventId;
use rayon::prelude::*;
use relations::Relation;
use std::thread::Threads;

/// A thread of its own is worth no fewer rows.
const LEAST_ROWS: usize = 64;

/// Whether by the row of `v` no cycle through it is shorter than the length.
fn is_labelled(relation: &Relation, size: usize, rows: &[Vec<u16>], v: EventId) -> bool
    requires one_each { length rows.now ≡ length relation.now }
    requires v { v < length relation.now }
    ensures { IsTrue result ↔ IsLabelling (Related relation.now) size (length relation.now) v
        (slice_index_or (lists_of rows.now) v []) }
{
    let labels = rows[v as usize].as_slice();
    is_labelling(relation, size, v, labels)
}

/// Whether each event has a row by which no cycle through it is shorter than the length, by threads.
fn are_labelled(
    rt: &(impl Threads + Sync),
    relation: &Relation,
    size: usize,
    rows: &[Vec<u16>],
) -> bool
    ensures { IsTrue result ↔ AreLabellings relation.now size rows.now }
{
    if rows.len() != relation.len() {
        return false;
    }
    relation.sound();
    (0..rows.len()).into_par_iter().with_min_len(LEAST_ROWS).all(
        rt,
        |v: usize| -> bool
            requires few { length relation.now ≤ MAX_EVENTS }
            requires one_each { length rows.now ≡ length relation.now }
            requires v { v < length relation.now }
            ensures { IsTrue result ↔ IsLabelling (Related relation.entry.now) size (length relation.entry.now) v
                (slice_index_or (lists_of rows.entry.now) v []) }
        { is_labelled(relation, size, rows, v as EventId) },
    )
}

/// As `check`, by threads that share the rows. It never runs out of memory.
pub fn check_par(rt: &(impl Threads + Sync), relation: &Relation, certificate: &Certificate) -> bool
    ensures exact { IsTrue result ↔ Certifies relation.now certificate.now }
    ensures shortest { IsTrue result → IsShortest (Related relation.now) certificate.now.cycle.items }
{
    relation.sound();
    let size = certificate.cycle.len();
    is_cycle(relation, &certificate.cycle) && are_labelled(rt, relation, size, &certificate.rows)
}
