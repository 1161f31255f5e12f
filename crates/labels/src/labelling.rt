//! Labels of the events, from one of them.

ghost use Rattle.std.specs.Prelude.{◌≡◌, ◌<◌, ◌≤◌, ◌+◌, ◌↔◌, ℕ, IsTrue, length, slice_index};
ghost use Rattle.relations.specs.Relation.{Related};
ghost use Rattle.relations.specs.Cycle.{IsLabelling};

use common::EventId;
use relations::Relation;

/// The largest label, or 0 where there is none.
fn largest(labels: &[u16]) -> u16
    ensures { (e : ℕ) → slice_index labels.now e ≤ result }
{
    let mut most = 0;
    for label in labels {
        most = most.max(*label);
    }
    most
}

/// Whether the label grows by one at most from an event to each that it is forced before.
fn grows_from(relation: &Relation, from: EventId, labels: &[u16]) -> bool
    requires from { from < length relation.now }
    requires one_each { length labels.now ≡ length relation.now }
    ensures { IsTrue result ↔ ((f : ℕ) → Related relation.now from f
        → slice_index labels.now f ≤ slice_index labels.now from + 1) }
{
    relation.sound();
    let most = labels[from as usize] as usize + 1;
    for to in 0..labels.len() {
        if labels[to] as usize > most && relation.forced(from, to as EventId) {
            return false;
        }
    }
    true
}

/// Whether the label grows by one at most along each forced pair.
fn grows(relation: &Relation, labels: &[u16]) -> bool
    requires { length labels.now ≡ length relation.now }
    ensures { IsTrue result ↔ ((e f : ℕ) → Related relation.now e f
        → slice_index labels.now f ≤ slice_index labels.now e + 1) }
{
    relation.sound();
    let most = largest(labels) as usize;
    for from in 0..labels.len() {
        if labels[from] as usize + 1 < most && !grows_from(relation, from as EventId, labels) {
            return false;
        }
    }
    true
}

/// Whether an event, where it is forced before `v`, has a label of at least the length less one.
fn closes_from(relation: &Relation, size: usize, from: EventId, v: EventId, labels: &[u16]) -> bool
    requires from { from < length relation.now }
    requires one_each { length labels.now ≡ length relation.now }
    ensures { IsTrue result ↔ (Related relation.now from v
        → size ≤ slice_index labels.now from + 1) }
{
    labels[from as usize] as usize + 1 >= size || !relation.forced(from, v)
}

/// Whether each event that is forced before `v` has a label of at least the length less one.
fn closes(relation: &Relation, size: usize, v: EventId, labels: &[u16]) -> bool
    requires { length labels.now ≡ length relation.now }
    ensures { IsTrue result ↔ ((e : ℕ) → Related relation.now e v
        → size ≤ slice_index labels.now e + 1) }
{
    relation.sound();
    for from in 0..labels.len() {
        if !closes_from(relation, size, from as EventId, v, labels) {
            return false;
        }
    }
    true
}

/// Whether labels of any number show that no cycle through `v` is shorter than the length. The event
/// `v` has to be there.
pub fn is_labelling(relation: &Relation, size: usize, v: EventId, labels: &[u16]) -> bool
    requires { v < length relation.now }
    ensures { IsTrue result
        ↔ IsLabelling (Related relation.now) size (length relation.now) v labels.now }
{
    if labels.len() != relation.len() || labels[v as usize] != 0 {
        return false;
    }
    grows(relation, labels) && closes(relation, size, v, labels)
}
