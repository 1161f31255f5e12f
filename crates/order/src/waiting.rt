//! The events that wait for others, while an order grows.

use crate::counts::count_all;
use bitrow::BitRow;
use common::{EventId, OutOfMemory};
use relations::Relation;
use std::alloc::Global;
use std::marker::Model;

/// How many events at or before each are still open, with the set of the events that wait for no
/// other.
#[derive(Drop)]
pub(crate) struct Waiting {
    counts: Vec<u16>,
    free: BitRow,
}

impl Model for Waiting {
    ghost use Rattle.std.specs.Prelude.{ℕ, List};
    ghost use Rattle.order.specs.Open.{IsFreeSet};

    ghost Value = { List ℕ };

    ghost view = { λ w. w.counts.items };

    ghost invariant = { λ w. IsFreeSet w.counts.items w.free };
}

impl Waiting {
    ghost use Rattle.std.specs.Prelude.{◌≡◌, ◌≢◌, ◌≤◌, ◌<◌, ◌-◌, ◌^◌, ℕ, [], IfOk, MatchOption, length};
    ghost use Rattle.std.specs.Prelude.{slice_index, slice_set};
    ghost use Rattle.relations.specs.Relation.{relates};
    ghost use Rattle.order.specs.Open.{one_if, relates_once, IsOpen, IsFreeSet};

    /// The set of the events that wait for no other.
    fn free_set(alloc: Global, counts: &[u16]) -> Result<BitRow, OutOfMemory>
        ensures { IfOk result (λ free. IsFreeSet counts.now free) }
    {
        let mut free = BitRow::new(alloc, counts.len())?;
        for event in 0..counts.len() {
            if counts[event] == 1 {
                free.set(event);
            }
        }
        Ok(free)
    }

    /// All events of a relation, before any is placed.
    pub(crate) fn all(alloc: Global, relation: &Relation) -> Result<Waiting, OutOfMemory>
        ensures { IfOk result (λ w. IsOpen (relates_once relation.now) (length relation.now) [] w) }
    {
        let counts = count_all(alloc, relation)?;
        let free = Waiting::free_set(alloc, &counts)?;
        Ok(Waiting { counts, free })
    }

    /// The first event that waits for no other.
    pub(crate) fn first(&self) -> Option<EventId>
        requires { length self.now < 2 ^ 16 }
        ensures { MatchOption result
            ((e : ℕ) → e < length self.now → slice_index self.now e ≢ 1)
            (λ v. (v < length self.now) × (slice_index self.now v ≡ 1)
            × ((e : ℕ) → e < length self.now → slice_index self.now e ≡ 1 → v ≤ e)) }
    {
        let event = self.free.first_set()?;
        Some(event as EventId)
    }

    /// One event fewer is open before one.
    fn lower(&mut self, event: usize)
        requires { event < length self.old }
        ensures { self.new ≡ slice_set self.old event (slice_index self.old event - 1) }
    {
        let left = self.counts[event].saturating_sub(1);
        self.counts[event] = left;
        if left == 1 {
            self.free.set(event);
        } else if left == 0 {
            self.free.remove(event);
        }
    }

    /// No event is open at or before one.
    fn close(&mut self, event: usize)
        requires { event < length self.old }
        ensures { self.new ≡ slice_set self.old event 0 }
    {
        self.counts[event] = 0;
        self.free.remove(event);
    }

    /// Counts an event as placed.
    pub(crate) fn place(&mut self, relation: &Relation, event: EventId)
        requires size { length self.old ≡ length relation.now }
        requires event { event < length relation.now }
        ensures size { length self.new ≡ length self.old }
        ensures own { slice_index self.new event ≡ 0 }
        ensures others { (f : ℕ) → f < length self.old → f ≢ event → slice_index self.new f
            ≡ slice_index self.old f - one_if (relates relation.now event f) }
    {
        relation.sound();
        let after = &relation.successors()[event as usize];
        let mut others = after.numbers();
        while let Some(other) = others.next() {
            self.lower(other);
        }
        self.close(event as usize);
    }
}
