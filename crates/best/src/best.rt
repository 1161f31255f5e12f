//! The calls of the shared bound.

ghost use Rattle.std.specs.Prelude.{◌≡◌, ◌≤◌, ◌<◌, Contains, IfOk, IfSome, length};
ghost use Rattle.relations.specs.Relation.{Related};
ghost use Rattle.relations.specs.Cycle.{IsCycle};
ghost use Rattle.best.specs.Rule.{first_bound, knows, IsLength, IsUnset, LoadsView};
ghost use Rattle.best.specs.Seats.{IsAlone, IsBestSeatOf, IsBoundRead, AreBeside, Unites, known_of};

use crate::rule::{BestTable, Lowers, NONE, Reads, SeatRule};
use crate::seat::{Best, BestSeat};
use common::{EventId, OutOfMemory};
use relations::Relation;
use std::alloc::Global;
use std::sync::Arc;

impl Best {
    /// A bound for the cycles of a relation, which is none, and its only seat, which knows no length.
    /// Fails only if out of memory.
    pub fn open(alloc: Global, relation: &Relation) -> Result<(Best, BestSeat), OutOfMemory>
        ensures seat { IfOk result (λ r. IsBestSeatOf r.0 r.1) }
        ensures new { IfOk result (λ r. known_of r.1 ≡ first_bound relation.now) }
        ensures alone { IfOk result (λ r. IsAlone r.1) }
        ensures none { IfOk result (λ r. IsUnset r.1.seat.me.0) }
    {
        let (table, seat) = BestTable::of_words(alloc, &[NONE], relation)?;
        let table = Arc::new(alloc, table)?;
        let again = Arc::try_clone(&table)?;
        Ok((Best { table: again }, BestSeat { table, seat }))
    }

    /// The bound is at most the cycle's length from now on, and the seat knows this length. The cycle is one
    /// of the seat's relation, of at most as many events as there are.
    pub fn lower(&self, seat: &mut BestSeat, relation: &Relation, cycle: &[EventId])
        requires seat { IsBestSeatOf self.now seat.old }
        requires relation { relation.now ≡ (known_of seat.old).relation }
        requires cycle { IsCycle (Related relation.now) cycle.now }
        requires short { length cycle.now ≤ length relation.now }
        ensures seat { IsBestSeatOf self.now seat.new }
        ensures new { known_of seat.new ≡ knows (known_of seat.old) (length cycle.now) }
        ensures relation { (known_of seat.new).relation ≡ (known_of seat.old).relation }
        ensures alone { IsAlone seat.old → IsAlone seat.new }
    {
        relation.sound();
        self.lower_to_length(seat, cycle.len() as u16);
    }

    /// The bound is at most this length of some cycle of the seat's relation from now on, and the seat knows it.
    pub fn lower_to_length(&self, seat: &mut BestSeat, size: u16)
        requires seat { IsBestSeatOf self.now seat.old }
        requires size { IsLength (known_of seat.old).relation size }
        ensures seat { IsBestSeatOf self.now seat.new }
        ensures new { known_of seat.new ≡ knows (known_of seat.old) size }
        ensures relation { (known_of seat.new).relation ≡ (known_of seat.old).relation }
        ensures alone { IsAlone seat.old → IsAlone seat.new }
    {
        seat.table
            .shared
            .fetch_min::<Lowers>(&mut seat.seat, 0, size as u64);
    }

    /// None, only where the seat knows no length; or the length of a cycle, at most each that the
    /// seat knows, and where it is the only seat one that it knows.
    pub fn read(&self, seat: &mut BestSeat) -> Option<u16>
        requires seat { IsBestSeatOf self.now seat.old }
        ensures seat { IsBestSeatOf self.now seat.new }
        ensures reads { IsBoundRead (known_of seat.old) result (known_of seat.new) }
        ensures own { IsAlone seat.old → IfSome result (Contains (known_of seat.old).lengths) }
        ensures relation { (known_of seat.new).relation ≡ (known_of seat.old).relation }
        ensures alone { IsAlone seat.old → IsAlone seat.new }
    {
        let found = seat.load();
        if found == NONE {
            None
        } else {
            Some(found as u16)
        }
    }
}

impl BestSeat {
    fn load(&mut self) -> u64
        ensures same { self.new.seat.table_id ≡ self.old.seat.table_id }
        ensures loads { LoadsView self.old.seat.me.0 result self.new.seat.me.0 }
    {
        self.table.shared.load::<Reads>(&mut self.seat, 0)
    }

    /// Another seat of the same bound, that knows the same. Fails only if the count of seats is full.
    pub fn split(&mut self) -> Result<BestSeat, OutOfMemory>
        ensures old { AreBeside self.old self.new × (known_of self.new ≡ known_of self.old) }
        ensures new { IfOk result (λ s. AreBeside self.old s × (known_of s ≡ known_of self.old)) }
    {
        let table = Arc::try_clone(&self.table)?;
        let seat = self.table.shared.split_seat::<SeatRule>(&mut self.seat);
        Ok(BestSeat { table, seat })
    }

    /// One seat for two of the same bound: it knows what either knew.
    pub fn merge(self, other: BestSeat) -> BestSeat
        requires { AreBeside self other }
        ensures { AreBeside self result × Unites (known_of self) (known_of other) (known_of result) }
    {
        let mut one = self;
        one.absorb(other);
        one
    }

    /// Takes in another seat of the same bound, and knows what either knew.
    pub fn absorb(&mut self, other: BestSeat)
        requires { AreBeside self.old other }
        ensures { AreBeside self.old self.new
            × Unites (known_of self.old) (known_of other) (known_of self.new) }
    {
        let BestSeat {
            table: _,
            seat: second,
        } = other;
        self.table
            .shared
            .join_seat::<SeatRule>(&mut self.seat, second);
    }
}
