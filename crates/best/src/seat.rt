//! The bound and its seats.

ghost use Rattle.std.specs.Prelude.{◌≡◌, true, []};
ghost use Rattle.std.specs.Arc.{arc_value};

use crate::rule::{BestTable, SeatView};
use atomic_table::Seat;
use std::sync::Arc;

/// None, or the length of a cycle, at most each length that its seats know.
#[derive(Drop)]
pub struct Best {
    pub(crate) table: Arc<BestTable>,
}

/// A place at a bound, with what is known there.
#[derive(Drop)]
pub struct BestSeat {
    pub(crate) table: Arc<BestTable>,
    pub(crate) seat: Seat<(), SeatView>,
    ghost seated: { seat.table_id ≡ (arc_value table).shared.table_id },
    ghost empty: { seat.me.1 ≡ [] },
    ghost live: { seat.me.0.known.live ≡ true },
    ghost relation: { (arc_value table).shared.key ≡ seat.me.0.known.relation },
    ghost size: { (arc_value table).shared.table_id.words ≡ 1 },
}
