//! The desk and its seats.

ghost use Rattle.std.specs.Prelude.{◌≡◌, ◌<◌, true, [], IfOk, OnErr, OnOk};
ghost use Rattle.std.specs.Arc.{arc_value};
ghost use Rattle.trials.specs.LegalDesk.{with_others, without_share, joined_views};

use crate::desk_table::{DeskTable, SeatKnowledge, SeatRule};
use atomic_table::Seat;
use common::OutOfMemory;
use std::sync::Arc;

/// A word for each trial of a campaign, which any seat of the desk changes in single steps.
#[derive(Drop)]
pub struct Desk {
    pub(crate) table: Arc<DeskTable>,
}

/// A share of the trials, and what was seen of all.
#[derive(Drop)]
pub struct DeskSeat {
    pub(crate) table: Arc<DeskTable>,
    /// The seat at the words.
    pub seat: Seat<(), SeatKnowledge>,
    ghost seated: { seat.table_id ≡ (arc_value table).shared.table_id },
    ghost empty: { seat.me.1 ≡ [] },
    ghost live: { seat.me.0.live ≡ true },
    ghost campaign: { (arc_value table).shared.key ≡ seat.me.0.campaign },
    ghost some: { 0 < seat.me.0.campaign.trials },
    ghost size: { (arc_value table).shared.table_id.words ≡ seat.me.0.campaign.trials },
}

impl DeskSeat {
    /// A second seat, with an empty share, that has seen the same. Fails only if the desk's count of seats is
    /// full, and then leaves the seat as it was.
    pub fn split(&mut self) -> Result<DeskSeat, OutOfMemory>
        ensures same { self.new.seat.table_id ≡ self.old.seat.table_id }
        ensures old { OnOk result (self.new.seat.me.0 ≡ with_others self.old.seat.me.0) }
        ensures unchanged { OnErr result (self.new.seat.me.0 ≡ self.old.seat.me.0) }
        ensures new { IfOk result (λ s. (s.seat.table_id ≡ self.old.seat.table_id)
            × (s.seat.me.0 ≡ without_share self.old.seat.me.0)) }
    {
        let table = Arc::try_clone(&self.table)?;
        let seat = self.table.shared.split_seat::<SeatRule>(&mut self.seat);
        Ok(DeskSeat { table, seat })
    }

    /// One seat with both shares, which has seen all that either has; both are of one desk.
    pub fn merge(self, other: DeskSeat) -> DeskSeat
        requires { other.seat.table_id ≡ self.seat.table_id }
        ensures { (result.seat.table_id ≡ self.seat.table_id)
            × (result.seat.me.0 ≡ joined_views self.seat.me.0 other.seat.me.0) }
    {
        let DeskSeat { table, mut seat } = self;
        let DeskSeat {
            table: _,
            seat: second,
        } = other;
        table.shared.join_seat::<SeatRule>(&mut seat, second);
        DeskSeat { table, seat }
    }
}

/// What the word of a trial says.
#[derive(Clone, Copy, PartialEq, Eq)]
pub enum Look {
    /// No seat has claimed the trial.
    Open,
    /// A seat has claimed it, and has not filed it.
    Claimed,
    /// It was filed with this code.
    Filed(u64),
}
