//! The calls of the desk.

ghost use Rattle.std.specs.Prelude.{◌≡◌, ◌≢◌, ◌<◌, ℕ, Bool, true, false, [], ◌==◌, length, IfOk, MatchBool};
ghost use Rattle.std.specs.Prelude.{Contains, replicate};
ghost use Rattle.trials.specs.LegalDesk.{first_view, claimed, saw_claimed, completed, AreAllOpen, AreDeskWords, Was};
ghost use Rattle.trials.specs.Looking.{IsDeskSeatOf, IsLook, LoadsWord};

use crate::desk_table::{Claims, DeskTable, Files, Looks};
use crate::filed::Filed;
use crate::seat::{Desk, DeskSeat, Look};
use common::OutOfMemory;
use program::Campaign;
use std::alloc::Global;
use std::sync::Arc;

impl Desk {
    /// A desk whose words are all 0, and its only seat, which has claimed and seen nothing. Fails only if out
    /// of memory.
    pub fn open(alloc: Global, campaign: &Campaign) -> Result<(Desk, DeskSeat), OutOfMemory>
        ensures seat { IfOk result (λ r. IsDeskSeatOf r.0 r.1 × (r.1.seat.me.0 ≡ first_view campaign.now)) }
        ensures words { IfOk result (λ r. AreAllOpen r.1.seat.me.0) }
    {
        campaign.sound();
        let words = zeros(alloc, campaign.trials())?;
        let (table, seat) = DeskTable::of_words(alloc, words.as_slice(), campaign)?;
        let table = Arc::new(alloc, table)?;
        let again = Arc::try_clone(&table)?;
        Ok((Desk { table: again }, DeskSeat { table, seat }))
    }

    /// Claims a trial below the number of trials: true exactly where its word was 0 at its step.
    pub fn claim(&self, seat: &mut DeskSeat, k: usize) -> bool
        requires seat { IsDeskSeatOf self.now seat.old }
        requires trial { k < seat.old.seat.me.0.campaign.trials }
        ensures seat { IsDeskSeatOf self.now seat.new }
        ensures step { (n : ℕ) × Was seat.old.seat.me.0 k n × (result ≡ (n == 0)) }
        ensures new { MatchBool result (seat.new.seat.me.0 ≡ claimed seat.old.seat.me.0 k)
            (seat.new.seat.me.0 ≡ saw_claimed seat.old.seat.me.0 k) }
        ensures first { result ≡ true → (Contains seat.old.seat.me.0.seen k → ⊥)
            × (Contains seat.old.seat.me.0.share k → ⊥) }
        ensures later { Contains seat.new.seat.me.0.seen k }
    {
        let found = seat
            .table
            .shared
            .compare_exchange::<Claims>(&mut seat.seat, k, 0, 1);
        found == 0
    }

    /// Files a trial of the desk's campaign that this seat has claimed and not yet filed.
    pub fn file(&self, seat: &mut DeskSeat, filed: &Filed)
        requires seat { IsDeskSeatOf self.now seat.old }
        requires campaign { filed.now.campaign ≡ seat.old.seat.me.0.campaign }
        requires trial { filed.now.trial < seat.old.seat.me.0.campaign.trials }
        requires claimed { Contains seat.old.seat.me.0.share filed.now.trial }
        requires open { Contains seat.old.seat.me.0.filed filed.now.trial → ⊥ }
        ensures seat { IsDeskSeatOf self.now seat.new }
        ensures new { seat.new.seat.me.0 ≡ completed seat.old.seat.me.0 filed.now.trial }
    {
        seat.table
            .shared
            .store::<Files>(&mut seat.seat, filed.trial(), filed.code());
    }

    /// What the word of a trial below the number of trials says, at least what this seat has claimed, filed
    /// or seen.
    pub fn look(&self, seat: &mut DeskSeat, k: usize) -> Look
        requires seat { IsDeskSeatOf self.now seat.old }
        requires trial { k < seat.old.seat.me.0.campaign.trials }
        ensures seat { IsDeskSeatOf self.now seat.new }
        ensures says { IsLook seat.old.seat.me.0 k result seat.new.seat.me.0 }
    {
        match word_at(seat, k) {
            0 => Look::Open,
            1 => Look::Claimed,
            code => Look::Filed(code),
        }
    }

    /// The words, which are those of a legal desk beside what the seat knows. Fails only if out of memory.
    pub fn close(self, alloc: Global, seat: DeskSeat) -> Result<Vec<u64>, OutOfMemory>
        requires { IsDeskSeatOf self seat }
        ensures { IfOk result (λ ws. AreDeskWords seat.seat.me.0 ws.items) }
    {
        drop(self);
        let mut seat = seat;
        let count = seat.table.word_count();
        let mut words = Vec::with_capacity(alloc, count)?;
        for k in 0..count {
            words.push(word_at(&mut seat, k))?;
        }
        Ok(words)
    }
}

/// The word of a trial.
fn word_at(seat: &mut DeskSeat, k: usize) -> u64
    requires trial { k < seat.old.seat.me.0.campaign.trials }
    ensures same { seat.new.seat.table_id ≡ seat.old.seat.table_id }
    ensures says { LoadsWord seat.old.seat.me.0 k result seat.new.seat.me.0 }
{
    seat.table.shared.load::<Looks>(&mut seat.seat, k)
}

fn zeros(alloc: Global, count: usize) -> Result<Vec<u64>, OutOfMemory>
    ensures { IfOk result (λ v. v.items ≡ replicate count 0) }
{
    Ok(Vec::from_elem(alloc, 0u64, count)?)
}
