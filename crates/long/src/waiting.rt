//! The events that wait for others, while an order grows.

ghost use Rattle.std.specs.Prelude.{◌≡◌, ◌<◌, ◌^◌};
ghost use Rattle.long.specs.Ready.{key_of};

use crate::pairs::Pairs;
use crate::queue::KeyQueue;
use common::{EventId, OutOfMemory};
use std::alloc::Global;
use std::marker::Model;

/// The key of an event: the less the event, the greater its key.
fn key_of(event: EventId) -> u32
    ensures key { result ≡ key_of event }
    ensures few { event < 2 ^ 32 }
{
    u32::MAX - event
}

/// How many events at or before each are still open, with the events that wait for no other.
#[derive(Drop)]
pub(crate) struct Waiting {
    counts: Vec<u32>,
    ready: KeyQueue,
}

impl Model for Waiting {
    ghost use Rattle.std.specs.Prelude.{ℕ, List};
    ghost use Rattle.long.specs.Ready.{IsReady};

    ghost Value = { List ℕ };

    ghost view = { λ w. w.counts.items };

    ghost invariant = { λ w. IsReady w.counts.items w.ready };
}

impl Waiting {
    ghost use Rattle.std.specs.Prelude.{◌≡◌, ◌≢◌, ◌≤◌, ◌<◌, ◌+◌, ◌-◌, ◌^◌, ℕ, IfOk, OnOk, MatchOption, length};
    ghost use Rattle.std.specs.Prelude.{slice_index, slice_set};
    ghost use Rattle.long.specs.Chains.{times_kept};
    ghost use Rattle.long.specs.Ready.{IsReady};

    /// The keys of the events whose count is 1.
    fn ready_of(alloc: Global, counts: &[u32]) -> Result<KeyQueue, OutOfMemory>
        requires { length counts.now < 2 ^ 32 }
        ensures { IfOk result (IsReady counts.now) }
    {
        let mut ready = KeyQueue::new(alloc);
        for event in 0..counts.len() {
            if counts[event] == 1 {
                ready.put(key_of(event as EventId))?;
            }
        }
        Ok(ready)
    }

    /// Events with these counts.
    pub(crate) fn of(alloc: Global, counts: Vec<u32>) -> Result<Waiting, OutOfMemory>
        requires { length counts.items < 2 ^ 32 }
        ensures { IfOk result (λ w. w ≡ counts.items) }
    {
        let ready = Waiting::ready_of(alloc, &counts)?;
        Ok(Waiting { counts, ready })
    }

    /// How many events at or before each are still open.
    pub(crate) fn counts(&self) -> &[u32]
        ensures { result.now ≡ self.now }
    {
        self.counts.as_slice()
    }

    /// Takes the first event that waits for no other; none where each waits.
    pub(crate) fn take(&mut self) -> Option<EventId>
        ensures free { MatchOption result
            ((e : ℕ) → e < length self.old → slice_index self.old e ≢ 1)
            (λ v. (v < length self.old) × (slice_index self.old v ≡ 1)
            × ((e : ℕ) → e < length self.old → slice_index self.old e ≡ 1 → v ≤ e)) }
        ensures counts { MatchOption result (self.new ≡ self.old) (λ v. self.new ≡ slice_set self.old v 0) }
    {
        let key = self.ready.take()?;
        let event = key_of(key);
        self.counts[event as usize] = 0;
        Some(event)
    }

    /// One event fewer is open before one, before which some are.
    fn lower(&mut self, event: EventId) -> Result<(), OutOfMemory>
        requires event { event < length self.old }
        requires open { 2 ≤ slice_index self.old event }
        ensures { OnOk result (self.new ≡ slice_set self.old event (slice_index self.old event - 1)) }
    {
        let left = self.counts[event as usize] - 1;
        if left == 1 {
            self.ready.put(key_of(event))?;
        }
        self.counts[event as usize] = left;
        Ok(())
    }

    /// Counts an event as placed that was taken.
    pub(crate) fn place(&mut self, pairs: &Pairs, event: EventId) -> Result<(), OutOfMemory>
        requires within { (f : ℕ) → 0 < times_kept pairs.now event f → f < length self.old }
        requires open { (f : ℕ) → 0 < times_kept pairs.now event f
            → times_kept pairs.now event f + 1 ≤ slice_index self.old f }
        ensures size { OnOk result (length self.new ≡ length self.old) }
        ensures fewer { OnOk result ((f : ℕ) → slice_index self.new f
            ≡ slice_index self.old f - times_kept pairs.now event f) }
    {
        let mut head = pairs.head(event);
        'chain: while head > 0 {
            let (second, next) = pairs.link(head);
            self.lower(second)?;
            head = next;
        }
        Ok(())
    }
}
