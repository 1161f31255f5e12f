//! The first rule that parts of a recording break.

use crate::fault::RecError;
use crate::numbered::Numbered;
use crate::parts::RecordingParts;
use crate::rules::ReadFault;
use crate::size::RecordingSize;
use crate::slots::{PackedSlot, PlaceRoom};
use common::{EventId, OutOfMemory};
use std::alloc::Global;

impl<'p> Numbered<'p> {
    ghost use Rattle.std.specs.Prelude.{◌↔◌, ◌≤◌, ℕ, IsTrue, MatchOption, length};
    ghost use Rattle.common.specs.declared.limits.TheConstants.{MAX_RECORDED_ADDRESSES, MAX_RECORDED_EVENTS};
    ghost use Rattle.recording.specs.declared.size.RecordingSize.{RecordingSize};
    ghost use Rattle.recording.specs.Execution.{event_count};
    ghost use Rattle.recording.specs.Recording.{IsWithinLimits};
    ghost use Rattle.recording.specs.Listed.{AreEventsRight, HasLists, HasSizes};
    ghost use Rattle.recording.specs.Refusals.{HasSource, HasValue, IsRefusal};

    /// Whether they have no more cores, events and addresses than a size allows, and an initial value for each address.
    fn has_sizes(&self, size: RecordingSize) -> bool
        requires { event_count self.now ≤ MAX_RECORDED_EVENTS }
        ensures { IsTrue result ↔ HasSizes size self.now }
    {
        let parts = self.parts();
        if parts.cores().len() > size.cores() {
            return false;
        }
        if self.len() > size.events() {
            return false;
        }
        if parts.writes().len() > size.addresses() {
            return false;
        }
        parts.init().len() == parts.writes().len()
    }

    /// What is wrong with the events: that one uses an address without a write list; where none does, the least whose
    /// source is no write to the address that it reads; where there is none, the least whose value read is not that of
    /// its source.
    fn wrong_event(&self) -> Option<RecError>
        requires events { event_count self.now ≤ MAX_RECORDED_EVENTS }
        requires addresses { length self.now.write_lists ≤ MAX_RECORDED_ADDRESSES }
        ensures { MatchOption result (AreEventsRight self.now)
            (λ e. (size : RecordingSize) → (HasLists self.now → IsWithinLimits size self.now)
            → IsRefusal size self.now e) }
    {
        let mut number: EventId = 0;
        let mut source = None;
        let mut value = None;
        for events in self.parts().cores() {
            for event in events {
                if !self.has_lists_of(event) {
                    return Some(RecError::Limits);
                }
                match self.read_fault(event) {
                    Some(ReadFault::Source) => source = source.or(Some(number)),
                    Some(ReadFault::Value) => value = value.or(Some(number)),
                    None => {}
                }
                number += 1;
            }
        }
        if let Some(number) = source {
            return Some(RecError::Source(number));
        }
        match value {
            Some(number) => Some(RecError::Value(number)),
            None => None,
        }
    }

    /// Why they are no recording, but for their write lists.
    fn wrong_part(&self, size: RecordingSize) -> Option<RecError>
        requires { event_count self.now ≤ MAX_RECORDED_EVENTS }
        ensures { MatchOption result (IsWithinLimits size self.now × ((e : ℕ) → HasSource self.now e)
            × ((e : ℕ) → HasValue self.now e)) (λ e. IsRefusal size self.now e) }
    {
        if !self.has_sizes(size) {
            return Some(RecError::Limits);
        }
        self.wrong_event()
    }
}

impl RecordingParts {
    ghost use Rattle.std.specs.Prelude.{IfErr, IfOk};
    ghost use Rattle.recording.specs.Listed.{AreAllPlaced};
    ghost use Rattle.recording.specs.Recording.{IsRecordingWithin};
    ghost use Rattle.recording.specs.Refusals.{IsRefusal};

    /// The places of their writes, where they are a recording of a size, or else what is refused first.
    pub(crate) fn placed(
        &self,
        alloc: Global,
        size: RecordingSize,
    ) -> Result<Result<Vec<PackedSlot>, RecError>, OutOfMemory>
        ensures ok { IfOk result (λ r. IfOk r (λ slots. IsRecordingWithin size self.now
            × AreAllPlaced self.now slots.items)) }
        ensures err { IfOk result (λ r. IfErr r (λ e. IsRefusal size self.now e)) }
    {
        let Some(count) = self.count() else {
            return Ok(Err(RecError::Limits));
        };
        let numbered = Numbered::new(PlaceRoom::new(alloc, count)?, self);
        if let Some(refusal) = numbered.wrong_part(size) {
            return Ok(Err(refusal));
        }
        let mut slots = numbered.into_slots();
        match self.first_without_list(&mut slots) {
            Some(address) => Ok(Err(RecError::WriteList(address))),
            None => Ok(Ok(slots)),
        }
    }
}
