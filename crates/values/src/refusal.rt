//! The first rule that values break.

use crate::values::Values;
use common::{EventId, MAX_ADDRESSES, MAX_CORES};
use recording::RecError;

impl Values {
    ghost use Rattle.std.specs.Prelude.{◌≡◌, ◌↔◌, ◌<◌, ◌≤◌, ◌⊎◌, ℕ, IsTrue, MatchOption, length};
    ghost use Rattle.common.specs.declared.limits.TheConstants.{MAX_CORES, MAX_EVENTS, MAX_ADDRESSES};
    ghost use Rattle.recording.specs.Execution.{event_count, Reads, Writes};
    ghost use Rattle.recording.specs.Refusals.{IsLeastWithout};
    ghost use Rattle.values.specs.Refused.{events_alone, AreWithinLimits, HasKnownSource, HasKnownValue};
    ghost use Rattle.values.specs.Refused.{ObeyRules, AreRefused};

    /// Whether each address that is used has an initial value.
    fn has_all_initial_values(&self) -> bool
        requires { event_count (events_alone self.now) ≤ MAX_EVENTS }
        ensures { IsTrue result ↔ ((e a : ℕ) → Reads (events_alone self.now) e a
            ⊎ Writes (events_alone self.now) e a → a < length self.now.initial) }
    {
        for number in 0..self.len() as EventId {
            if !self.has_initial_values_of(number) {
                return false;
            }
        }
        true
    }

    /// Whether they are within the limits, each event has a place for its source, each address that is used has an
    /// initial value, and each that has one has a place for its final value.
    fn is_within_limits(&self) -> bool
        requires { event_count (events_alone self.now) ≤ MAX_EVENTS }
        ensures { IsTrue result ↔ AreWithinLimits self.now }
    {
        if self.cores().len() > MAX_CORES {
            return false;
        }
        if self.init().len() > MAX_ADDRESSES {
            return false;
        }
        if self.sources().len() != self.len() {
            return false;
        }
        if self.final_values().len() != self.init().len() {
            return false;
        }
        self.has_all_initial_values()
    }

    /// The least event that does not read, or can't have its source, though this is known.
    fn first_without_source(&self) -> Option<EventId>
        requires { AreWithinLimits self.now }
        ensures { MatchOption result ((e : ℕ) → HasKnownSource self.now e)
            (λ e. IsLeastWithout (HasKnownSource self.now) e) }
    {
        for number in 0..self.len() as EventId {
            if !self.has_known_source(number) {
                return Some(number);
            }
        }
        None
    }

    /// The least event whose value read is not that of its source, which is known.
    fn first_without_value(&self) -> Option<EventId>
        requires { AreWithinLimits self.now }
        ensures { MatchOption result ((e : ℕ) → HasKnownValue self.now e)
            (λ e. IsLeastWithout (HasKnownValue self.now) e) }
    {
        for number in 0..self.len() as EventId {
            if !self.has_known_value(number) {
                return Some(number);
            }
        }
        None
    }

    fn first_refusal(&self) -> Option<RecError>
        requires { event_count (events_alone self.now) ≤ MAX_EVENTS }
        ensures { MatchOption result (ObeyRules self.now) (λ e. AreRefused self.now e) }
    {
        if !self.is_within_limits() {
            return Some(RecError::Limits);
        }
        if let Some(event) = self.first_without_source() {
            return Some(RecError::Source(event));
        }
        if let Some(event) = self.first_without_value() {
            return Some(RecError::Value(event));
        }
        None
    }

    /// Why no recording can have these values and sources: the first refusal of the limits, of the least event that
    /// can't have the source that is known of it, of the least event that read another value than that source gives.
    /// None where no rule is broken.
    pub fn refusal(&self) -> Option<RecError>
        ensures { MatchOption result (ObeyRules self.now) (λ e. AreRefused self.now e) }
    {
        let Some(_) = self.count() else {
            return Some(RecError::Limits);
        };
        self.first_refusal()
    }
}
