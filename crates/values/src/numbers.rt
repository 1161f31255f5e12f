//! The events of values by their numbers.

use crate::values::Values;
use common::{EventId, MAX_EVENTS};
use recording::Event;

impl Values {
    ghost use Rattle.std.specs.Prelude.{◌≡◌, ◌≤◌, ◌<◌, MatchOption};
    ghost use Rattle.common.specs.declared.limits.TheConstants.{MAX_EVENTS};
    ghost use Rattle.recording.specs.Execution.{event_count, event_at};
    ghost use Rattle.values.specs.Refused.{events_alone};

    /// How many events there are; none where there are more than a recording may have.
    pub(crate) fn count(&self) -> Option<usize>
        ensures { MatchOption result (MAX_EVENTS < event_count (events_alone self.now))
            (λ n. (n ≡ event_count (events_alone self.now)) × (n ≤ MAX_EVENTS)) }
    {
        let mut count = 0;
        for events in self.cores() {
            if events.len() > MAX_EVENTS - count {
                return None;
            }
            count += events.len();
        }
        Some(count)
    }

    /// How many events there are, where they are no more than a recording may have.
    pub fn len(&self) -> usize
        requires { event_count (events_alone self.now) ≤ MAX_EVENTS }
        ensures { result ≡ event_count (events_alone self.now) }
    {
        self.count().unwrap_or(0)
    }

    /// The event of a number, without its source; a fence past the last event.
    pub fn event(&self, number: EventId) -> Event
        ensures { result ≡ event_at (events_alone self.now) number }
    {
        let mut rest = number as usize;
        for events in self.cores() {
            if rest < events.len() {
                return events[rest];
            }
            rest -= events.len();
        }
        Event::F
    }
}
