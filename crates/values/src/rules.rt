//! The rules of single events that values may break.

ghost use Rattle.std.specs.Prelude.{◌≡◌, ◌↔◌, ◌<◌, ℕ, IsTrue, Some};

use crate::values::Values;
use common::{Addr, EventId};

/// Whether an address, if there is one, is below a count.
fn is_below(address: Option<Addr>, count: usize) -> bool
    ensures { IsTrue result ↔ ((a : ℕ) → address ≡ Some a → a < count) }
{
    match address {
        Some(address) => (address as usize) < count,
        None => true,
    }
}

impl Values {
    ghost use Rattle.std.specs.Prelude.{◌≡◌, ◌↔◌, ◌<◌, ◌⊎◌, ℕ, IsTrue, length};
    ghost use Rattle.recording.specs.Execution.{Reads, Writes, initial_value};
    ghost use Rattle.values.specs.Refused.{events_alone, HasKnownSource, HasKnownValue};

    /// Whether each address that an event uses has an initial value.
    pub(crate) fn has_initial_values_of(&self, number: EventId) -> bool
        ensures { IsTrue result ↔ ((a : ℕ) → Reads (events_alone self.now) number a
            ⊎ Writes (events_alone self.now) number a → a < length self.now.initial) }
    {
        let event = self.event(number);
        let count = self.init().len();
        is_below(event.read_address(), count) && is_below(event.written_address(), count)
    }

    /// Whether an event reads, and may have its source, where this is known.
    pub(crate) fn has_known_source(&self, number: EventId) -> bool
        ensures { IsTrue result ↔ HasKnownSource self.now number }
    {
        let Some(source) = self.source(number) else {
            return true;
        };
        let Some(address) = self.event(number).read_address() else {
            return false;
        };
        match source {
            Some(write) => self.event(write).writes_to(address),
            None => true,
        }
    }

    /// The initial value of an address; 0 where there is none.
    fn initial_value(&self, address: Addr) -> u32
        ensures { result ≡ initial_value (events_alone self.now) address }
    {
        if address as usize >= self.init().len() {
            return 0;
        }
        self.init()[address as usize]
    }

    /// Whether the value that an event reads is that of its source, where this is known.
    pub(crate) fn has_known_value(&self, number: EventId) -> bool
        ensures { IsTrue result ↔ HasKnownValue self.now number }
    {
        let event = self.event(number);
        let Some(address) = event.read_address() else {
            return true;
        };
        let Some(source) = self.source(number) else {
            return true;
        };
        match source {
            Some(write) => self.event(write).value_written() == event.value_read(),
            None => event.value_read() == self.initial_value(address),
        }
    }
}
