//! What was seen of an execution, values alone.

ghost use Rattle.std.specs.Prelude.{◌≡◌};
ghost use Rattle.outcomes.specs.Observed.{ExplainsAllowed, explains, is_of_one, shows, shows_all};

use crate::outcome::Outcome;
use common::{Addr, EventId};
use situations::value_at;

/// One value that was seen.
#[derive(Clone, Copy, PartialEq, Eq)]
pub enum Observation {
    /// The event read the value.
    Read(EventId, u32),
    /// The address ended with the value.
    Final(Addr, u32),
}

/// Whether two values are of one event, or of one address.
pub fn is_of_one(one: Observation, other: Observation) -> bool
    ensures { result ≡ is_of_one one other }
{
    match one {
        Observation::Read(event, _) => match other {
            Observation::Read(other, _) => event == other,
            Observation::Final(_, _) => false,
        },
        Observation::Final(address, _) => match other {
            Observation::Read(_, _) => false,
            Observation::Final(other, _) => address == other,
        },
    }
}

/// Whether an outcome shows the value.
fn shows(outcome: &Outcome, seen: Observation) -> bool
    ensures { result ≡ shows outcome.now seen }
{
    match seen {
        Observation::Read(event, value) => value_at(outcome.reads(), event as usize) == value,
        Observation::Final(address, value) => value_at(outcome.memory(), address as usize) == value,
    }
}

/// Whether an outcome shows all values.
pub fn shows_all(outcome: &Outcome, seen: &[Observation]) -> bool
    ensures { result ≡ shows_all outcome.now seen.now }
{
    for one in seen {
        if !shows(outcome, *one) {
            return false;
        }
    }
    true
}

/// Whether one of the outcomes shows all values.
fn some_shows(outcomes: &[Outcome], seen: &[Observation]) -> bool
    ensures { result ≡ explains outcomes.now seen.now }
{
    for outcome in outcomes {
        if shows_all(outcome, seen) {
            return true;
        }
    }
    false
}

/// Whether one of the outcomes shows all values: of all outcomes of a program, whether TSO allows what was seen.
pub fn explains(outcomes: &[Outcome], seen: &[Observation]) -> bool
    ensures value { result ≡ explains outcomes.now seen.now }
    ensures allowed { ExplainsAllowed outcomes.now seen.now }
{
    some_shows(outcomes, seen)
}
