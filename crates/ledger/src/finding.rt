//! What is found of recordings and of values.

ghost use Rattle.std.specs.Prelude.{◌≡◌};
ghost use Rattle.ledger.specs.Findings.{counted_length, place_code, refusal_code};

use crate::code::{CYCLE, IMPOSSIBLE, LOAD, LONG_CYCLE, ORDERED, OVERLOOK, REFUSED, UNFINISHED};
use common::EventId;
use recording::RecError;
use verdicts::Verdict;

/// What is found of a recording, or of values: which verdict there is on it, what they come to, or why it is refused.
#[derive(Clone, Copy, Drop, PartialEq, Eq)]
pub enum Finding {
    /// It has an order, or they have one.
    Ordered,
    /// It has overlooks, and this is the least one.
    Overlook {
        /// The read.
        load: EventId,
        /// The store that it overlooks.
        store: EventId,
    },
    /// It has no overlook, and a cycle of this length: its least one, or, within the limits of a long recording, one
    /// without chords.
    Cycle(usize),
    /// TSO does not allow the values.
    Impossible,
    /// It was not found out whether TSO allows the values.
    Unfinished,
    /// It is refused.
    Refused(RecError),
}

impl Finding {
    ghost use Rattle.std.specs.Prelude.{◌≡◌};
    ghost use Rattle.ledger.specs.Findings.{finding_code, finding_of};

    /// That of a verdict.
    pub fn of(verdict: &Verdict) -> Finding
        ensures { result ≡ finding_of verdict.now }
    {
        match verdict {
            Verdict::Ordered(_) => Finding::Ordered,
            Verdict::Overlook { load, store } => Finding::Overlook {
                load: *load,
                store: *store,
            },
            Verdict::Cycle(certificate) => Finding::Cycle(certificate.cycle.len()),
        }
    }

    /// Its code: 2 of what is unfinished, 3 of an order, 16 of what is impossible, 16 and the length of a cycle, or 529
    /// where it has more than 512 events, 1,048,576 and 1,024 times the load and the store of an overlook, 65,536 times
    /// 1 to 7 and the event or the address, at most 65,535, of a refusal by N1 to N7. Running out of memory, which is
    /// no refusal, has 0.
    pub fn code(&self) -> u64
        ensures { result ≡ finding_code self.now }
    {
        match self {
            Finding::Ordered => ORDERED,
            Finding::Overlook { load, store } => {
                OVERLOOK + LOAD * u64::from(*load) + u64::from(*store)
            }
            Finding::Cycle(length) => CYCLE + counted_length(*length) as u64,
            Finding::Impossible => IMPOSSIBLE,
            Finding::Unfinished => UNFINISHED,
            Finding::Refused(refusal) => refusal_code(*refusal),
        }
    }
}

/// The length that a cycle has in its code.
fn counted_length(length: usize) -> usize
    ensures { result ≡ counted_length length }
{
    length.min(LONG_CYCLE)
}

/// The event or the address in the code of a refusal.
fn place_code(place: u32) -> u64
    ensures { result ≡ place_code place }
{
    u64::from(place).min(REFUSED - 1)
}

/// The code of a refusal.
fn refusal_code(refusal: RecError) -> u64
    ensures { result ≡ refusal_code refusal }
{
    match refusal {
        RecError::NotJson => REFUSED,
        RecError::Shape => REFUSED * 2,
        RecError::Version => REFUSED * 3,
        RecError::Limits => REFUSED * 4,
        RecError::Source(event) => REFUSED * 5 + place_code(event),
        RecError::Value(event) => REFUSED * 6 + place_code(event),
        RecError::WriteList(address) => REFUSED * 7 + place_code(address),
        RecError::OutOfMemory => 0,
    }
}
