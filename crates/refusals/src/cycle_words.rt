//! Refusals of the words of a cycle.
ghost use Rattle.std.specs.Prelude.{◌≡◌};
ghost use Rattle.refusals.specs.Table.{group_of, of_cycles};

use crate::refusal::{Group, Refusal};

/// The refusal E1 of the words of a cycle.
pub const E1: Refusal<&str> = Refusal {
    name: "E1",
    counts: Some("word"),
    said: "is none, or there is no word",
    advice: "words are Po or MFence, s or d, and two of R, W, RA and WA; Rfe, Fre, Coe, Rfi, Fri and Coi",
};

/// The refusal E2 of the words of a cycle.
pub const E2: Refusal<&str> = Refusal {
    name: "E2",
    counts: Some("word"),
    said: "shows that these words are no cycle",
    advice: "each starts with the access in which the one before it ends; they come back to the first core and \
        address",
};

/// The refusal E3 of the words of a cycle.
pub const E3: Refusal<&str> = Refusal {
    name: "E3",
    counts: Some("word"),
    said: "goes beyond 512 events, 16 cores or 16 addresses",
    advice: "a program has no more",
};

/// The refusals of the words of a cycle.
const CYCLES: (&str, &[Refusal<&str>]) = (
    "Of the words of a cycle, which are counted from 1",
    &[E1, E2, E3],
);

/// The refusals of the words of a cycle.
#[tactic(auto, unfolding(crate::specs::Table::of_cycles))]
pub(crate) fn of_cycles() -> Group
    ensures { group_of result ≡ of_cycles }
{
    CYCLES
}
