//! Refusals of what was observed, and of conditions.
ghost use Rattle.std.specs.Prelude.{◌≡◌};
ghost use Rattle.refusals.specs.Table.{group_of, of_observations};

use crate::refusal::{Group, Refusal};

/// The refusal O1 of what was observed, or of a condition.
pub const O1: Refusal<&str> = Refusal {
    name: "O1",
    counts: Some("line"),
    said: "has a word that is no item of the program, or one that stands twice",
    advice: "items are `C:rK=V;` and `[NAME]=V;`, or `NAME=V;`, of reading operations and addresses that the program \
        has",
};

/// The refusal O2 of what was observed, or of a condition.
pub const O2: Refusal<&str> = Refusal {
    name: "O2",
    counts: Some("item"),
    said: "is none of the program's, or stands twice",
    advice: "items are `C:rK=V` and `[NAME]=V`, or `NAME=V`, with `/\\` or a space between",
};

/// The refusals of what was observed, and of conditions.
const OBSERVATIONS: (&str, &[Refusal<&str>]) = (
    "Of what was observed, whose lines are counted from 1, and of conditions, whose items are",
    &[O1, O2],
);

/// The refusals of what was observed, and of conditions.
#[tactic(auto, unfolding(crate::specs::Table::of_observations))]
pub(crate) fn of_observations() -> Group
    ensures { group_of result ≡ of_observations }
{
    OBSERVATIONS
}
