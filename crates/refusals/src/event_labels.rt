//! Refusals of the labels of events.
ghost use Rattle.std.specs.Prelude.{◌≡◌};
ghost use Rattle.refusals.specs.Table.{group_of, of_labels};

use crate::refusal::{Group, Refusal};

/// The refusal A1 of labels.
pub const A1: Refusal<&str> = Refusal {
    name: "A1",
    counts: Some("line"),
    said: "is too long for a label",
    advice: "a label has at most 64 bytes",
};

/// The refusal A2 of labels.
pub const A2: Refusal<&str> = Refusal {
    name: "A2",
    counts: None,
    said: "there is not a line for each event of the recording",
    advice: "an empty line says that an event has no label",
};

/// The refusals of labels.
const LABELS: (&str, &[Refusal<&str>]) = (
    "Of the labels of events, whose lines are counted from 1",
    &[A1, A2],
);

/// The refusals of labels.
#[tactic(auto, unfolding(crate::specs::Table::of_labels))]
pub(crate) fn of_labels() -> Group
    ensures { group_of result ≡ of_labels }
{
    LABELS
}
