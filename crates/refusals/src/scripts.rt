//! Refusals of scripts.
ghost use Rattle.std.specs.Prelude.{◌≡◌};
ghost use Rattle.refusals.specs.Table.{group_of, of_scripts};

use crate::refusal::{Group, Refusal};

/// The refusal S1 of a script.
pub const S1: Refusal<&str> = Refusal {
    name: "S1",
    counts: Some("line"),
    said: "is no step",
    advice: "steps are `exec C`, `drain C`, `gets C NAME`, `getm C NAME` and `put C NAME`, with one space between \
        words and a newline after each",
};

/// The refusal S2 of a script.
pub const S2: Refusal<&str> = Refusal {
    name: "S2",
    counts: Some("line"),
    said: "names a core that the program does not have",
    advice: "cores are numbered from 0",
};

/// The refusal S3 of a script.
pub const S3: Refusal<&str> = Refusal {
    name: "S3",
    counts: Some("line"),
    said: "names an address that the program does not have",
    advice: "addresses have the names that operations use",
};

/// The refusal S4 of a script.
pub const S4: Refusal<&str> = Refusal {
    name: "S4",
    counts: Some("line"),
    said: "is past the 1000000th",
    advice: "a script has at most 1000000 lines",
};

/// The refusals of scripts.
const SCRIPTS: (&str, &[Refusal<&str>]) = (
    "Of a script, whose lines are counted from 1",
    &[S1, S2, S3, S4],
);

/// The refusals of scripts.
#[tactic(auto, unfolding(crate::specs::Table::of_scripts))]
pub(crate) fn of_scripts() -> Group
    ensures { group_of result ≡ of_scripts }
{
    SCRIPTS
}
