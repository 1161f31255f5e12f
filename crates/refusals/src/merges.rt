//! Refusals of texts of campaigns and surveys that are added up.
ghost use Rattle.std.specs.Prelude.{◌≡◌};
ghost use Rattle.refusals.specs.Table.{group_of, of_merges};

use crate::refusal::{Group, Refusal};

/// The refusal M1 of texts that are added up.
pub const M1: Refusal<&str> = Refusal {
    name: "M1",
    counts: Some("line"),
    said: "is no line of such a text",
    advice: "it has each line that `trials` or `survey` prints, whole; lengths of cycles ascend, up to 512, then \
        comes `over 512`, and each has a count",
};

/// The refusal M2 of texts that are added up.
pub const M2: Refusal<&str> = Refusal {
    name: "M2",
    counts: Some("line"),
    said: "begins a text that no list of outcomes has",
    advice: "its counts add up, and after the first of a kind there is room for all of it",
};

/// The refusal M3 of texts that are added up.
pub const M3: Refusal<&str> = Refusal {
    name: "M3",
    counts: Some("line"),
    said: "begins a text of the other kind than the first",
    advice: "all are those of campaigns, or all those of surveys",
};

/// The refusal M4 of texts that are added up.
pub const M4: Refusal<&str> = Refusal {
    name: "M4",
    counts: Some("line"),
    said: "begins a text of another campaign",
    advice: "all options of headers but `--seed` and `--trials`, or `--from` and `--lines`, are those of the first",
};

/// The refusal M5 of texts that are added up.
pub const M5: Refusal<&str> = Refusal {
    name: "M5",
    counts: Some("seeds or lines"),
    said: "are in no text",
    advice: "texts with headers follow each other; with `--partial` some may be missing",
};

/// The refusal M6 of texts that are added up.
pub const M6: Refusal<&str> = Refusal {
    name: "M6",
    counts: Some("seeds or lines"),
    said: "are in two texts",
    advice: "each is counted once",
};

/// The refusal M7 of texts that are added up.
pub const M7: Refusal<&str> = Refusal {
    name: "M7",
    counts: Some("line"),
    said: "begins a text with which there are 2^64 or more",
    advice: "a count has 64 bits",
};

/// The refusal M8 of texts that are added up.
pub const M8: Refusal<&str> = Refusal {
    name: "M8",
    counts: Some("line"),
    said: "begins a text without a header",
    advice: "where the first text has one, or with `--partial`, each has",
};

/// The refusals of texts that are added up.
const MERGES: (&str, &[Refusal<&str>]) = (
    "Of texts of campaigns or surveys, whose lines are counted from 1, with the name of the file",
    &[M1, M2, M3, M4, M5, M6, M7, M8],
);

/// The refusals of texts that are added up.
#[tactic(auto, unfolding(crate::specs::Table::of_merges))]
pub(crate) fn of_merges() -> Group
    ensures { group_of result ≡ of_merges }
{
    MERGES
}
