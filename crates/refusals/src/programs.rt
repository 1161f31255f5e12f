//! Refusals of programs.
ghost use Rattle.std.specs.Prelude.{◌≡◌};
ghost use Rattle.refusals.specs.Table.{group_of, of_programs};

use crate::refusal::{Group, Refusal};

/// The refusal L1 of a program.
pub const L1: Refusal<&str> = Refusal {
    name: "L1",
    counts: Some("line"),
    said: "is no line of a program",
    advice: "words are separated by one space, each line ends with a newline, `core` comes before operations and \
        `init` after them",
};

/// The refusal L2 of a program.
pub const L2: Refusal<&str> = Refusal {
    name: "L2",
    counts: Some("line"),
    said: "begins a seventeenth core",
    advice: "a program has at most 16 cores",
};

/// The refusal L3 of a program.
pub const L3: Refusal<&str> = Refusal {
    name: "L3",
    counts: Some("line"),
    said: "is a 513th operation",
    advice: "a program has at most 512 operations",
};

/// The refusal L4 of a program.
pub const L4: Refusal<&str> = Refusal {
    name: "L4",
    counts: Some("line"),
    said: "uses a seventeenth address",
    advice: "a program has at most 16 addresses",
};

/// The refusal L5 of a program.
pub const L5: Refusal<&str> = Refusal {
    name: "L5",
    counts: Some("line"),
    said: "has a value above 4294967295",
    advice: "values have 32 bits, the expected ones of `cas` too",
};

/// The refusal L6 of a program.
pub const L6: Refusal<&str> = Refusal {
    name: "L6",
    counts: Some("line"),
    said: "is an `init` of a name that no operation uses",
    advice: "addresses are what operations use",
};

/// The refusal L7 of a program.
pub const L7: Refusal<&str> = Refusal {
    name: "L7",
    counts: Some("line"),
    said: "is an `init` out of its order",
    advice: "each address has at most one, in the order in which operations first use them",
};

/// The refusal L8 of a program.
pub const L8: Refusal<&str> = Refusal {
    name: "L8",
    counts: Some("line"),
    said: "is an `init` of value 0",
    advice: "an address without `init` begins with 0",
};

/// The refusals of programs.
const PROGRAMS: (&str, &[Refusal<&str>]) = (
    "Of a program, whose lines are counted from 1",
    &[L1, L2, L3, L4, L5, L6, L7, L8],
);

/// The refusals of programs.
#[tactic(auto, unfolding(crate::specs::Table::of_programs))]
pub(crate) fn of_programs() -> Group
    ensures { group_of result ≡ of_programs }
{
    PROGRAMS
}
