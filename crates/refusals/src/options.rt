//! Refusals of options.
ghost use Rattle.std.specs.Prelude.{◌≡◌};
ghost use Rattle.refusals.specs.Table.{group_of, of_options};

use crate::refusal::{Group, Refusal};

/// The refusal K1 of options.
pub const K1: Refusal<&str> = Refusal {
    name: "K1",
    counts: None,
    said: "`--cores` is not from 1 to 16",
    advice: "a program has at most 16 cores",
};

/// The refusal K2 of options.
pub const K2: Refusal<&str> = Refusal {
    name: "K2",
    counts: None,
    said: "`--ops` is not from 1 to 512",
    advice: "it counts the operations of each core",
};

/// The refusal K3 of options.
pub const K3: Refusal<&str> = Refusal {
    name: "K3",
    counts: None,
    said: "`--addresses` is not from 1 to 16",
    advice: "a program has at most 16 addresses",
};

/// The refusal K4 of options.
pub const K4: Refusal<&str> = Refusal {
    name: "K4",
    counts: None,
    said: "`--cores` times `--ops` is above 512",
    advice: "a program has at most 512 operations",
};

/// The refusal K5 of options.
pub const K5: Refusal<&str> = Refusal {
    name: "K5",
    counts: None,
    said: "`--trials`, or of `--shard` the trials of the shard, is not from 1 to 65536",
    advice: "a larger campaign is run in more shards",
};

/// The refusal K6 of options.
pub const K6: Refusal<&str> = Refusal {
    name: "K6",
    counts: None,
    said: "`--attempts` or `--limit` is not from 1 to 1000000",
    advice: "it counts steps",
};

/// The refusal K7 of options.
pub const K7: Refusal<&str> = Refusal {
    name: "K7",
    counts: None,
    said: "`--buffer` is not from 1 to 512",
    advice: "it counts the stores that a buffer holds",
};

/// The refusal K8 of options.
pub const K8: Refusal<&str> = Refusal {
    name: "K8",
    counts: None,
    said: "`--workers` is not from 1 to 32",
    advice: "it counts threads",
};

/// The refusal K9 of options.
pub const K9: Refusal<&str> = Refusal {
    name: "K9",
    counts: None,
    said: "`--fault` is none of the six names",
    advice: "they are none, no-bypass, youngest-first, open-fence, stale-share and early-rmw",
};

/// The refusal K10 of options.
pub const K10: Refusal<&str> = Refusal {
    name: "K10",
    counts: None,
    said: "`--show` is not below `--trials`, or of `--shard` the trials of the shard",
    advice: "trials are numbered from 0",
};

/// The refusal K11 of options.
pub const K11: Refusal<&str> = Refusal {
    name: "K11",
    counts: None,
    said: "`--show` is not below the number of recordings",
    advice: "recordings are numbered from 0",
};

/// The refusal K12 of options.
pub const K12: Refusal<&str> = Refusal {
    name: "K12",
    counts: None,
    said: "`--states` is not from 1 to 4294967295",
    advice: "it counts the states that are looked at",
};

/// The refusal K13 of options.
pub const K13: Refusal<&str> = Refusal {
    name: "K13",
    counts: None,
    said: "`--runs` is not from 1 to 4294967295",
    advice: "it counts runs, of which each later one has the next seed",
};

/// The refusal K14 of options.
pub const K14: Refusal<&str> = Refusal {
    name: "K14",
    counts: None,
    said: "`--all` is not from 1 to 16",
    advice: "it counts the events of a cycle, with its fences",
};

/// The refusal K15 of options.
pub const K15: Refusal<&str> = Refusal {
    name: "K15",
    counts: None,
    said: "`--shard` is not I/N with I from 1 to N, and N up to 4294967295",
    advice: "shards are numbered from 1",
};

/// The refusal K16 of options.
pub const K16: Refusal<&str> = Refusal {
    name: "K16",
    counts: None,
    said: "`--from` or `--lines` is 0",
    advice: "lines are numbered from 1, and a survey has one at least",
};

/// The refusals of options.
const OPTIONS: (&str, &[Refusal<&str>]) = (
    "Of options",
    &[
        K1, K2, K3, K4, K5, K6, K7, K8, K9, K10, K11, K12, K13, K14, K15, K16,
    ],
);

/// The refusals of options.
#[tactic(auto, unfolding(crate::specs::Table::of_options))]
pub(crate) fn of_options() -> Group
    ensures { group_of result ≡ of_options }
{
    OPTIONS
}
