//! The flags that the words have.
ghost use Rattle.clap.specs.Words.{found_of, rows_of};
ghost use Rattle.command_line.specs.Entries.{AreEntries};
ghost use Rattle.command_line.specs.Options.{AreFlagsAsked};

use crate::entries::flag;
use clap::ArgMatches;

/// Whether the words have each flag.
#[derive(Drop)]
pub struct Flags {
    pub reduce: bool,
    pub header: bool,
    pub partial: bool,
    pub quiet: bool,
    pub all: bool,
    pub each: bool,
    pub complete: bool,
    pub unseen: bool,
    pub why: bool,
    pub long: bool,
    pub forbidden: bool,
}

/// The flags of these entries.
pub fn read_flags(matches: &ArgMatches<'_>) -> Flags
    requires { AreEntries (rows_of (found_of matches.now)) }
    ensures { AreFlagsAsked result (rows_of (found_of matches.now)) }
{
    Flags {
        reduce: flag(matches, "reduce"),
        header: flag(matches, "header"),
        partial: flag(matches, "partial"),
        quiet: flag(matches, "quiet"),
        all: flag(matches, "all"),
        each: flag(matches, "each"),
        complete: flag(matches, "complete"),
        unseen: flag(matches, "unseen"),
        why: flag(matches, "why"),
        long: flag(matches, "long"),
        forbidden: flag(matches, "forbidden"),
    }
}
