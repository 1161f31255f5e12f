//! How much is looked at, run, listed and surveyed.
ghost use Rattle.std.specs.Prelude.{◌≡◌, IfOk};
ghost use Rattle.std.specs.Result.{result_err};
ghost use Rattle.clap.specs.Words.{found_of, rows_of};
ghost use Rattle.command_line.specs.Entries.{AreEntries};
ghost use Rattle.command_line.specs.Options.{AreCountsAsked};
ghost use Rattle.command_line.specs.Refusals.{counts_refusal};

use crate::limited::{maybe_limited, number_within};
use crate::options::{CYCLES, FROM, LINES, OptionRefusal, RUNS, STATES};
use clap::ArgMatches;

/// How many states, runs and lines there are at most, where lines begin, and how many events cycles have at most.
#[derive(Drop)]
pub struct Counts {
    pub states: usize,
    pub runs: Option<usize>,
    pub cycles: Option<usize>,
    pub from: usize,
    pub lines: Option<usize>,
}

/// The counts that the entries ask for, or the first refusal: K12 to K14, K16.
pub fn read_counts(matches: &ArgMatches<'_>) -> Result<Counts, OptionRefusal>
    requires { AreEntries (rows_of (found_of matches.now)) }
    ensures ok { IfOk result (λ n. AreCountsAsked n (rows_of (found_of matches.now))) }
    ensures err { result_err result ≡ counts_refusal (rows_of (found_of matches.now)) }
{
    let states = number_within(matches, "states", STATES)?;
    let runs = maybe_limited(matches, "runs", RUNS)?;
    let cycles = maybe_limited(matches, "cycles", CYCLES)?;
    let from = number_within(matches, "from", FROM)?;
    let lines = maybe_limited(matches, "lines", LINES)?;
    Ok(Counts {
        states,
        runs,
        cycles,
        from,
        lines,
    })
}
