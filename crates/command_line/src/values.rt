//! The numbers, the fault and the flags that entries ask for, and the first refusal of K1 to K10 and K12 to K16.
ghost use Rattle.std.specs.Prelude.{◌≡◌, ◌<◌, IfOk, IfSome, Ok, Some, codes, option_map, true};
ghost use Rattle.std.specs.Result.{result_err};
ghost use Rattle.clap.specs.Words.{found_of, rows_of};
ghost use Rattle.command_line.specs.Entries.{AreEntries, HasNumber, machine_fault_of, show_of};
ghost use Rattle.command_line.specs.Options.{AreValuesAsked};
ghost use Rattle.command_line.specs.Refusals.{fault_refusal, refusal_of, refusal_of_show, shape_asked, sizes_refusal};

use crate::counts::{Counts, read_counts};
use crate::entries::{maybe_text, number, number_or};
use crate::flags::{Flags, read_flags};
use crate::limited::number_within;
use crate::options::{
    ATTEMPTS, BUFFER, DEFAULT_FAULT, DEFAULT_SEED, LIMIT, OptionRefusal, WORKERS,
};
use crate::shards::part;
use clap::ArgMatches;
use headers::fault_named;
use program::{Fault, Part, Shape};

/// The numbers, the fault and the flags that entries ask for: where there is no entry, the default.
#[derive(Drop)]
pub struct Values {
    pub shape: Option<Shape>,
    pub seed: u64,
    pub part: Part,
    pub attempts: usize,
    pub limit: usize,
    pub buffer: usize,
    pub workers: usize,
    pub fault: Fault,
    pub show: Option<usize>,
    pub counts: Counts,
    pub flags: Flags,
}

/// The shape of the sizes, where there are sizes.
fn shape(matches: &ArgMatches<'_>) -> Result<Option<Shape>, OptionRefusal>
    requires { AreEntries (rows_of (found_of matches.now)) }
    ensures ok { IfOk result (λ shape. shape_asked (rows_of (found_of matches.now)) ≡ option_map Ok shape) }
    ensures err { result_err result ≡ sizes_refusal (rows_of (found_of matches.now)) }
{
    let ops = number_or(matches, "ops", 0);
    let addresses = number_or(matches, "addresses", 0);
    match number(matches, "cores") {
        Some(cores) => match Shape::new(cores as usize, ops as usize, addresses as usize) {
            Ok(shape) => Ok(Some(shape)),
            Err(refusal) => Err(OptionRefusal::Shape(refusal)),
        },
        None => Ok(None),
    }
}

/// The fault that is asked for.
fn fault(matches: &ArgMatches<'_>) -> Result<Fault, OptionRefusal>
    ensures ok { IfOk result (λ fault. machine_fault_of (rows_of (found_of matches.now)) ≡ Some fault) }
    ensures err { result_err result ≡ fault_refusal (rows_of (found_of matches.now)) }
{
    let Some(name) = maybe_text(matches, "fault") else {
        return Ok(DEFAULT_FAULT);
    };
    fault_named(name.as_bytes()).ok_or(OptionRefusal::Fault)
}

/// What is to be shown: of a campaign, one of this many trials.
fn show(
    matches: &ArgMatches<'_>,
    is_campaign: bool,
    trials: u64,
) -> Result<Option<usize>, OptionRefusal>
    requires { HasNumber (codes "show") (rows_of (found_of matches.now)) }
    ensures ok { IfOk result (λ show. (show ≡ show_of (rows_of (found_of matches.now)))
        × (is_campaign ≡ true → IfSome show (λ k. k < trials))) }
    ensures err { result_err result
        ≡ refusal_of_show is_campaign (show_of (rows_of (found_of matches.now))) trials }
{
    match number(matches, "show") {
        Some(k) => {
            if is_campaign && trials <= k {
                return Err(OptionRefusal::Show);
            }
            Ok(Some(k as usize))
        }
        None => Ok(None),
    }
}

/// What the entries ask for, or the first refusal: K1 to K4, K15, K5 to K10, K12 to K14, K16.
pub fn read_values(matches: &ArgMatches<'_>) -> Result<Values, OptionRefusal>
    requires { AreEntries (rows_of (found_of matches.now)) }
    ensures ok { IfOk result (λ n. AreValuesAsked n (rows_of (found_of matches.now))) }
    ensures err { result_err result ≡ refusal_of (rows_of (found_of matches.now)) }
{
    let shape = shape(matches)?;
    let part = part(matches)?;
    let attempts = number_within(matches, "attempts", ATTEMPTS)?;
    let limit = number_within(matches, "limit", LIMIT)?;
    let buffer = number_within(matches, "buffer", BUFFER)?;
    let workers = number_within(matches, "workers", WORKERS)?;
    let fault = fault(matches)?;
    let show = show(matches, shape.is_some(), part.trials)?;
    let counts = read_counts(matches)?;
    Ok(Values {
        shape,
        seed: number_or(matches, "seed", DEFAULT_SEED),
        part,
        attempts,
        limit,
        buffer,
        workers,
        fault,
        show,
        counts,
        flags: read_flags(matches),
    })
}
