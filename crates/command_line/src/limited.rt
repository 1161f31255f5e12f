//! Numbers of options, within their limits.
ghost use Rattle.std.specs.Prelude.{◌≡◌, IfOk};
ghost use Rattle.std.specs.Result.{result_err};
ghost use Rattle.clap.specs.Words.{found_of, rows_of};
ghost use Rattle.command_line.specs.Entries.{HasNumber};
ghost use Rattle.command_line.specs.Options.{IsNumber, MayBeNumber};
ghost use Rattle.command_line.specs.Refusals.{number_refusal};

use crate::entries::{number, number_or};
use crate::options::{Limits, OptionRefusal};
use clap::ArgMatches;
use program::is_outside;

/// The number of an option, where it is within its limits.
pub fn number_within(
    matches: &ArgMatches<'_>,
    id: &str,
    limits: Limits,
) -> Result<usize, OptionRefusal>
    requires { HasNumber id.now (rows_of (found_of matches.now)) }
    ensures ok { IfOk result (IsNumber id.now limits (rows_of (found_of matches.now))) }
    ensures err { result_err result ≡ number_refusal id.now limits (rows_of (found_of matches.now)) }
{
    let asked = number_or(matches, id, limits.default) as usize;
    if is_outside(limits.most, asked) {
        return Err(limits.refusal);
    }
    Ok(asked)
}

/// The number of an option, where there is an entry, and it is within its limits.
pub fn maybe_limited(
    matches: &ArgMatches<'_>,
    id: &str,
    limits: Limits,
) -> Result<Option<usize>, OptionRefusal>
    requires { HasNumber id.now (rows_of (found_of matches.now)) }
    ensures ok { IfOk result (λ n. MayBeNumber id.now limits n (rows_of (found_of matches.now))) }
    ensures err { result_err result ≡ number_refusal id.now limits (rows_of (found_of matches.now)) }
{
    let asked = number_within(matches, id, limits)?;
    match number(matches, id) {
        Some(_) => Ok(Some(asked)),
        None => Ok(None),
    }
}
