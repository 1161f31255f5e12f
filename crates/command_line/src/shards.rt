//! The trials that are run: all of a campaign, or those of one of its shards.
ghost use Rattle.std.specs.Prelude.{◌≡◌, IfOk, IfSome, Option, Some, codes, ℕ};
ghost use Rattle.std.specs.Result.{result_err};
ghost use Rattle.program.specs.Shards.{IsShard};
ghost use Rattle.clap.specs.Words.{found_of, rows_of};
ghost use Rattle.texts.specs.Decimals.{AreValues};
ghost use Rattle.command_line.specs.Entries.{HasNumber};
ghost use Rattle.command_line.specs.Options.{IsInRange};
ghost use Rattle.command_line.specs.Refusals.{part_refusal};
ghost use Rattle.command_line.specs.Shards.{part_asked, shard_among, shard_written};

use crate::entries::{maybe_text, number_or};
use crate::options::{OptionRefusal, TRIALS};
use clap::ArgMatches;
use program::{Part, Shard, is_outside};
use texts::{Number, decimal};

/// The shard of this number among so many, where it is one of them.
fn shard_among(number: Option<Number>, count: Option<Number>) -> Option<Shard>
    ensures value { (i n : Option ℕ) → AreValues number i → AreValues count n → result ≡ shard_among i n }
    ensures within { IfSome result IsShard }
{
    match (number, count) {
        (Some(Number::Value(number)), Some(Number::Value(count))) => {
            if number < 1 || count < number {
                return None;
            }
            Some(Shard { number, count })
        }
        _ => None,
    }
}

/// The shard that a text writes, `I/N`.
fn shard_written(text: &str) -> Option<Shard>
    ensures value { result ≡ shard_written text.now }
    ensures within { IfSome result IsShard }
{
    let (number, count) = match text.split_once('/') {
        Some(halves) => halves,
        None => return None,
    };
    shard_among(decimal(number.as_bytes()), decimal(count.as_bytes()))
}

/// The trials that are run: those of the shard that the entries ask for, or all.
pub fn part(matches: &ArgMatches<'_>) -> Result<Part, OptionRefusal>
    requires { HasNumber (codes "trials") (rows_of (found_of matches.now)) }
    ensures ok { IfOk result (λ part. (part_asked (rows_of (found_of matches.now)) ≡ Some part)
        × IsInRange TRIALS.most part.trials part.trials) }
    ensures err { result_err result ≡ part_refusal (rows_of (found_of matches.now)) }
{
    let trials = number_or(matches, "trials", TRIALS.default);
    let part = match maybe_text(matches, "shard") {
        Some(text) => match shard_written(text) {
            Some(shard) => shard.part(trials),
            None => return Err(OptionRefusal::Shard),
        },
        None => Part { first: 0, trials },
    };
    if is_outside(TRIALS.most, part.trials as usize) {
        return Err(TRIALS.refusal);
    }
    Ok(part)
}
