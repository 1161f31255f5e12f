//! The texts of ledgers.

ghost use Rattle.std.specs.Prelude.{◌≡◌, ◌++◌, IfOk, OnOk, Some, length, slice_index};
ghost use Rattle.ledger.specs.Counted.{campaign_text, count_line, cycle_line, cycle_lines, first_line, length_name};
ghost use Rattle.ledger.specs.Counted.{ledger_text, place_name, survey_text};
ghost use Rattle.ledger.specs.Counted.{unjudged_counts, values_counts, values_firsts, values_survey_text};

use crate::code::LONG_CYCLE;
use crate::ledger::Ledger;
use crate::survey_ledger::SurveyLedger;
use common::OutOfMemory;
use std::alloc::Global;
use texts::put_number;

/// Adds the line of how many there are of a kind.
fn put_count(out: &mut Vec<u8>, name: &[u8], count: usize) -> Result<(), OutOfMemory>
    ensures { OnOk result (out.new.items ≡ out.old.items ++ count_line name.now count) }
{
    out.extend_from_slice(name)?;
    out.push(b' ')?;
    put_number(out, count)?;
    out.push(b'\n')?;
    Ok(())
}

/// Adds a length of cycles, or that it stands for all longer ones.
fn put_length(out: &mut Vec<u8>, cycle: usize) -> Result<(), OutOfMemory>
    ensures { OnOk result (out.new.items ≡ out.old.items ++ length_name cycle) }
{
    if cycle < LONG_CYCLE {
        return put_number(out, cycle);
    }
    out.extend_from_slice(b"over 512")?;
    Ok(())
}

/// Adds the line of a length of cycles and how many recordings have one, unless none has.
fn put_cycle_count(out: &mut Vec<u8>, cycle: usize, count: usize) -> Result<(), OutOfMemory>
    ensures { OnOk result (out.new.items ≡ out.old.items ++ cycle_line cycle count) }
{
    if count == 0 {
        return Ok(());
    }
    out.extend_from_slice(b"cycle ")?;
    put_length(out, cycle)?;
    out.extend_from_slice(b": ")?;
    put_number(out, count)?;
    out.push(b'\n')?;
    Ok(())
}

/// Adds a line for each length of cycles that there is.
fn put_cycle_counts(out: &mut Vec<u8>, counts: &[usize]) -> Result<(), OutOfMemory>
    ensures { OnOk result (out.new.items ≡ out.old.items ++ cycle_lines counts.now (length counts.now)) }
{
    for cycle in 0..counts.len() {
        put_cycle_count(out, cycle, counts[cycle])?;
    }
    Ok(())
}

/// Adds what is printed of a place, or that there is none.
fn put_place_or_none(
    out: &mut Vec<u8>,
    noun: &[u8],
    place: Option<usize>,
) -> Result<(), OutOfMemory>
    ensures { OnOk result (out.new.items ≡ out.old.items ++ place_name noun.now place) }
{
    let Some(place) = place else {
        out.extend_from_slice(b"none")?;
        return Ok(());
    };
    out.extend_from_slice(noun)?;
    out.push(b' ')?;
    put_number(out, place)
}

/// Adds the line of the first of a kind.
fn put_first(
    out: &mut Vec<u8>,
    name: &[u8],
    noun: &[u8],
    first: Option<usize>,
) -> Result<(), OutOfMemory>
    ensures { OnOk result (out.new.items ≡ out.old.items ++ first_line name.now noun.now first) }
{
    out.extend_from_slice(b"first ")?;
    out.extend_from_slice(name)?;
    out.extend_from_slice(b": ")?;
    put_place_or_none(out, noun, first)?;
    out.push(b'\n')?;
    Ok(())
}

/// How many bytes a text of counts is given room for before it is printed: most have no more.
const TEXT_ROOM: usize = 256;

/// The text of the counts of a ledger, by the names of all and of what has no verdict, and of its first
/// violation. Fails only if out of memory.
fn ledger_text(
    alloc: Global,
    all: &[u8],
    unjudged: &[u8],
    noun: &[u8],
    ledger: &Ledger,
) -> Result<Vec<u8>, OutOfMemory>
    ensures { IfOk result (λ text. text.items ≡ ledger_text all.now unjudged.now noun.now ledger.now) }
{
    let mut out = Vec::with_capacity(alloc, TEXT_ROOM)?;
    put_count(&mut out, all, ledger.total)?;
    put_count(&mut out, b"ordered", ledger.ordered)?;
    put_count(&mut out, unjudged, ledger.unjudged)?;
    put_count(&mut out, b"overlook", ledger.overlook)?;
    put_cycle_counts(&mut out, &ledger.cycles)?;
    put_first(&mut out, b"violation", noun, ledger.first)?;
    Ok(out)
}

/// The text of a campaign: how many trials there are and how they ended, a line for each length of cycles
/// that occurs, ascending, and the first violation. Fails only if out of memory.
pub fn campaign_text(alloc: Global, ledger: &Ledger) -> Result<Vec<u8>, OutOfMemory>
    ensures { IfOk result (λ text. text.items ≡ campaign_text ledger.now) }
{
    ledger_text(alloc, b"trials", b"unfinished", b"trial", ledger)
}

/// The text of a survey: how many recordings there are and of which kinds, a line for each length of cycles
/// that occurs, ascending, the first violation and the first refused recording. Fails only if out of memory.
pub fn survey_text(alloc: Global, ledger: &Ledger) -> Result<Vec<u8>, OutOfMemory>
    ensures { IfOk result (λ text. text.items ≡ survey_text ledger.now) }
{
    let mut out = ledger_text(alloc, b"recordings", b"refused", b"recording", ledger)?;
    put_first(&mut out, b"refused", b"recording", ledger.first_unjudged)?;
    Ok(out)
}

/// How many codes say that values are impossible.
fn impossible_count(ledger: &Ledger) -> usize
    ensures { result ≡ slice_index ledger.now.cycles.items 0 }
{
    match ledger.cycles.get(0) {
        Some(count) => *count,
        None => 0,
    }
}

/// Adds how many recordings a survey of values has, and how many of them have an order or are impossible.
fn put_values_counts(out: &mut Vec<u8>, survey: &SurveyLedger) -> Result<(), OutOfMemory>
    ensures { OnOk result (out.new.items ≡ out.old.items ++ values_counts survey.now) }
{
    put_count(out, b"recordings", survey.ledger.total)?;
    put_count(out, b"ordered", survey.ledger.ordered)?;
    put_count(out, b"impossible", impossible_count(&survey.ledger))
}

/// Adds how many of them are unfinished or unread.
fn put_unjudged_counts(out: &mut Vec<u8>, survey: &SurveyLedger) -> Result<(), OutOfMemory>
    ensures { OnOk result (out.new.items ≡ out.old.items ++ unjudged_counts survey.now) }
{
    put_count(out, b"unfinished", survey.unfinished.count)?;
    put_count(out, b"unread", survey.unread.count)
}

/// Adds the first of each kind but the orders.
fn put_values_firsts(out: &mut Vec<u8>, survey: &SurveyLedger) -> Result<(), OutOfMemory>
    ensures { OnOk result (out.new.items ≡ out.old.items ++ values_firsts survey.now) }
{
    put_first(out, b"impossible", b"recording", survey.ledger.first)?;
    put_first(out, b"unfinished", b"recording", survey.unfinished.first)?;
    put_first(out, b"unread", b"recording", survey.unread.first)
}

/// The text of a survey of values: how many recordings there are and of which kinds, and the first of each kind but the
/// orders. Fails only if out of memory.
pub fn values_survey_text(alloc: Global, survey: &SurveyLedger) -> Result<Vec<u8>, OutOfMemory>
    ensures { IfOk result (λ text. text.items ≡ values_survey_text survey.now) }
{
    let mut out = Vec::new(alloc);
    put_values_counts(&mut out, survey)?;
    put_unjudged_counts(&mut out, survey)?;
    put_values_firsts(&mut out, survey)?;
    Ok(out)
}
