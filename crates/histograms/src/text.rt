//! The text of a histogram.

ghost use Rattle.std.specs.Prelude.{◌≡◌, ◌++◌, IfOk, OnOk};
ghost use Rattle.std.specs.List.{flat_map};
ghost use Rattle.histograms.specs.Text.{arrow, bar_text, histogram_text, mark_text, unfinished_text};

use crate::histogram::Histogram;
use crate::tally::Tally;
use common::OutOfMemory;
use outcome_texts::items_of;
use outcomes::Outcome;
use program::Program;
use std::alloc::Global;
use texts::{put_text, put_text_and_number};

/// How a line names the first run that came to its outcome.
#[derive(Clone, Copy, Drop)]
pub enum Mark {
    /// By its seed; the first run of all has this one.
    Seed(u64),
    /// By its number, from 0.
    Run,
}

/// What stands before an outcome: `*>` where one of its runs is a violation.
fn arrow(violation: bool) -> &'static [u8]
    ensures { result.now ≡ arrow violation }
{
    if violation { b" *>" } else { b" :>" }
}

/// Adds what stands after an outcome: which run was the first.
fn put_mark(out: &mut Vec<u8>, mark: Mark, first: u64) -> Result<(), OutOfMemory>
    ensures { OnOk result (out.new.items ≡ out.old.items ++ mark_text mark first) }
{
    match mark {
        Mark::Seed(base) => put_text_and_number(
            out,
            b" # seed ",
            base.wrapping_add(first) as usize,
        ),
        Mark::Run => put_text_and_number(out, b" # run ", first as usize),
    }
}

/// The line of an outcome.
fn bar_text(
    alloc: Global,
    program: &Program,
    mark: Mark,
    outcome: &Outcome,
    tally: &Tally,
) -> Result<Vec<u8>, OutOfMemory>
    ensures { IfOk result (λ text. text.items ≡ bar_text program.now mark (outcome.now, tally.now)) }
{
    let mut text = Vec::new(alloc);
    put_text_and_number(&mut text, b"", tally.count as usize)?;
    put_text(&mut text, arrow(tally.violation))?;
    let items = items_of(alloc, program, outcome)?;
    put_text(&mut text, &items)?;
    put_mark(&mut text, mark, tally.first)?;
    text.push(b'\n')?;
    Ok(text)
}

/// Adds the lines of all outcomes.
fn put_bars(
    out: &mut Vec<u8>,
    alloc: Global,
    program: &Program,
    mark: Mark,
    histogram: &Histogram,
) -> Result<(), OutOfMemory>
    ensures { OnOk result (out.new.items
        ≡ out.old.items ++ flat_map (bar_text program.now mark) histogram.now.bars) }
{
    for i in 0..histogram.len() {
        let (outcome, tally) = histogram.bar(i);
        let line = bar_text(alloc, program, mark, outcome, tally)?;
        put_text(out, &line)?;
    }
    Ok(())
}

/// Adds how many runs are unfinished, if some are.
fn put_unfinished(out: &mut Vec<u8>, unfinished: usize) -> Result<(), OutOfMemory>
    ensures { OnOk result (out.new.items ≡ out.old.items ++ unfinished_text unfinished) }
{
    if unfinished == 0 {
        return Ok(());
    }
    put_text_and_number(out, b"unfinished: ", unfinished)?;
    out.push(b'\n')?;
    Ok(())
}

/// How many outcomes there are, a line for each, and how many runs are unfinished, if some are. Fails only if out of
/// memory.
pub fn histogram_text(
    alloc: Global,
    program: &Program,
    mark: Mark,
    histogram: &Histogram,
) -> Result<Vec<u8>, OutOfMemory>
    ensures { IfOk result (λ text. text.items ≡ histogram_text program.now mark histogram.now) }
{
    let mut out = Vec::new(alloc);
    put_text_and_number(&mut out, b"Histogram (", histogram.len())?;
    put_text(&mut out, b" states)\n")?;
    put_bars(&mut out, alloc, program, mark, histogram)?;
    put_unfinished(&mut out, histogram.unfinished_runs())?;
    Ok(out)
}
