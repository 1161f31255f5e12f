//! What is answered to counts of several texts.
ghost use Rattle.std.specs.Prelude.{◌≡◌, ◌++◌, IfOk, OnOk};
ghost use Rattle.headers.specs.Headers.{header_line};
ghost use Rattle.merging.specs.Merge.{IsJoinedAnswer, IsMergedAnswer, missing_line};

use answers::{CountsPlace, survey_answer, trials_answer};
use common::OutOfMemory;
use headers::put_header;
use ledger::{Gaps, Joined, Kind, Ledger, kind_of};
use std::alloc::Global;
use texts::{put_text, put_text_and_number};
use verdicts::Answer;

/// What is answered to the counts of several texts.
pub(crate) fn merged_answer(
    alloc: Global,
    kind: Kind,
    ledger: &Ledger,
) -> Result<Answer, OutOfMemory>
    ensures { IfOk result (IsMergedAnswer kind ledger.now) }
{
    match kind {
        Kind::Campaign => trials_answer(alloc, ledger),
        Kind::Survey => survey_answer(alloc, ledger, CountsPlace::Alone),
    }
}

/// Adds the line of how many are missing, where gaps are counted.
fn put_missing(out: &mut Vec<u8>, gaps: Gaps, missing: u64) -> Result<(), OutOfMemory>
    ensures { OnOk result (out.new.items ≡ out.old.items ++ missing_line gaps missing) }
{
    match gaps {
        Gaps::Refuse => Ok(()),
        Gaps::Count => {
            put_text_and_number(out, b"missing ", missing as usize)?;
            put_text(out, b"\n")
        }
    }
}

/// Adds the header of what is joined, how many are missing, and the text of the counts.
fn put_joined(
    out: &mut Vec<u8>,
    gaps: Gaps,
    joined: &Joined,
    counts: &[u8],
) -> Result<(), OutOfMemory>
    ensures { OnOk result (out.new.items ≡ out.old.items ++ (header_line joined.now.header
        ++ (missing_line gaps joined.now.missing ++ counts.now))) }
{
    put_header(out, &joined.header)?;
    put_missing(out, gaps, joined.missing)?;
    put_text(out, counts)
}

/// What is answered to the counts of texts with headers.
pub(crate) fn joined_answer(
    alloc: Global,
    gaps: Gaps,
    joined: &Joined,
) -> Result<Answer, OutOfMemory>
    ensures { IfOk result (IsJoinedAnswer gaps joined.now) }
{
    let counts = merged_answer(alloc, kind_of(&joined.header.counted), &joined.ledger)?;
    let mut text = Vec::new(alloc);
    put_joined(&mut text, gaps, joined, &counts.text)?;
    Ok(Answer {
        outcome: counts.outcome,
        text,
    })
}
