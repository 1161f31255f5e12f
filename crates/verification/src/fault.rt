//! The line at fault of a text that is no proof.

ghost use Rattle.std.specs.Prelude.{◌≡◌, ◌≢◌, ◌++◌, ◌≤◌, ◌↔◌, IfOk, IsTrue, codes};
ghost use Rattle.common.specs.declared.limits.TheConstants.{MAX_EVENTS};
ghost use Rattle.recording.specs.Execution.{event_count};
ghost use Rattle.verification.specs.declared.text_check.TextCheck.TheVariants.{Holds};
ghost use Rattle.verification.specs.Faults.{IsOneLine, LinesHold, LongLinesHold, NamesFault, longest_cycle};
ghost use Rattle.verification.specs.Held.{IsLineOrNone, IsMost};

use crate::cycle_lines::put_cycle_that_holds;
use crate::printed::first_difference;
use crate::reading::read_answer;
use crate::row_lines::put_rows_that_hold;
use crate::text_check::TextCheck;
use crate::unlabelled::put_answer_that_holds;
use common::{MAX_EVENTS, OutOfMemory};
use long::LongAnswer;
use recording::Recording;
use relations::Places;
use std::alloc::Global;
use texts::Cursor;

/// Whether the text of an answer is one line.
fn is_one_line(answer: &LongAnswer) -> bool
    ensures { IsTrue result ↔ IsOneLine answer.now }
{
    match answer {
        LongAnswer::Order(_) | LongAnswer::Overlook(..) => true,
        LongAnswer::Cycle(_) => false,
    }
}

/// The line of an order or of an overlook with the numbers of a text, if it holds; else nothing.
fn line_that_holds(
    alloc: Global,
    recording: &Recording,
    text: &[u8],
) -> Result<Vec<u8>, OutOfMemory>
    ensures { IfOk result (λ v. IsMost (IsLineOrNone recording.now) text.now v.items) }
{
    recording.sound();
    let mut line = Vec::new(alloc);
    let mut rest = Cursor::new(text);
    let Some(answer) = read_answer(&mut rest, alloc, recording.len(), 0)? else {
        return Ok(line);
    };
    if !is_one_line(&answer) {
        return Ok(line);
    }
    let _holds = put_answer_that_holds(&mut line, alloc, recording, &answer)?;
    Ok(line)
}

/// The lines of a cycle of which this stands after its first words, as far as they hold.
fn cycle_that_holds(
    alloc: Global,
    recording: &Recording,
    places: &Places<'_>,
    rest: &mut Cursor<'_>,
) -> Result<Vec<u8>, OutOfMemory>
    requires same { places.now ≡ recording.now }
    requires few { event_count recording.now ≤ MAX_EVENTS }
    ensures { IfOk result (λ v. IsMost (LinesHold recording.now) (codes "cycle of " ++ rest.old) v.items) }
{
    recording.sound();
    let mut lines = Vec::new(alloc);
    let size = put_cycle_that_holds(&mut lines, places, rest, recording.len())?;
    let Some(size) = size else {
        return Ok(lines);
    };
    put_rows_that_hold(&mut lines, alloc, recording, rest, size)?;
    Ok(lines)
}

/// The first line of a text that does not hold after those before it, or that more lines are due. Fails only if out of
/// memory.
pub(crate) fn fault(
    alloc: Global,
    recording: &Recording,
    text: &[u8],
) -> Result<TextCheck, OutOfMemory>
    requires { event_count recording.now ≤ MAX_EVENTS }
    ensures line { IfOk result (NamesFault (LinesHold recording.now) text.now) }
    ensures fails { IfOk result (λ f. f ≢ Holds) }
{
    recording.sound();
    let mut rest = Cursor::new(text);
    if rest.take(b"cycle of ") {
        let places = Places::of(alloc, recording)?;
        let lines = cycle_that_holds(alloc, recording, &places, &mut rest)?;
        return Ok(first_difference(text, &lines));
    }
    let line = line_that_holds(alloc, recording, text)?;
    Ok(first_difference(text, &line))
}

/// As `fault`, of a text without labels, and of a recording of any length.
pub(crate) fn long_fault(
    alloc: Global,
    recording: &Recording,
    text: &[u8],
) -> Result<TextCheck, OutOfMemory>
    ensures line { IfOk result (NamesFault (LongLinesHold recording.now (longest_cycle text.now)) text.now) }
    ensures fails { IfOk result (λ f. f ≢ Holds) }
{
    recording.sound();
    let mut rest = Cursor::new(text);
    if rest.take(b"cycle of ") {
        let places = Places::of(alloc, recording)?;
        let mut lines = Vec::new(alloc);
        let most = rest.bytes_left();
        let _size = put_cycle_that_holds(&mut lines, &places, &mut rest, most)?;
        return Ok(first_difference(text, &lines));
    }
    let line = line_that_holds(alloc, recording, text)?;
    Ok(first_difference(text, &line))
}
