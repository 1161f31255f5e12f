//! The text of a cycle with its labels.

ghost use Rattle.std.specs.Prelude.{◌≡◌, ◌++◌, ℕ, List, OnOk, length};
ghost use Rattle.relations.specs.Cycle.{IsCycle};
ghost use Rattle.relations.specs.Forced.{Forced};
ghost use Rattle.labels.specs.Certified.{lists_of};
ghost use Rattle.texts.specs.NumberTexts.{AreTexts};
ghost use Rattle.verdicts.specs.VerdictText.{reason_name, pair_line, labels_line, labels_text, IsPairLine};
ghost use Rattle.verdicts.specs.VerdictText.{ArePairLines, IsCycleText};

use common::{EventId, OutOfMemory};
use labels::Certificate;
use relations::{Places, Reason, next_in_cycle};
use std::alloc::Global;
use texts::{NumberText, put_number, put_row, texts_up_to};

/// The name of a reason.
fn reason_name(reason: Reason) -> &'static [u8]
    ensures { result.now ≡ reason_name reason }
{
    match reason {
        Reason::Po => b"Po",
        Reason::Wo => b"Wo",
        Reason::Rf => b"Rf",
        Reason::Fr => b"Fr",
    }
}

/// Adds the line of a pair with a reason. Fails only if out of memory.
pub fn put_reason(
    out: &mut Vec<u8>,
    first: EventId,
    second: EventId,
    reason: Reason,
) -> Result<(), OutOfMemory>
    ensures { OnOk result (out.new.items ≡ out.old.items ++ pair_line first second reason) }
{
    put_number(out, first as usize)?;
    out.extend_from_slice(b" -> ")?;
    put_number(out, second as usize)?;
    out.push(b' ')?;
    out.extend_from_slice(reason_name(reason))?;
    out.push(b'\n')?;
    Ok(())
}

/// Adds the line of a forced pair.
fn put_pair(
    out: &mut Vec<u8>,
    places: &Places<'_>,
    first: EventId,
    second: EventId,
) -> Result<(), OutOfMemory>
    requires { Forced places.now first second }
    ensures { OnOk result ((line : List ℕ) × IsPairLine places.now first second line
        × (out.new.items ≡ out.old.items ++ line)) }
{
    put_reason(out, first, second, places.forced_reason(first, second))
}

/// Adds a line for each pair of neighbours of a cycle, with its first reason. Fails only if out of memory.
pub fn put_pairs(
    out: &mut Vec<u8>,
    places: &Places<'_>,
    cycle: &[EventId],
) -> Result<(), OutOfMemory>
    requires { IsCycle (Forced places.now) cycle.now }
    ensures { OnOk result ((lines : List ℕ) × ArePairLines places.now cycle.now (length cycle.now) lines
        × (out.new.items ≡ out.old.items ++ lines)) }
{
    for i in 0..cycle.len() {
        put_pair(out, places, cycle[i], next_in_cycle(cycle, i))?;
    }
    Ok(())
}

/// Adds the line of the labels from an event, by the texts of the first numbers.
fn put_labels(
    out: &mut Vec<u8>,
    event: usize,
    labels: &[u16],
    texts: &[NumberText],
) -> Result<(), OutOfMemory>
    requires { AreTexts texts.now }
    ensures { OnOk result (out.new.items ≡ out.old.items ++ labels_line event labels.now) }
{
    out.extend_from_slice(b"labels ")?;
    put_number(out, event)?;
    out.push(b':')?;
    put_row(out, labels, texts)?;
    out.push(b'\n')?;
    Ok(())
}

/// Adds a line for each row of labels, most of which are no more than this number. Fails only if out of memory.
pub fn put_rows(
    alloc: Global,
    out: &mut Vec<u8>,
    rows: &[Vec<u16>],
    most: usize,
) -> Result<(), OutOfMemory>
    ensures { OnOk result (out.new.items ≡ out.old.items
        ++ labels_text (lists_of rows.now) (length rows.now)) }
{
    let texts = texts_up_to(alloc, most.min(999) as u16)?;
    // Room for all lines at once, so that the text is not copied as it grows: few labels have more than three digits.
    let labels = rows.len().saturating_mul(4);
    out.reserve(rows.len().saturating_mul(labels.saturating_add(12)))?;
    for event in 0..rows.len() {
        put_labels(out, event, &rows[event], &texts)?;
    }
    Ok(())
}

/// Adds the text of a cycle with its labels, in a recording with these places.
pub(crate) fn put_cycle(
    alloc: Global,
    out: &mut Vec<u8>,
    places: &Places<'_>,
    certificate: &Certificate,
) -> Result<(), OutOfMemory>
    requires { IsCycle (Forced places.now) certificate.now.cycle.items }
    ensures { OnOk result ((text : List ℕ)
        × IsCycleText places.now certificate.now.cycle.items (lists_of certificate.now.rows.items) text
        × (out.new.items ≡ out.old.items ++ text)) }
{
    out.extend_from_slice(b"cycle of ")?;
    put_number(out, certificate.cycle.len())?;
    out.push(b'\n')?;
    put_pairs(out, places, &certificate.cycle)?;
    // The labels are cut at the length.
    put_rows(alloc, out, &certificate.rows, certificate.cycle.len())
}
