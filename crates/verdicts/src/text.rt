//! The text of a verdict.

ghost use Rattle.std.specs.Prelude.{◌≡◌, ◌++◌, ℕ, List, IfOk, OnOk};
ghost use Rattle.verdicts.specs.Verified.{Verifies};
ghost use Rattle.verdicts.specs.VerdictText.{order_line, overlook_line, IsVerdictText};

use crate::cycle::put_cycle;
use crate::verdict::Verdict;
use common::{EventId, OutOfMemory};
use recording::Recording;
use relations::Places;
use std::alloc::Global;
use texts::{put_number, put_numbers};

/// Adds the line of an order. Fails only if out of memory.
pub fn put_order(out: &mut Vec<u8>, order: &[EventId]) -> Result<(), OutOfMemory>
    ensures { OnOk result (out.new.items ≡ out.old.items ++ order_line order.now) }
{
    out.extend_from_slice(b"ordered:")?;
    put_numbers(out, order)?;
    out.push(b'\n')?;
    Ok(())
}

/// Adds the line of an overlook. Fails only if out of memory.
pub fn put_overlook(out: &mut Vec<u8>, load: EventId, store: EventId) -> Result<(), OutOfMemory>
    ensures { OnOk result (out.new.items ≡ out.old.items ++ overlook_line load store) }
{
    out.extend_from_slice(b"overlook: load ")?;
    put_number(out, load as usize)?;
    out.extend_from_slice(b" store ")?;
    put_number(out, store as usize)?;
    out.push(b'\n')?;
    Ok(())
}

/// Adds the text of a verdict that holds of the recording: the line of an order or of an overlook, or a cycle, with the
/// first reason for each pair, and the labels of each event.
pub(crate) fn put_verdict(
    alloc: Global,
    out: &mut Vec<u8>,
    recording: &Recording,
    verdict: &Verdict,
) -> Result<(), OutOfMemory>
    requires { Verifies recording.now verdict.now }
    ensures { OnOk result ((text : List ℕ) × IsVerdictText recording.now verdict.now text
        × (out.new.items ≡ out.old.items ++ text)) }
{
    recording.sound();
    match verdict {
        Verdict::Ordered(order) => put_order(out, order),
        Verdict::Overlook { load, store } => put_overlook(out, *load, *store),
        Verdict::Cycle(certificate) => {
            let places = Places::of(alloc, recording)?;
            put_cycle(alloc, out, &places, certificate)
        }
    }
}

/// The text of a verdict that holds of the recording: the line of an order or of an overlook, or a
/// cycle, with the first reason for each pair, and the labels of each event. Fails only if out of memory.
pub fn verdict_text(
    alloc: Global,
    recording: &Recording,
    verdict: &Verdict,
) -> Result<Vec<u8>, OutOfMemory>
    requires { Verifies recording.now verdict.now }
    ensures { IfOk result (λ text. IsVerdictText recording.now verdict.now text.items) }
{
    let mut out = Vec::new(alloc);
    put_verdict(alloc, &mut out, recording, verdict)?;
    Ok(out)
}
