//! The text of what is found in each recording.

ghost use Rattle.std.specs.Prelude.{◌≡◌, ◌+◌, ◌<◌, ◌^◌, ◌++◌, IfOk, OnOk, length};
ghost use Rattle.surveys.specs.Each.{cycle_length_line, each_line, each_text, finding_line, recording_refusal_line};

use common::OutOfMemory;
use ledger::Finding;
use recording::RecError;
use std::alloc::Global;
use texts::put_number;
use verdicts::{put_overlook, recording_line};

/// Adds the line of a refusal.
fn put_refusal(alloc: Global, out: &mut Vec<u8>, refusal: RecError) -> Result<(), OutOfMemory>
    ensures { OnOk result (out.new.items ≡ out.old.items ++ recording_refusal_line refusal) }
{
    let Some(line) = recording_line(alloc, refusal)? else {
        return Ok(());
    };
    out.extend_from_slice(line.as_bytes())?;
    Ok(())
}

/// Adds the line of the length of a cycle.
fn put_length(out: &mut Vec<u8>, length: usize) -> Result<(), OutOfMemory>
    ensures { OnOk result (out.new.items ≡ out.old.items ++ cycle_length_line length) }
{
    out.extend_from_slice(b"cycle of ")?;
    put_number(out, length)?;
    out.push(b'\n')?;
    Ok(())
}

/// Adds the line of what is found.
fn put_finding(alloc: Global, out: &mut Vec<u8>, finding: Finding) -> Result<(), OutOfMemory>
    ensures { OnOk result (out.new.items ≡ out.old.items ++ finding_line finding) }
{
    match finding {
        Finding::Ordered => Ok(out.extend_from_slice(b"ordered\n")?),
        Finding::Overlook { load, store } => put_overlook(out, load, store),
        Finding::Cycle(length) => put_length(out, length),
        Finding::Impossible => Ok(out.extend_from_slice(b"impossible\n")?),
        Finding::Unfinished => Ok(out.extend_from_slice(b"unfinished\n")?),
        Finding::Refused(refusal) => put_refusal(alloc, out, refusal),
    }
}

/// Adds the number of a recording and what is found in it.
fn put_each(
    alloc: Global,
    out: &mut Vec<u8>,
    number: usize,
    finding: Finding,
) -> Result<(), OutOfMemory>
    ensures { OnOk result (out.new.items ≡ out.old.items ++ each_line number finding) }
{
    put_number(out, number)?;
    out.push(b' ')?;
    put_finding(alloc, out, finding)
}

/// The lines of what is found in recordings, of which the first has this number. Fails only if out of memory.
pub fn each_text(alloc: Global, first: usize, findings: &[Finding]) -> Result<Vec<u8>, OutOfMemory>
    requires { first + length findings.now < 2 ^ 64 }
    ensures { IfOk result (λ text. text.items ≡ each_text first findings.now) }
{
    let mut out = Vec::new(alloc);
    for i in 0..findings.len() {
        put_each(alloc, &mut out, first + i, findings[i])?;
    }
    Ok(out)
}
