//! Counts after a header.
ghost use Rattle.std.specs.Prelude.{IfOk};
ghost use Rattle.commands.specs.Headed.{IsHeaded};

use common::OutOfMemory;
use headers::{Header, put_header};
use report::Answer;
use std::alloc::Global;
use texts::put_text;

/// An answer with counts, after a header where there is one. Fails only if out of memory.
pub fn with_header(
    alloc: Global,
    header: Option<Header>,
    counts: Answer,
) -> Result<Answer, OutOfMemory>
    ensures { IfOk result (IsHeaded header counts) }
{
    let Some(header) = header else {
        return Ok(counts);
    };
    let mut text = Vec::new(alloc);
    put_header(&mut text, &header)?;
    put_text(&mut text, &counts.text)?;
    Ok(Answer {
        outcome: counts.outcome,
        text,
    })
}
