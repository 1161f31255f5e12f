//! The lines of refused texts.
ghost use Rattle.std.specs.Prelude.{◌≡◌, IfOk, string_bytes};
ghost use Rattle.refusals.specs.Lines.{refusal_line};
ghost use Rattle.inputs.specs.Refusal.{step_refusal_name};

use crate::command_stop::PrintedRefusal;
use crate::quoting::{quote_line, quoted_with_cause};
use litmus::refusal_line;
use machine::StepRefusal;
use refusals::{L1, S1, S2, S3, S4};
use std::alloc::{AllocError, Global};

/// The name of the refusal of a script's line.
pub fn step_refusal_name(refusal: StepRefusal) -> &'static str
    ensures { result.now ≡ step_refusal_name refusal }
{
    match refusal {
        StepRefusal::S1 => S1.name,
        StepRefusal::S2 => S2.name,
        StepRefusal::S3 => S3.name,
        StepRefusal::S4 => S4.name,
    }
}

/// What is printed for a line of a text, counted from 1; of L1 a person is shown the cause, too.
pub fn line_refusal(
    alloc: Global,
    name: &str,
    line: usize,
    text: &[u8],
) -> Result<PrintedRefusal, AllocError>
    ensures { IfOk result (λ refusal. string_bytes refusal.line ≡ refusal_line name.now line) }
{
    let quote = if name == L1.name {
        quoted_with_cause(alloc, text, line)?
    } else {
        quote_line(alloc, text, line)?
    };
    Ok(PrintedRefusal {
        line: refusal_line(alloc, name, line)?,
        quote: Some(quote),
    })
}
