//! The command `make`.
ghost use Rattle.std.specs.Prelude.{◌≡◌, IfErr, IfOk, string_bytes};
ghost use Rattle.commands.specs.Make.{IsMakeAnswer, IsMakeStop, cycle_line};

use crate::choices::cycle_choice;
use command_line::MakeOptions;
use cycles::{CycleRefusal, make};
use inputs::{CommandStop, PrintedRefusal};
use program_answers::{cycles_answer, made_answer};
use refusals::{E1, E2, E3, refused_at};
use report::Answer;
use std::alloc::{AllocError, Global};

/// What is printed of words that are no cycle.
fn cycle_refusal(alloc: Global, refusal: CycleRefusal) -> Result<PrintedRefusal, AllocError>
    ensures { IfOk result (λ printed. string_bytes printed.line ≡ cycle_line refusal) }
{
    let line = match refusal {
        CycleRefusal::Word(number) => refused_at(alloc, &E1, number)?,
        CycleRefusal::Open(number) => refused_at(alloc, &E2, number)?,
        CycleRefusal::Large(number) => refused_at(alloc, &E3, number)?,
    };
    Ok(PrintedRefusal { line, quote: None })
}

/// The program and the recording of a cycle, or the lines of all.
pub fn make_command(alloc: Global, options: &MakeOptions) -> Result<Answer, CommandStop>
    ensures ok { IfOk result (IsMakeAnswer options.now) }
    ensures err { IfErr result (IsMakeStop options.now) }
{
    match options {
        MakeOptions::Cycle(words) => match make(alloc, words.as_bytes())? {
            Ok(made) => Ok(made_answer(alloc, &made)?),
            Err(refusal) => Err(CommandStop::Refused(cycle_refusal(alloc, refusal)?)),
        },
        MakeOptions::All { events, forbidden } => {
            Ok(cycles_answer(alloc, *events, cycle_choice(*forbidden))?)
        }
    }
}
