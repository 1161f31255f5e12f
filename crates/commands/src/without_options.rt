//! What is answered where the words give no options.
ghost use Rattle.std.specs.Prelude.{◌≡◌, IfOk};
ghost use Rattle.commands.specs.WithoutOptions.{IsWithoutOptions};
ghost use Rattle.refusals.specs.Meanings.{meaning, meanings};
ghost use Rattle.refusals.specs.Table.{texts_of};

use crate::refused_options::option_refusal;
use command_line::OptionStop;
use common::OutOfMemory;
use inputs::{CommandError, CommandStop};
use refusals::{Refusal, meaning, meanings};
use report::{Answer, Outcome};
use std::alloc::Global;

/// The answer with what refusals mean. Fails only if out of memory.
fn meanings_answer(alloc: Global) -> Result<Answer, OutOfMemory>
    ensures { IfOk result (λ answer. (answer.outcome ≡ Outcome.Done) × (answer.text.items ≡ meanings)) }
{
    Ok(Answer {
        outcome: Outcome::Done,
        text: meanings(alloc)?,
    })
}

/// The answer with what a refusal means. Fails only if out of memory.
fn meaning_answer(alloc: Global, refusal: &Refusal<&str>) -> Result<Answer, OutOfMemory>
    ensures { IfOk result (λ answer. (answer.outcome ≡ Outcome.Done)
        × (answer.text.items ≡ meaning (texts_of refusal.now))) }
{
    Ok(Answer {
        outcome: Outcome::Done,
        text: meaning(alloc, refusal)?,
    })
}

/// The answer where there are no options: the help that was asked for, a refusal or an error.
pub(crate) fn without_options(alloc: Global, stop: OptionStop) -> Result<Answer, CommandStop>
    ensures { IsWithoutOptions stop result }
{
    match stop {
        OptionStop::Clap(error) => {
            if error.use_stderr() {
                return Err(CommandStop::Failed(CommandError::CommandLine(error)));
            }
            let text = format!(in alloc; "{error}")?;
            Ok(Answer {
                outcome: Outcome::Done,
                text: text.into_bytes(),
            })
        }
        OptionStop::RefusalMeanings => Ok(meanings_answer(alloc)?),
        OptionStop::RefusalMeaning(refusal) => Ok(meaning_answer(alloc, &refusal)?),
        OptionStop::StandardInputTwice => Err(CommandStop::Failed(
            CommandError::StandardInputTwice,
        )),
        OptionStop::Misfit(misfit) => Err(CommandStop::Failed(CommandError::Misfit(misfit))),
        OptionStop::Refused(refusal) => Err(CommandStop::Refused(option_refusal(alloc, refusal)?)),
        OptionStop::OutOfMemory => Err(CommandStop::Failed(CommandError::OutOfMemory)),
    }
}
