//! Why a command stops before its answer.
ghost use Rattle.refusals.specs.Lines.{refused};
ghost use Rattle.inputs.specs.Refusal.{IsLineStop};

use crate::command_error::CommandError;
use common::OutOfMemory;
use refusals::line_of_name;
use std::alloc::{AllocError, Global};

/// What is printed of a text, a number or a name that is refused.
#[derive(Drop)]
pub struct PrintedRefusal {
    /// The line that is printed.
    pub line: String,
    /// The line of the input that is at fault, between quotation marks, where it is one line, and perhaps why.
    pub quote: Option<String>,
}

/// Why a command stops before its usual answer.
#[derive(Drop)]
pub enum CommandStop {
    /// A text, a number or a name is refused.
    Refused(PrintedRefusal),
    /// The command failed: the program ends with status 1.
    Failed(CommandError),
}

impl CommandStop {
    /// The refusal of this name, whose line has no number, or that memory ran out.
    pub fn of_name(alloc: Global, name: &str) -> CommandStop
        ensures { IsLineStop (refused name.now) result }
    {
        match line_of_name(alloc, name) {
            Ok(line) => CommandStop::Refused(PrintedRefusal { line, quote: None }),
            Err(_) => CommandStop::Failed(CommandError::OutOfMemory),
        }
    }
}

impl From<CommandError> for CommandStop {
    ghost use Rattle.std.specs.Prelude.{◌≡◌};
    ghost use Rattle.inputs.specs.declared.command_stop.CommandStop.TheVariants.{Failed};

    ghost from_gives = { λ error stop. stop ≡ Failed error };

    fn from(error: CommandError) -> CommandStop {
        CommandStop::Failed(error)
    }
}

impl From<OutOfMemory> for CommandStop {
    ghost use Rattle.std.specs.Prelude.{◌≡◌};
    ghost use Rattle.inputs.specs.declared.command_stop.CommandStop.TheVariants.{Failed};
    ghost use Rattle.inputs.specs.declared.command_error.CommandError.TheVariants.{OutOfMemory};

    ghost from_gives = { λ _ stop. stop ≡ Failed OutOfMemory };

    fn from(_refused: OutOfMemory) -> CommandStop {
        CommandStop::Failed(CommandError::OutOfMemory)
    }
}

impl From<AllocError> for CommandStop {
    ghost use Rattle.std.specs.Prelude.{◌≡◌};
    ghost use Rattle.inputs.specs.declared.command_stop.CommandStop.TheVariants.{Failed};
    ghost use Rattle.inputs.specs.declared.command_error.CommandError.TheVariants.{OutOfMemory};

    ghost from_gives = { λ _ stop. stop ≡ Failed OutOfMemory };

    fn from(_refused: AllocError) -> CommandStop {
        CommandStop::Failed(CommandError::OutOfMemory)
    }
}
