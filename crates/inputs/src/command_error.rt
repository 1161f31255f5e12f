//! What ends the program with status 1.
ghost use Rattle.std.specs.Prelude.{◌≡◌, ◌↔◌, ◌⊎◌};
ghost use Rattle.std.specs.IoError.{error_kind};

use command_line::Misfit;
use common::OutOfMemory;
use std::io;
use std::io::ErrorKind;
use thiserror::Error;

/// Why a command fails. Its text goes to standard error.
#[derive(Debug, Drop, Error)]
pub enum CommandError {
    /// The words are not a command.
    #[error("{0}")]
    CommandLine(clap::Error),
    /// The command line names standard input for two inputs.
    #[error("tsotest: standard input is named for two inputs")]
    StandardInputTwice,
    /// Options of the command line don't go together.
    #[error("{0}")]
    Misfit(Misfit),
    /// A word of the command line is not UTF-8.
    #[error("tsotest: the command line is not text")]
    NotText,
    /// No file of this name can be opened.
    #[error("tsotest: cannot open {0}")]
    CannotOpen(String),
    /// An opened input can't be read to its end.
    #[error("tsotest: read failed")]
    ReadFailed,
    /// No number of 64 bits counts the bytes of an input.
    #[error("tsotest: the input is too long")]
    TooLong,
    /// Standard output takes no more bytes.
    #[error("tsotest: write failed")]
    WriteFailed,
    /// A thread was not started.
    #[error("tsotest: no thread")]
    NoThread,
    /// Threads left no run of the program.
    #[error("tsotest: stranger")]
    Stranger,
    /// There is no memory.
    #[error("tsotest: out of memory")]
    OutOfMemory,
}

impl CommandError {
    /// Why the words of the command line could not be had.
    pub fn of_words(error: io::Error) -> CommandError
        ensures one { (result ≡ CommandError.OutOfMemory) ⊎ (result ≡ CommandError.NotText) }
        ensures kind { (result ≡ CommandError.OutOfMemory) ↔ (error_kind error ≡ ErrorKind.OutOfMemory) }
    {
        if error.kind() == ErrorKind::OutOfMemory {
            CommandError::OutOfMemory
        } else {
            CommandError::NotText
        }
    }
}

impl From<OutOfMemory> for CommandError {
    ghost use Rattle.std.specs.Prelude.{◌≡◌};
    ghost use Rattle.inputs.specs.declared.command_error.CommandError.TheVariants.{OutOfMemory};

    ghost from_gives = { λ _ e. e ≡ OutOfMemory };

    fn from(_refused: OutOfMemory) -> CommandError {
        CommandError::OutOfMemory
    }
}
