//! What is said on standard error of a command that failed.

use devices::Disk;
use inputs::CommandError;
use std::alloc::{AllocError, Global};
use std::io::ErrorKind;

/// The commands whose lines for an input that can't be read are fixed.
const FIXED: [&str; 4] = ["run", "judge", "live", "replay"];

/// Whom a text on standard error is for.
#[derive(Clone, Copy, PartialEq, Eq)]
pub enum Audience {
    /// A script, which knows the fixed lines.
    Script,
    /// A person, at a terminal, or who asks for words.
    Person,
}

/// Whether words ask that a refusal or an error is explained: `--words`, before `--`.
fn asks_for_words(words: &[String]) -> bool {
    for word in words {
        if word.as_str() == "--" {
            return false;
        }
        if word.as_str() == "--words" {
            return true;
        }
    }
    false
}

impl Audience {
    /// A person, where these words ask for it.
    pub fn of_words(words: &[String]) -> Audience {
        if asks_for_words(words) {
            Audience::Person
        } else {
            Audience::Script
        }
    }
}

/// Whether the line for an input that can't be read is a fixed one for these words.
fn is_fixed(words: &[String]) -> bool {
    match words.first() {
        Some(command) => FIXED.contains(&command.as_str()),
        None => false,
    }
}

/// What is said of a name.
fn said_of(name: &str) -> &str {
    if name == "-" { "standard input" } else { name }
}

/// The line for an input that can't be read, with its name and the reason, as far as the disk knows them.
fn input_text(
    alloc: Global,
    error: &CommandError,
    disk: &Disk<'_>,
) -> Result<Option<String>, AllocError> {
    match (error, disk.last_name()) {
        (CommandError::ReadFailed, Some(name)) => Ok(Some(format!(in alloc;
            "tsotest: {}: read failed\n",
            said_of(name)
        )?)),
        (CommandError::CannotOpen(name), _) => match disk.reason() {
            None | Some(ErrorKind::Other | ErrorKind::Uncategorized) => Ok(None),
            Some(ErrorKind::NotFound) => Ok(Some(format!(in alloc;
                "tsotest: cannot open {name}: no such file or directory\n"
            )?)),
            Some(kind) => Ok(Some(format!(in alloc; "tsotest: cannot open {name}: {kind}\n")?)),
        },
        _ => Ok(None),
    }
}

/// What standard error says of an error of the command of these words, with its newline. For a person it has the name
/// of the input and the reason also where the line is fixed. Fails only if out of memory.
pub fn error_text(
    alloc: Global,
    words: &[String],
    error: &CommandError,
    disk: &Disk<'_>,
    audience: Audience,
) -> Result<String, AllocError> {
    if audience == Audience::Person || !is_fixed(words) {
        if let Some(text) = input_text(alloc, error, disk)? {
            return Ok(text);
        }
    }
    match error {
        // This text ends its own lines.
        CommandError::CommandLine(said) => format!(in alloc; "{said}"),
        error => format!(in alloc; "{error}\n"),
    }
}
