//! The texts that arguments and options give.
ghost use Rattle.std.specs.Prelude.{◌≡◌, ◌++◌, [], IfOk, OnOk, Some, option_map, string_bytes};
ghost use Rattle.clap.specs.Words.{first_of, found_of, rows_of};
ghost use Rattle.command_line.specs.Entries.{HasText, joined_from, names_given, with_space};

use crate::entries::{maybe_text, maybe_texts};
use clap::ArgMatches;
use std::alloc::{AllocError, Global};

/// The name that an argument gives.
pub fn name_given(alloc: Global, matches: &ArgMatches<'_>, id: &str) -> Result<String, AllocError>
    requires { HasText id.now (rows_of (found_of matches.now)) }
    ensures { IfOk result (λ name. first_of id.now (rows_of (found_of matches.now))
        ≡ Some (string_bytes name)) }
{
    let Some(text) = maybe_text(matches, id) else {
        unreachable!()
    };
    String::from_str(alloc, text)
}

/// The name that an option may give.
pub fn maybe_given(
    alloc: Global,
    matches: &ArgMatches<'_>,
    id: &str,
) -> Result<Option<String>, AllocError>
    ensures { IfOk result (λ name. first_of id.now (rows_of (found_of matches.now))
        ≡ option_map string_bytes name) }
{
    match maybe_text(matches, id) {
        Some(name) => Ok(Some(String::from_str(alloc, name)?)),
        None => Ok(None),
    }
}

/// Adds a text, after a space unless it is the first.
fn join(words: &mut String, text: &str) -> Result<(), AllocError>
    ensures { OnOk result (string_bytes words.new ≡ with_space (string_bytes words.old) ++ text.now) }
{
    if !words.is_empty() {
        words.push_str(" ")?;
    }
    words.push_str(text)
}

/// The texts that an argument gives, with spaces between them.
pub fn joined_names(alloc: Global, matches: &ArgMatches<'_>, id: &str) -> Result<String, AllocError>
    ensures { IfOk result (λ words. string_bytes words ≡ joined_from [] (names_given id.now (rows_of (found_of
        matches.now)))) }
{
    let mut words = String::new(alloc);
    let Some(texts) = maybe_texts(matches, id) else {
        return Ok(words);
    };
    for text in texts {
        join(&mut words, text)?;
    }
    Ok(words)
}
