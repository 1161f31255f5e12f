//! Logs of what was observed of a program.

ghost use Rattle.std.specs.Prelude.{◌≡◌, ◌++◌, ◌∷◌, [], ◌≤◌, Err, IfOk, MatchResult, Ok, OnOk, length, map};
ghost use Rattle.std.specs.List.{list_any, prefix_len};
ghost use Rattle.outcome_texts.specs.ObservedLine.{is_colon, is_equals};
ghost use Rattle.outcome_texts.specs.Log.{bracketed, count_text, is_item, is_refused, is_semicolon, is_silent};
ghost use Rattle.outcome_texts.specs.Log.{is_plain, item_text, item_texts, line_says, log_from, log_says};
ghost use Rattle.outcome_texts.specs.Log.{no_equals, with_line, words_say};

use crate::head::{after_blanks, after_count, before_comment, count_len};
use crate::items::Ending;
use crate::saying::said_by;
use crate::seen::{LineSays, SeenLine};
use crate::words::{lines_of, words_of};
use common::OutOfMemory;
use program::Program;
use std::alloc::Global;
use texts::put_text;

/// Whether a word has `=`.
fn has_equals(word: &[u8]) -> bool
    ensures { result ≡ list_any is_equals word.now }
{
    word.iter().any(|b| *b == b'=')
}

/// Whether a word has `;`.
fn has_semicolon(word: &[u8]) -> bool
    ensures { result ≡ list_any is_semicolon word.now }
{
    word.iter().any(|b| *b == b';')
}

/// Whether a word has `:`.
fn has_colon(word: &[u8]) -> bool
    ensures { result ≡ list_any is_colon word.now }
{
    word.iter().any(|b| *b == b':')
}

/// Whether a word is an item: it has `=` and `;`.
fn is_item(word: &[u8]) -> bool
    ensures { result ≡ is_item word.now }
{
    has_equals(word) && has_semicolon(word)
}

/// Whether one of the words is an item.
fn has_item(words: &[Vec<u8>]) -> bool
    ensures { result ≡ list_any is_item (map (λ w. w.items) words.now) }
{
    for word in words {
        if is_item(word) {
            return true;
        }
    }
    false
}

/// Whether a line of these words says nothing.
fn is_silent(text: &[u8], words: &[Vec<u8>]) -> bool
    ensures { result ≡ is_silent text.now (map (λ w. w.items) words.now) }
{
    if !text.is_empty() && text[0] == b'{' {
        return true;
    }
    !has_item(words)
}

/// How many bytes come before an equals sign.
fn key_len(word: &[u8]) -> usize
    ensures value { result ≡ prefix_len no_equals word.now }
    ensures within { result ≤ length word.now }
{
    let mut count = 0;
    for b in word {
        if *b == b'=' {
            return count;
        }
        count += 1;
    }
    count
}

/// Adds an item whose key has this length, with brackets round the key.
fn put_bracketed(out: &mut Vec<u8>, key: usize, word: &[u8]) -> Result<(), OutOfMemory>
    requires { key ≤ length word.now }
    ensures { OnOk result (out.new.items ≡ out.old.items ++ bracketed key word.now) }
{
    out.push(b'[')?;
    put_text(out, &word[..key])?;
    out.push(b']')?;
    put_text(out, &word[key..])
}

/// Whether an item is printed as it stands: what was read, or an address between brackets.
fn is_plain(word: &[u8]) -> bool
    ensures { result ≡ is_plain word.now }
{
    if has_colon(word) {
        return true;
    }
    if word.is_empty() {
        return false;
    }
    word[0] == b'['
}

/// Adds a space and an item.
fn put_item(out: &mut Vec<u8>, word: &[u8]) -> Result<(), OutOfMemory>
    ensures { OnOk result (out.new.items ≡ out.old.items ++ (32 ∷ [] ++ item_text word.now)) }
{
    out.push(b' ')?;
    if is_plain(word) {
        return put_text(out, word);
    }
    put_bracketed(out, key_len(word), word)
}

/// A space and the count, if there is one.
fn count_text(alloc: Global, count: &[u8]) -> Result<Vec<u8>, OutOfMemory>
    ensures { IfOk result (λ text. text.items ≡ count_text count.now) }
{
    let mut out = Vec::new(alloc);
    if !count.is_empty() {
        out.push(b' ')?;
        put_text(&mut out, count)?;
    }
    Ok(out)
}

/// The count and the items of a line, each after a space.
fn line_text(alloc: Global, count: &[u8], words: &[Vec<u8>]) -> Result<Vec<u8>, OutOfMemory>
    ensures { IfOk result (λ text. text.items ≡ item_texts (count_text count.now) (map (λ w. w.items) words.now)) }
{
    let mut out = count_text(alloc, count)?;
    for i in 0..words.len() {
        put_item(&mut out, &words[i])?;
    }
    Ok(out)
}

/// What a line of these words says, after blanks.
fn words_say(
    alloc: Global,
    program: &Program,
    text: &[u8],
    words: &[Vec<u8>],
) -> Result<LineSays, OutOfMemory>
    ensures { IfOk result (λ says. says ≡ words_say program.now text.now (map (λ w. w.items) words.now)) }
{
    if is_silent(text, words) {
        return Ok(LineSays::Silent);
    }
    match said_by(alloc, program, Ending::Needed, words)? {
        Ok(items) => {
            let text = line_text(alloc, &text[..count_len(text)], words)?;
            Ok(LineSays::Says(SeenLine::new(text, items)))
        }
        Err(_) => Ok(LineSays::Refused),
    }
}

/// What a line says.
fn line_says(alloc: Global, program: &Program, line: &[u8]) -> Result<LineSays, OutOfMemory>
    ensures { IfOk result (λ says. says ≡ line_says program.now line.now) }
{
    let text = after_blanks(before_comment(line));
    let words = words_of(alloc, after_count(text))?;
    words_say(alloc, program, text, &words)
}

/// Adds what a line says; whether it is refused.
fn add_line(
    alloc: Global,
    program: &Program,
    seen: &mut Vec<SeenLine>,
    line: &[u8],
) -> Result<bool, OutOfMemory>
    ensures refused { IfOk result (λ b. b ≡ is_refused (line_says program.now line.now)) }
    ensures added { OnOk result (seen.new.items ≡ with_line seen.old.items (line_says program.now line.now)) }
{
    match line_says(alloc, program, line)? {
        LineSays::Silent => Ok(false),
        LineSays::Refused => Ok(true),
        LineSays::Says(one) => {
            seen.push(one)?;
            Ok(false)
        }
    }
}

/// What lines say, in order, or the number of the first that is refused, from 1.
fn lines_say(
    alloc: Global,
    program: &Program,
    lines: &[Vec<u8>],
) -> Result<Result<Vec<SeenLine>, usize>, OutOfMemory>
    ensures { IfOk result (λ r. MatchResult r
        (λ seen. log_from program.now 1 [] (map (λ w. w.items) lines.now) ≡ Ok seen.items)
        (λ n. log_from program.now 1 [] (map (λ w. w.items) lines.now) ≡ Err n)) }
{
    let mut seen = Vec::new(alloc);
    for i in 0..lines.len() {
        if add_line(alloc, program, &mut seen, &lines[i])? {
            return Ok(Err(i + 1));
        }
    }
    Ok(Ok(seen))
}

/// What a log says of a program, in order, or the number of its first line that is refused, from 1. Fails only if out
/// of memory.
pub fn log_says(
    alloc: Global,
    program: &Program,
    text: &[u8],
) -> Result<Result<Vec<SeenLine>, usize>, OutOfMemory>
    ensures { IfOk result (λ r. MatchResult r (λ seen. log_says program.now text.now ≡ Ok seen.items)
        (λ n. log_says program.now text.now ≡ Err n)) }
{
    let lines = lines_of(alloc, text)?;
    lines_say(alloc, program, &lines)
}
