//! The words and the lines of a text.

ghost use Rattle.std.specs.Prelude.{◌≡◌, ◌++◌, ◌∷◌, [], IfOk, OnOk, map};
ghost use Rattle.outcome_texts.specs.ObservedLine.{is_blank, with_word, words_of};
ghost use Rattle.outcome_texts.specs.Log.{lines_of};

use common::OutOfMemory;
use std::alloc::Global;

/// Whether a byte stands between words: a space, a tab, or a carriage return.
pub(crate) fn is_blank(byte: u8) -> bool
    ensures { result ≡ is_blank byte }
{
    byte == b' ' || byte == b'\t' || byte == b'\r'
}

/// Adds a word, unless it is empty.
fn add_word(words: &mut Vec<Vec<u8>>, alloc: Global, word: &[u8]) -> Result<(), OutOfMemory>
    ensures { OnOk result (map (λ w. w.items) words.new.items
        ≡ with_word (map (λ w. w.items) words.old.items) word.now) }
{
    if word.is_empty() {
        return Ok(());
    }
    let copy = Vec::from_slice(alloc, word)?;
    words.push(copy)?;
    Ok(())
}

/// The words of a text. Fails only if out of memory.
pub(crate) fn words_of(alloc: Global, text: &[u8]) -> Result<Vec<Vec<u8>>, OutOfMemory>
    ensures { IfOk result (λ words. map (λ w. w.items) words.items ≡ words_of text.now) }
{
    let mut words = Vec::new(alloc);
    let mut word = Vec::new(alloc);
    for b in text {
        if is_blank(*b) {
            add_word(&mut words, alloc, &word)?;
            word.clear();
        } else {
            word.push(*b)?;
        }
    }
    add_word(&mut words, alloc, &word)?;
    Ok(words)
}

/// Adds a line.
fn add_line(lines: &mut Vec<Vec<u8>>, alloc: Global, line: &[u8]) -> Result<(), OutOfMemory>
    ensures { OnOk result (map (λ w. w.items) lines.new.items
        ≡ map (λ w. w.items) lines.old.items ++ line.now ∷ []) }
{
    let copy = Vec::from_slice(alloc, line)?;
    lines.push(copy)?;
    Ok(())
}

/// The lines of a text. Fails only if out of memory.
pub(crate) fn lines_of(alloc: Global, text: &[u8]) -> Result<Vec<Vec<u8>>, OutOfMemory>
    ensures { IfOk result (λ lines. map (λ w. w.items) lines.items ≡ lines_of text.now) }
{
    let mut lines = Vec::new(alloc);
    let mut line = Vec::new(alloc);
    for b in text {
        if *b == b'\n' {
            add_line(&mut lines, alloc, &line)?;
            line.clear();
        } else {
            line.push(*b)?;
        }
    }
    add_line(&mut lines, alloc, &line)?;
    Ok(lines)
}
