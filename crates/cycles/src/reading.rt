//! Words as texts.

ghost use Rattle.std.specs.Prelude.{◌≡◌, [], IfOk, MatchResult, Err, Ok, false, true};
ghost use Rattle.cycles.specs.Reading.{in_order, is_blank, is_marked, is_no_word, letter_at, letter_by, letter_len};
ghost use Rattle.cycles.specs.Reading.{letters};
ghost use Rattle.cycles.specs.Reading.{linked, read_from, with_word, word_of, words_in};

use crate::word::{Letter, Link, Pair, Side, Word};
use common::OutOfMemory;
use std::alloc::Global;

/// Whether an `A` stands here.
fn is_marked(text: &[u8], at: usize) -> bool
    ensures { result ≡ is_marked text.now at }
{
    if at >= text.len() {
        return false;
    }
    text[at] == b'A'
}

/// The letter that a byte is.
fn letter_by(byte: u8, is_atomic: bool) -> Option<Letter>
    ensures { result ≡ letter_by byte is_atomic }
{
    if byte == b'R' {
        return Some(Letter {
            is_store: false,
            is_atomic,
        });
    }
    if byte == b'W' {
        return Some(Letter {
            is_store: true,
            is_atomic,
        });
    }
    None
}

/// The letter that stands here, with an `A` after it or without.
fn letter_at(text: &[u8], at: usize) -> Option<Letter>
    ensures { result ≡ letter_at text.now at }
{
    if at >= text.len() {
        return None;
    }
    letter_by(text[at], is_marked(text, at + 1))
}

/// How many bytes a letter has.
fn letter_len(letter: Letter) -> usize
    ensures { result ≡ letter_len letter }
{
    if letter.is_atomic { 2 } else { 1 }
}

/// The two letters that a text is.
fn letters(text: &[u8]) -> Option<(Letter, Letter)>
    ensures { result ≡ letters text.now }
{
    let first = letter_at(text, 0)?;
    let second = letter_at(text, letter_len(first))?;
    if letter_len(first) + letter_len(second) != text.len() {
        return None;
    }
    Some((first, second))
}

/// A word in program order that ends with these letters.
fn in_order(fenced: bool, same_address: bool, text: &[u8]) -> Option<Word>
    ensures { result ≡ in_order fenced same_address text.now }
{
    let (first, second) = letters(text)?;
    Some(Word::Pair(Pair {
        fenced,
        same_address,
        first,
        second,
    }))
}

/// Another word.
fn word_of_link(link: Link, same_core: bool) -> Option<Word>
    ensures { result ≡ linked link same_core }
{
    Some(Word::Side(Side { link, same_core }))
}

/// The word that a text is.
#[tactic(auto, unfolding(crate::specs::Reading::word_of))]
fn word_of(text: &[u8]) -> Option<Word>
    ensures { result ≡ word_of text.now }
{
    if text == b"Rfe".as_slice() {
        return word_of_link(Link::Rf, false);
    }
    if text == b"Rfi".as_slice() {
        return word_of_link(Link::Rf, true);
    }
    if text == b"Fre".as_slice() {
        return word_of_link(Link::Fr, false);
    }
    if text == b"Fri".as_slice() {
        return word_of_link(Link::Fr, true);
    }
    if text == b"Coe".as_slice() {
        return word_of_link(Link::Co, false);
    }
    if text == b"Coi".as_slice() {
        return word_of_link(Link::Co, true);
    }
    if text == b"Wse".as_slice() {
        return word_of_link(Link::Co, false);
    }
    if text == b"Wsi".as_slice() {
        return word_of_link(Link::Co, true);
    }
    if let Some(rest) = text.strip_prefix(b"Pos".as_slice()) {
        return in_order(false, true, rest);
    }
    if let Some(rest) = text.strip_prefix(b"Pod".as_slice()) {
        return in_order(false, false, rest);
    }
    if let Some(rest) = text.strip_prefix(b"MFences".as_slice()) {
        return in_order(true, true, rest);
    }
    match text.strip_prefix(b"MFenced".as_slice()) {
        Some(rest) => in_order(true, false, rest),
        None => None,
    }
}

/// Whether a byte stands between words: a space, a tab, or the end of a line.
fn is_blank(byte: u8) -> bool
    ensures { result ≡ is_blank byte }
{
    byte == b' ' || byte == b'\t' || byte == b'\r' || byte == b'\n'
}

/// Adds a word, unless its text is empty; whether the text is none.
fn add_word(words: &mut Vec<Word>, text: &[u8]) -> Result<bool, OutOfMemory>
    ensures refused { IfOk result (λ b. b ≡ is_no_word text.now) }
    ensures added { IfOk result (λ b. b ≡ false → words.new.items ≡ with_word words.old.items text.now) }
    ensures kept { IfOk result (λ b. b ≡ true → words.new.items ≡ words.old.items) }
{
    if text.is_empty() {
        return Ok(false);
    }
    let Some(word) = word_of(text) else {
        return Ok(true);
    };
    words.push(word)?;
    Ok(false)
}

/// The words of a text, or the number of the first, from 1, that is none. Fails only if out of memory.
fn read_from(alloc: Global, text: &[u8]) -> Result<Result<Vec<Word>, usize>, OutOfMemory>
    ensures { IfOk result (λ r. MatchResult r (λ words. read_from [] [] text.now ≡ Ok words.items)
        (λ n. read_from [] [] text.now ≡ Err n)) }
{
    let mut words = Vec::new(alloc);
    let mut one = Vec::new(alloc);
    for b in text {
        if is_blank(*b) {
            if add_word(&mut words, &one)? {
                return Ok(Err(words.len() + 1));
            }
            one.clear();
        } else {
            one.push(*b)?;
        }
    }
    if add_word(&mut words, &one)? {
        return Ok(Err(words.len() + 1));
    }
    Ok(Ok(words))
}

/// The words of a text, one at least, or the number of the first, from 1, that is none or is missing. Fails only if out
/// of memory.
pub(crate) fn words_in(alloc: Global, text: &[u8]) -> Result<Result<Vec<Word>, usize>, OutOfMemory>
    ensures { IfOk result (λ r. MatchResult r (λ words. words_in text.now ≡ Ok words.items)
        (λ n. words_in text.now ≡ Err n)) }
{
    match read_from(alloc, text)? {
        Ok(words) => {
            if words.is_empty() {
                return Ok(Err(1));
            }
            Ok(Ok(words))
        }
        Err(number) => Ok(Err(number)),
    }
}
