//! Rows of numbers and of labels, a space before each.

ghost use Rattle.std.specs.Prelude.{◌≡◌, ◌<◌, ◌≤◌, ◌+◌, ◌*◌, ◌++◌, ℕ, All, List, IfOk, OnOk, IsTrue, decimal, length};
ghost use Rattle.std.specs.Prelude.{take};
ghost use Rattle.common.specs.declared.limits.TheConstants.{MAX_EVENTS};
ghost use Rattle.texts.specs.Numbers.{numbers_text};
ghost use Rattle.texts.specs.NumberTexts.{IsTextOf, AreTexts};

use crate::numbers::put_number;
use common::{MAX_EVENTS, OutOfMemory};
use std::alloc::Global;
use std::simd::prelude::*;

/// The greatest of the labels; of none 0. It reads to the end, so that several are compared at once.
fn greatest(labels: &[u16]) -> u16
    ensures { All (λ n. n ≤ result) labels.now }
{
    let mut greatest = 0;
    for label in labels {
        greatest = greatest.max(*label);
    }
    greatest
}

/// Whether each number has one to three digits. It reads to the end, so that several are compared at once.
fn are_short(numbers: &[u32]) -> bool
    ensures { IsTrue result → All (λ n. n < 1000) numbers.now }
{
    let mut greatest = 0;
    for number in numbers {
        greatest = greatest.max(*number);
    }
    greatest < 1000
}

/// Writes a space and a digit for each label.
fn write_digits(places: &mut [u8], labels: &[u16])
    requires room { length places.old ≡ 2 * length labels.now }
    requires digits { All (λ n. n < 10) labels.now }
    ensures { places.new ≡ numbers_text labels.now }
{
    for (i, label) in labels.iter().enumerate() {
        places[2 * i] = b' ';
        places[2 * i + 1] = b'0' + *label as u8;
    }
}

/// Adds a space before each label of one digit.
fn put_digits(out: &mut Vec<u8>, labels: &[u16]) -> Result<(), OutOfMemory>
    requires { All (λ n. n < 10) labels.now }
    ensures { OnOk result (out.new.items ≡ out.old.items ++ numbers_text labels.now) }
{
    let start = out.len();
    out.resize(start + 2 * labels.len(), b' ')?;
    write_digits(out.slice_mut(start..), labels);
    Ok(())
}

/// Writes the digits of a number of one to three, and answers the place after them.
fn write_short(places: &mut [u8], at: usize, number: u16) -> usize
    requires room { at + 3 ≤ length places.old }
    requires short { number < 1000 }
    ensures size { length places.new ≡ length places.old }
    ensures end { result ≤ at + 3 }
    ensures text { take result places.new ≡ take at places.old ++ decimal number }
{
    let last = b'0' + (number % 10) as u8;
    if number < 10 {
        places[at] = last;
        return at + 1;
    }
    let tens = b'0' + (number / 10 % 10) as u8;
    if number < 100 {
        places[at] = tens;
        places[at + 1] = last;
        return at + 2;
    }
    places[at] = b'0' + (number / 100) as u8;
    places[at + 1] = tens;
    places[at + 2] = last;
    at + 3
}

/// Writes from a place on a space and its digits for each number, and answers the place after them.
fn write_all_short(places: &mut [u8], start: usize, numbers: &[u32]) -> usize
    requires room { start + 4 * length numbers.now ≤ length places.old }
    requires short { All (λ n. n < 1000) numbers.now }
    ensures { take result places.new ≡ take start places.old ++ numbers_text numbers.now }
{
    let mut at = start;
    for number in numbers {
        places[at] = b' ';
        at = write_short(places, at + 1, *number as u16);
    }
    at
}

/// Adds a space before each number of one to three digits, at most one for each event.
fn put_short(out: &mut Vec<u8>, numbers: &[u32]) -> Result<(), OutOfMemory>
    requires short { All (λ n. n < 1000) numbers.now }
    requires few { length numbers.now ≤ MAX_EVENTS }
    ensures { OnOk result (out.new.items ≡ out.old.items ++ numbers_text numbers.now) }
{
    let start = out.len();
    out.resize(start + 4 * numbers.len(), b' ')?;
    let end = write_all_short(out.as_mut_slice(), start, numbers);
    out.truncate(end);
    Ok(())
}

/// The text of a number of one to three digits with a space before it, and any bytes after it.
#[derive(Clone, Copy, Drop)]
pub struct NumberText {
    bytes: [u8; 4],
    /// How many of the bytes are the text.
    size: u32,
}

/// The text of a number.
fn number_text(number: u16) -> NumberText
    requires { number < 1000 }
    ensures { IsTextOf number result }
{
    let mut bytes = [b' '; 4];
    let size = write_short(&mut bytes, 1, number);
    NumberText {
        bytes,
        size: size as u32,
    }
}

/// The texts of the numbers up to the greatest, by their numbers. Fails only if out of memory.
pub fn texts_up_to(alloc: Global, greatest: u16) -> Result<Vec<NumberText>, OutOfMemory>
    requires { greatest < 1000 }
    ensures size { IfOk result (λ texts. length texts.items ≡ greatest + 1) }
    ensures texts { IfOk result (λ texts. AreTexts texts.items) }
{
    let mut texts = Vec::with_capacity(alloc, greatest as usize + 1)?;
    for number in 0..greatest + 1 {
        texts.push(number_text(number))?;
    }
    Ok(texts)
}

/// Writes a text with what is after it, and answers the place after the text.
fn write_text(places: &mut [u8], at: usize, text: NumberText) -> usize
    requires room { at + 4 ≤ length places.old }
    requires four { length text.bytes ≡ 4 }
    requires within { text.size ≤ 4 }
    ensures size { length places.new ≡ length places.old }
    ensures end { result ≤ at + 4 }
    ensures text { take result places.new ≡ take at places.old ++ take text.size text.bytes }
{
    Simd::<u8, 4>::from_array(text.bytes).copy_to_slice(&mut places[at..]);
    at + text.size as usize
}

/// Writes the text of the label at a place among others, and answers the place after it.
fn write_label(
    places: &mut [u8],
    at: usize,
    labels: &[u16],
    i: usize,
    texts: &[NumberText],
) -> usize
    requires i { i < length labels.now }
    requires room { at + 4 ≤ length places.old }
    requires texts { AreTexts texts.now }
    requires known { All (λ n. n < length texts.now) labels.now }
    ensures size { length places.new ≡ length places.old }
    ensures end { result ≤ at + 4 }
    ensures text { (before : List ℕ) → take at places.old ≡ before ++ numbers_text (take i labels.now)
        → take result places.new ≡ before ++ numbers_text (take (i + 1) labels.now) }
{
    write_text(places, at, texts[labels[i] as usize])
}

/// Writes from a place on the text of each label, four in a turn, and answers the place after them.
fn write_texts(places: &mut [u8], start: usize, labels: &[u16], texts: &[NumberText]) -> usize
    requires room { start + 4 * length labels.now ≤ length places.old }
    requires texts { AreTexts texts.now }
    requires known { All (λ n. n < length texts.now) labels.now }
    ensures { take result places.new ≡ take start places.old ++ numbers_text labels.now }
{
    let mut at = start;
    let mut i = 0;
    'fours: while labels.len() - i >= 4 {
        at = write_label(places, at, labels, i, texts);
        at = write_label(places, at, labels, i + 1, texts);
        at = write_label(places, at, labels, i + 2, texts);
        at = write_label(places, at, labels, i + 3, texts);
        i += 4;
    }
    'rest: while i < labels.len() {
        at = write_label(places, at, labels, i, texts);
        i += 1;
    }
    at
}

/// Adds a space before each label, at most one for each event, by their texts.
fn put_texts(out: &mut Vec<u8>, labels: &[u16], texts: &[NumberText]) -> Result<(), OutOfMemory>
    requires texts { AreTexts texts.now }
    requires known { All (λ n. n < length texts.now) labels.now }
    requires few { length labels.now ≤ MAX_EVENTS }
    ensures { OnOk result (out.new.items ≡ out.old.items ++ numbers_text labels.now) }
{
    let start = out.len();
    out.resize(start + 4 * labels.len(), b' ')?;
    let end = write_texts(out.as_mut_slice(), start, labels, texts);
    out.truncate(end);
    Ok(())
}

/// Adds a space before each label, one at a time.
fn put_each_label(out: &mut Vec<u8>, labels: &[u16]) -> Result<(), OutOfMemory>
    ensures { OnOk result (out.new.items ≡ out.old.items ++ numbers_text labels.now) }
{
    for label in labels {
        out.push(b' ')?;
        put_number(out, *label as usize)?;
    }
    Ok(())
}

/// Adds a row of labels to a text, in decimal, a space before each, by the texts of the first numbers. Fails only if
/// out of memory. Most rows have digits alone, and the texts are of nearly all others, so that they are written
/// without a test of the room for each of them.
pub fn put_row(out: &mut Vec<u8>, labels: &[u16], texts: &[NumberText]) -> Result<(), OutOfMemory>
    requires { AreTexts texts.now }
    ensures { OnOk result (out.new.items ≡ out.old.items ++ numbers_text labels.now) }
{
    let greatest = greatest(labels);
    if greatest < 10 {
        put_digits(out, labels)
    } else if (greatest as usize) < texts.len() && labels.len() <= MAX_EVENTS {
        put_texts(out, labels, texts)
    } else {
        put_each_label(out, labels)
    }
}

/// Adds a space before each number, one at a time.
fn put_each(out: &mut Vec<u8>, numbers: &[u32]) -> Result<(), OutOfMemory>
    ensures { OnOk result (out.new.items ≡ out.old.items ++ numbers_text numbers.now) }
{
    for number in numbers {
        out.push(b' ')?;
        put_number(out, *number as usize)?;
    }
    Ok(())
}

/// Adds the numbers to a text, in decimal, a space before each. Fails only if out of memory. The few short numbers of
/// a recording that is no larger than a program are written without a test of the room for each of them.
pub fn put_numbers(out: &mut Vec<u8>, numbers: &[u32]) -> Result<(), OutOfMemory>
    ensures { OnOk result (out.new.items ≡ out.old.items ++ numbers_text numbers.now) }
{
    if numbers.len() <= MAX_EVENTS && are_short(numbers) {
        put_short(out, numbers)
    } else {
        put_each(out, numbers)
    }
}
