//! Single JSON values of a recording, and keys, read from the bytes of its text. Where one is not in its simplest form,
//! they answer nothing.

ghost use Rattle.std.specs.Prelude.{◌≡◌, ◌≤◌, ◌++◌, ◌∷◌, [], ℕ, Some, IfSome, decimal, drop, length};
ghost use Rattle.json.specs.Token.{string};
ghost use Rattle.json.specs.Json.{read_key};
ghost use Rattle.json.specs.Lex.{token, lex, between};
ghost use Rattle.serde_json.specs.Find.{as_str};
ghost use Rattle.recorder.specs.Reading.{natural, value_word, value_in};
ghost use Rattle.recorder.specs.Clipped.{clip, clipped_number};
ghost use Rattle.recorder.specs.ByTokens.{GivesValue, clipped_source};
ghost use Rattle.recorder.specs.ByTokens.{value_tokens, fresh_tokens, later_tokens};

use crate::spaced::{ends_member, ends_word, skip_space, take_sign};
use common::EventId;
use texts::Cursor;

/// The string of one letter.
fn take_letter(rest: &mut Cursor<'_>) -> Option<u8>
    ensures { IfSome result (λ x. lex between rest.old ≡ token (string (x ∷ [])) ∷ lex between rest.new) }
{
    skip_space(rest);
    let bytes = rest.rest();
    if bytes.len() < 3 || bytes[0] != b'"' || bytes[2] != b'"' {
        return None;
    }
    let letter = bytes[1];
    if letter < b' ' || letter == b'"' || letter == b'\\' {
        return None;
    }
    *rest = Cursor::new(&bytes[3..]);
    Some(letter)
}

/// The key of one letter, and its colon.
pub(crate) fn take_key(rest: &mut Cursor<'_>) -> Option<u8>
    ensures { IfSome result (λ x. read_key (value_tokens rest.old) ≡ Some (Some (x ∷ []), fresh_tokens rest.new)) }
{
    let letter = take_letter(rest)?;
    if !take_sign(rest, b':') {
        return None;
    }
    Some(letter)
}

/// The letter of a kind.
pub(crate) fn take_kind(rest: &mut Cursor<'_>) -> Option<u8>
    ensures { IfSome result (λ k. (depth : ℕ)
        → GivesValue as_str depth (value_tokens rest.old) (k ∷ []) (later_tokens rest.new)) }
{
    let letter = take_letter(rest)?;
    if !ends_member(rest) {
        return None;
    }
    Some(letter)
}

/// The number with which eight bytes or more begin, if it has no more than seven digits and is not 0, and how many
/// digits it has.
#[inline(always)]
fn short_number(bytes: &[u8]) -> Option<(u64, usize)>
    requires { 8 ≤ length bytes.now }
    ensures { IfSome result (λ p. (p.1 ≤ length bytes.now) × (bytes.now ≡ decimal p.0 ++ drop p.1 bytes.now)) }
{
    let first = bytes[0];
    if first == b'0' || !first.is_ascii_digit() {
        return None;
    }
    let mut n = (first - b'0') as u64;
    for size in 1..8 {
        let byte = bytes[size];
        if !byte.is_ascii_digit() {
            return Some((n, size));
        }
        n = n * 10 + (byte - b'0') as u64;
    }
    None
}

/// The number that stands next. A longer one, or one near the end, is taken by a cursor of its own: its place is not
/// written at each digit.
#[inline(always)]
pub(crate) fn take_digits(rest: &mut Cursor<'_>) -> Option<u64>
    ensures { IfSome result (λ n. rest.old ≡ decimal n ++ rest.new) }
{
    let bytes = rest.rest();
    if bytes.len() >= 8 {
        if let Some((n, size)) = short_number(bytes) {
            *rest = Cursor::new(&bytes[size..]);
            return Some(n);
        }
    }
    let mut digits = Cursor::new(bytes);
    let n = digits.number()?;
    *rest = Cursor::new(digits.rest());
    Some(n)
}

/// The natural number that digits alone write.
#[inline(always)]
pub(crate) fn take_natural(rest: &mut Cursor<'_>) -> Option<u64>
    ensures { IfSome result (λ n. (depth : ℕ)
        → GivesValue natural depth (value_tokens rest.old) n (later_tokens rest.new)) }
{
    skip_space(rest);
    let n = take_digits(rest)?;
    if !ends_word(rest) {
        return None;
    }
    Some(n)
}

fn clip_number(n: u64) -> u32
    ensures { result ≡ clip n }
{
    u32::try_from(n).unwrap_or(u32::MAX)
}

/// The number of an event or of an address; the greatest of 32 bits where it is greater.
#[inline(always)]
pub(crate) fn take_number(rest: &mut Cursor<'_>) -> Option<u32>
    ensures { IfSome result (λ n. (depth : ℕ)
        → GivesValue clipped_number depth (value_tokens rest.old) n (later_tokens rest.new)) }
{
    Some(clip_number(take_natural(rest)?))
}

fn word(n: u64) -> Option<u32>
    ensures { result ≡ value_word n }
{
    u32::try_from(n).ok()
}

/// A value of 32 bits.
pub(crate) fn take_value(rest: &mut Cursor<'_>) -> Option<u32>
    ensures { IfSome result (λ n. (depth : ℕ)
        → GivesValue value_in depth (value_tokens rest.old) n (later_tokens rest.new)) }
{
    word(take_natural(rest)?)
}

/// The source of a read.
pub(crate) fn take_source(rest: &mut Cursor<'_>) -> Option<Option<EventId>>
    ensures { IfSome result (λ s. (depth : ℕ)
        → GivesValue clipped_source depth (value_tokens rest.old) s (later_tokens rest.new)) }
{
    skip_space(rest);
    if rest.take(b"null") {
        if ends_word(rest) {
            return Some(None);
        }
        return None;
    }
    let source = take_number(rest)?;
    Some(Some(source))
}
