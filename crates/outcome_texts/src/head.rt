//! What stands before the items of a line.

ghost use Rattle.std.specs.Prelude.{◌≡◌, ◌≤◌, length};
ghost use Rattle.std.specs.List.{prefix_len};
ghost use Rattle.texts.specs.Decimals.{is_digit};
ghost use Rattle.outcome_texts.specs.ObservedLine.{is_blank};
ghost use Rattle.outcome_texts.specs.Log.{after_count, after_mark, blanks, count_len, digits, is_counted, is_marked};
ghost use Rattle.outcome_texts.specs.Log.{is_plain_byte, trimmed, uncommented};

use crate::words::is_blank;

/// How many bytes come before a `#`.
fn plain_len(line: &[u8]) -> usize
    ensures value { result ≡ prefix_len is_plain_byte line.now }
    ensures within { result ≤ length line.now }
{
    let mut count = 0;
    for b in line {
        if *b == b'#' {
            return count;
        }
        count += 1;
    }
    count
}

/// What stands before a `#`, which begins a comment.
pub(crate) fn before_comment(line: &[u8]) -> &[u8]
    ensures { result.now ≡ uncommented line.now }
{
    &line[..plain_len(line)]
}

/// How many blanks come first.
fn blanks(text: &[u8]) -> usize
    ensures value { result ≡ blanks text.now }
    ensures within { result ≤ length text.now }
{
    let mut count = 0;
    for b in text {
        if !is_blank(*b) {
            return count;
        }
        count += 1;
    }
    count
}

/// How many digits come first.
fn digits(text: &[u8]) -> usize
    ensures value { result ≡ digits text.now }
    ensures within { result ≤ length text.now }
{
    let mut count = 0;
    for b in text {
        if !b.is_ascii_digit() {
            return count;
        }
        count += 1;
    }
    count
}

/// What stands after the blanks.
pub(crate) fn after_blanks(text: &[u8]) -> &[u8]
    ensures { result.now ≡ trimmed text.now }
{
    &text[blanks(text)..]
}

/// Whether a mark comes first: `*>` or `:>`.
fn is_marked(text: &[u8]) -> bool
    ensures value { result ≡ is_marked text.now }
{
    if text.len() < 2 {
        return false;
    }
    (text[0] == b'*' || text[0] == b':') && text[1] == b'>'
}

/// What stands after the mark, if there is one.
fn after_mark(text: &[u8]) -> &[u8]
    ensures { result.now ≡ after_mark text.now }
{
    if is_marked(text) { &text[2..] } else { text }
}

/// Whether digits before this are a count: a blank or a mark comes next.
fn is_counted(rest: &[u8]) -> bool
    ensures { result ≡ is_counted rest.now }
{
    if rest.is_empty() {
        return false;
    }
    is_blank(rest[0]) || is_marked(rest)
}

/// How many digits of the count come first.
pub(crate) fn count_len(text: &[u8]) -> usize
    ensures value { result ≡ count_len text.now }
    ensures within { result ≤ length text.now }
{
    let end = digits(text);
    if is_counted(&text[end..]) { end } else { 0 }
}

/// What stands after the count and the mark.
pub(crate) fn after_count(text: &[u8]) -> &[u8]
    ensures { result.now ≡ after_count text.now }
{
    after_mark(after_blanks(&text[count_len(text)..]))
}
