//! How many events, cores and addresses words have.

ghost use Rattle.std.specs.Prelude.{◌≡◌, ◌≤◌, ◌<◌, ◌↔◌, ℕ, IsTrue, MatchOption, count_by, length, take};
ghost use Rattle.cycles.specs.Limits.{AreBeyond, IsFirstBeyond};
ghost use Rattle.cycles.specs.Words.{is_external, is_fenced, is_other_address};

use crate::word::{Word, is_external, is_fenced, is_other_address};
use common::{MAX_ADDRESSES, MAX_CORES, MAX_EVENTS};

/// How many words lead to another core.
pub(crate) fn external_count(words: &[Word]) -> usize
    ensures { result ≡ count_by is_external words.now }
{
    let mut count = 0;
    for word in words {
        if is_external(*word) {
            count += 1;
        }
    }
    count
}

/// How many lead to another address.
pub(crate) fn address_count(words: &[Word]) -> usize
    ensures { result ≡ count_by is_other_address words.now }
{
    let mut count = 0;
    for word in words {
        if is_other_address(*word) {
            count += 1;
        }
    }
    count
}

/// How many fences stand between accesses.
pub(crate) fn fence_count(words: &[Word]) -> usize
    ensures { result ≡ count_by is_fenced words.now }
{
    let mut count = 0;
    for word in words {
        if is_fenced(*word) {
            count += 1;
        }
    }
    count
}

/// Whether the accesses at which words start, their fences, and the cores and addresses to which they lead are more
/// than a program has.
fn are_beyond(words: &[Word]) -> bool
    ensures { IsTrue result ↔ AreBeyond words.now }
{
    if words.len() > MAX_EVENTS || fence_count(words) > MAX_EVENTS - words.len() {
        return true;
    }
    external_count(words) > MAX_CORES || address_count(words) > MAX_ADDRESSES
}

/// How many words are the least that are beyond the limits.
pub(crate) fn first_beyond(words: &[Word]) -> Option<usize>
    ensures { MatchOption result ((n : ℕ) → ¬ IsFirstBeyond words.now n) (IsFirstBeyond words.now) }
{
    for i in 0..words.len() {
        if are_beyond(&words[..i + 1]) {
            return Some(i + 1);
        }
    }
    None
}
