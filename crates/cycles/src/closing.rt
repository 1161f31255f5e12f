//! Whether words are a cycle.

ghost use Rattle.std.specs.Prelude.{◌≡◌, ◌≤◌, ◌<◌, ◌↔◌, ℕ, IsTrue, MatchOption, length};
ghost use Rattle.cycles.specs.Closing.{AreClosed, HasSide, HasTurn, IsFirstOpen, Meets, Turns, word_after, word_at};

use crate::limits::{address_count, external_count};
use crate::word::{Link, Side, Word, is_turn, meeting};

/// The word after one of them; after the last comes the first.
pub(crate) fn word_after(words: &[Word], at: usize) -> Word
    ensures { result ≡ word_after words.now at }
{
    if at < words.len() && at + 1 < words.len() {
        return word_at(words, at + 1);
    }
    word_at(words, 0)
}

/// One of the words.
pub(crate) fn word_at(words: &[Word], at: usize) -> Word
    ensures { result ≡ word_at words.now at }
{
    if at < words.len() {
        return words[at];
    }
    Word::Side(Side {
        link: Link::Rf,
        same_core: true,
    })
}

/// Whether an access can stand between a word and the next.
fn meets(words: &[Word], at: usize) -> bool
    ensures { IsTrue result ↔ Meets words.now at }
{
    meeting(word_at(words, at), word_after(words, at)).is_some()
}

/// The first word that does not meet the next.
pub(crate) fn first_open(words: &[Word]) -> Option<usize>
    ensures { MatchOption result ((i : ℕ) → i < length words.now → Meets words.now i) (IsFirstOpen words.now) }
{
    for i in 0..words.len() {
        if !meets(words, i) {
            return Some(i);
        }
    }
    None
}

/// Whether one of the words is no word in program order.
fn has_side(words: &[Word]) -> bool
    ensures { IsTrue result ↔ HasSide words.now }
{
    for i in 0..words.len() {
        if matches!(word_at(words, i), Word::Side(_)) {
            return true;
        }
    }
    false
}

/// Whether the writes of an address may begin anew between a word and the next.
fn turns(words: &[Word], at: usize) -> bool
    ensures { IsTrue result ↔ Turns words.now at }
{
    is_turn(word_at(words, at), word_after(words, at))
}

/// Whether they may after one of the words.
fn has_turn(words: &[Word]) -> bool
    ensures { IsTrue result ↔ HasTurn words.now }
{
    for i in 0..words.len() {
        if turns(words, i) {
            return true;
        }
    }
    false
}

/// Whether words that meet come back to the core and the address where they start.
pub(crate) fn are_closed(words: &[Word]) -> bool
    ensures { IsTrue result ↔ AreClosed words.now }
{
    let cores = external_count(words);
    if cores == 1 || cores == 0 && !has_side(words) {
        return false;
    }
    let addresses = address_count(words);
    if addresses == 1 || addresses == 0 && !has_turn(words) {
        return false;
    }
    true
}
