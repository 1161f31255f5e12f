//! Events with the keys in the order of `write_recording`, read from the bytes of a text.

ghost use Rattle.std.specs.Prelude.{◌≡◌, ◌++◌, ◌∷◌, ℕ, List, IfSome, codes, decimal, true};
ghost use Rattle.json.specs.Token.{key, number};
ghost use Rattle.json.specs.Word.{ends_word};
ghost use Rattle.serde_json.specs.Written.{compact_text};
ghost use Rattle.recorder.specs.Text.{source_data};
ghost use Rattle.recorder.specs.Written.{IsWord, IsWordSource};
ghost use Rattle.recorder.specs.ByTokens.{later_tokens};
ghost use Rattle.recorder.specs.Usual.{tokens_of, BeginsComma, BeginsKind, WritesEvent, EndsEvent};

use crate::plain::values::take_digits;
use crate::spaced::skip_one;
use common::{Addr, EventId};
use recording::Event;
use texts::Cursor;

/// How the text of an event is laid out.
pub(crate) trait Layout {
    ghost use Rattle.std.specs.Prelude.{◌≡◌, ◌++◌, ◌⊎◌, IsTrue};
    ghost use Rattle.json.specs.Lex.{lex, between};

    /// Takes the text that stands next, if it is this one, as the layout has it: without white space or with it.
    fn take_part(rest: &mut Cursor<'_>, tight: &[u8], spaced: &[u8]) -> bool
        ensures { IsTrue result → (rest.old ≡ tight.now ++ rest.new) ⊎ (rest.old ≡ spaced.now ++ rest.new) };

    /// Passes over what the layout has after a colon.
    fn skip_gap(rest: &mut Cursor<'_>)
        ensures { lex between rest.new ≡ lex between rest.old };
}

/// That of `write_recording`, without white space. It has no values.
pub(crate) enum Tight {}

/// That of Python's `json.dumps`, with a space after each comma and colon. It has no values.
pub(crate) enum Spaced {}

impl Layout for Tight {
    fn take_part(rest: &mut Cursor<'_>, tight: &[u8], _spaced: &[u8]) -> bool {
        rest.take(tight)
    }

    fn skip_gap(_rest: &mut Cursor<'_>) {}
}

impl Layout for Spaced {
    fn take_part(rest: &mut Cursor<'_>, _tight: &[u8], spaced: &[u8]) -> bool {
        rest.take(spaced)
    }

    fn skip_gap(rest: &mut Cursor<'_>) {
        skip_one(rest);
    }
}

/// Takes the number of 32 bits that stands next, if one does.
#[inline(always)]
fn take_word(rest: &mut Cursor<'_>) -> Option<u32>
    ensures { IfSome result (λ n. IsWord n × (rest.old ≡ decimal n ++ rest.new)) }
{
    u32::try_from(take_digits(rest)?).ok()
}

/// Takes the source that stands next, if one does.
#[inline(always)]
fn take_source(rest: &mut Cursor<'_>) -> Option<Option<EventId>>
    ensures { IfSome result (λ s. IsWordSource s × (rest.old ≡ compact_text (source_data s) ++ rest.new)) }
{
    let bytes = rest.rest();
    if !bytes.is_empty() && bytes[0] == b'n' {
        if !rest.take(b"null") {
            return None;
        }
        return Some(None);
    }
    let source = take_word(rest)?;
    Some(Some(source))
}

/// Takes the value and the source of a read.
#[inline(always)]
fn take_read<L: Layout>(rest: &mut Cursor<'_>) -> Option<(u32, Option<EventId>)>
    ensures { IfSome result (λ p. IsWord p.0 × IsWordSource p.1 × BeginsComma rest.old × (ends_word rest.new ≡ true
        → later_tokens rest.old ≡ key (codes "r") ∷ number (decimal p.0) ∷ key (codes "s")
        ∷ tokens_of (source_data p.1) (later_tokens rest.new))) }
{
    if !L::take_part(rest, b",\"r\":", b", \"r\": ") {
        return None;
    }
    let value = take_word(rest)?;
    if !L::take_part(rest, b",\"s\":", b", \"s\": ") {
        return None;
    }
    let source = take_source(rest)?;
    Some((value, source))
}

/// Takes the value of a write.
#[inline(always)]
fn take_write<L: Layout>(rest: &mut Cursor<'_>) -> Option<u32>
    ensures { IfSome result (λ w. IsWord w × BeginsComma rest.old × (ends_word rest.new ≡ true
        → later_tokens rest.old ≡ key (codes "w") ∷ number (decimal w) ∷ later_tokens rest.new)) }
{
    if !L::take_part(rest, b",\"w\":", b", \"w\": ") {
        return None;
    }
    let value = take_word(rest)?;
    Some(value)
}

/// Takes the letter of a read-modify-write, or of a compare-and-swap that failed, and what the kind has, of an event at
/// this address.
#[inline(never)]
fn take_atomic<L: Layout>(a: Addr, rest: &mut Cursor<'_>) -> Option<Event>
    ensures { IfSome result (λ e. (text t : List ℕ) → BeginsKind text rest.old → rest.new ≡ 125 ∷ t
        → EndsEvent a text e t) }
{
    if rest.take(b"R\"") {
        let (r, s) = take_read::<L>(rest)?;
        let w = take_write::<L>(rest)?;
        return Some(Event::R { a, r, s, w });
    }
    if rest.take(b"C\"") {
        let (r, s) = take_read::<L>(rest)?;
        return Some(Event::C { a, r, s });
    }
    None
}

/// Takes the kind of an event at this address and what the kind has, all but the brace that closes the event. What is
/// neither a load nor a store is taken by a cursor of its own, so that the other one need not be in memory.
fn take_rest<L: Layout>(a: Addr, rest: &mut Cursor<'_>) -> Option<Event>
    ensures { IfSome result (λ e. (t : List ℕ) → rest.new ≡ 125 ∷ t → EndsEvent a rest.old e t) }
{
    if !L::take_part(rest, b",\"k\":\"", b", \"k\": \"") {
        return None;
    }
    if rest.take(b"L\"") {
        let (r, s) = take_read::<L>(rest)?;
        return Some(Event::L { a, r, s });
    }
    if rest.take(b"S\"") {
        let w = take_write::<L>(rest)?;
        return Some(Event::S { a, w });
    }
    let mut own = Cursor::new(rest.rest());
    let event = take_atomic::<L>(a, &mut own)?;
    *rest = Cursor::new(own.rest());
    Some(event)
}

/// Takes a fence, if one stands next.
fn take_fence<L: Layout>(rest: &mut Cursor<'_>) -> Option<Event>
    ensures { IfSome result (λ e. WritesEvent rest.old e rest.new) }
{
    if !rest.take(b"{\"k\":") {
        return None;
    }
    L::skip_gap(rest);
    if !rest.take(b"\"F\"}") {
        return None;
    }
    Some(Event::F)
}

/// Takes the event that stands next, if its keys are in this order.
pub(crate) fn take_usual<L: Layout>(rest: &mut Cursor<'_>) -> Option<Event>
    ensures { IfSome result (λ e. WritesEvent rest.old e rest.new) }
{
    if !rest.take(b"{\"a\":") {
        return take_fence::<L>(rest);
    }
    L::skip_gap(rest);
    let a = take_word(rest)?;
    let event = take_rest::<L>(a, rest)?;
    if !rest.take(b"}") {
        return None;
    }
    Some(event)
}
