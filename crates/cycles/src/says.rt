//! Whether what a word says is so in a recording.

ghost use Rattle.std.specs.Prelude.{◌≡◌, IsTrue};
ghost use Rattle.explanation.specs.Diy.{accessed};
ghost use Rattle.recording.specs.Execution.{ProgramOrder, Reads, Writes, event_at};
ghost use Rattle.recording.specs.Execution.{write_list};
ghost use Rattle.relations.specs.Forced.{IsOlder};
ghost use Rattle.cycles.specs.Says.{HasFence, PairSaid, Says, SideSaid, has_letter};

use crate::word::{Letter, Link, Pair, Side, Word};
use common::EventId;
use event_texts::event_of;
use explanation::address_or_zero;
use recording::{Event, Recording, stands_before};

/// Whether an event is what a letter says.
fn has_letter(letter: Letter, event: &Event) -> bool
    ensures { result ≡ has_letter letter event.now }
{
    match event {
        Event::L { .. } => !letter.is_atomic && !letter.is_store,
        Event::S { .. } => !letter.is_atomic && letter.is_store,
        Event::R { .. } => letter.is_atomic,
        Event::C { .. } => false,
        Event::F => false,
    }
}

/// Whether one event is earlier than another on one core.
fn in_order(recording: &Recording, first: EventId, second: EventId) -> bool
    ensures { IsTrue result → ProgramOrder recording.now first second }
{
    if second as usize >= recording.len() || first >= second {
        return false;
    }
    let (core, _) = event_of(recording, first);
    let (other, _) = event_of(recording, second);
    core == other
}

/// Whether an event is a fence.
fn is_fence(recording: &Recording, number: EventId) -> bool
    ensures { IsTrue result → event_at recording.now number ≡ Event.F }
{
    let (_, event) = event_of(recording, number);
    matches!(event, Event::F)
}

/// Whether a fence stands between two events of a core.
fn has_fence(recording: &Recording, first: EventId, second: EventId) -> bool
    ensures { IsTrue result → HasFence recording.now first second }
{
    for number in first..second {
        if in_order(recording, first, number)
            && in_order(recording, number, second)
            && is_fence(recording, number)
        {
            return true;
        }
    }
    false
}

/// Whether what a word in program order says is so.
fn says_pair(recording: &Recording, pair: Pair, first: EventId, second: EventId) -> bool
    ensures { IsTrue result → PairSaid recording.now pair first second }
{
    if !in_order(recording, first, second) {
        return false;
    }
    if pair.fenced && !has_fence(recording, first, second) {
        return false;
    }
    let (_, one) = event_of(recording, first);
    let (_, other) = event_of(recording, second);
    if (address_or_zero(&one) == address_or_zero(&other)) != pair.same_address {
        return false;
    }
    has_letter(pair.first, &one) && has_letter(pair.second, &other)
}

/// Whether a write is newer than a source.
fn is_older(list: &[EventId], source: Option<EventId>, write: EventId) -> bool
    ensures { IsTrue result → IsOlder list.now source write }
{
    match source {
        Some(source) => stands_before(list, source, write),
        None => true,
    }
}

/// Whether an event writes a newer value than another read.
fn overwrites(recording: &Recording, read: EventId, write: EventId) -> bool
    ensures { IsTrue result → SideSaid recording.now Link.Fr read write }
{
    let (_, one) = event_of(recording, read);
    let (_, other) = event_of(recording, write);
    let Some(address) = one.read_address() else {
        return false;
    };
    if read == write || !other.writes_to(address) {
        return false;
    }
    is_older(recording.write_list(address), one.source(), write)
}

/// Whether an event is what a link says of another.
fn is_linked(recording: &Recording, link: Link, first: EventId, second: EventId) -> bool
    ensures { IsTrue result → SideSaid recording.now link first second }
{
    let (_, one) = event_of(recording, first);
    let (_, other) = event_of(recording, second);
    match link {
        Link::Rf => other.source() == Some(first),
        Link::Fr => overwrites(recording, first, second),
        Link::Co => {
            let Some(address) = one.written_address() else {
                return false;
            };
            stands_before(recording.write_list(address), first, second)
        }
    }
}

/// Whether what another word says is so.
fn says_side(recording: &Recording, side: Side, first: EventId, second: EventId) -> bool
    ensures { IsTrue result → Says recording.now (Word.Side side) first second }
{
    let (core, _) = event_of(recording, first);
    let (other, _) = event_of(recording, second);
    if (core == other) != side.same_core {
        return false;
    }
    is_linked(recording, side.link, first, second)
}

/// Whether what a word says of two events is so.
pub(crate) fn says(recording: &Recording, word: Word, first: EventId, second: EventId) -> bool
    ensures { IsTrue result → Says recording.now word first second }
{
    match word {
        Word::Pair(pair) => says_pair(recording, pair, first, second),
        Word::Side(side) => says_side(recording, side, first, second),
    }
}
