//! Whether a recording is what words say, no more and no less.

ghost use Rattle.std.specs.Prelude.{◌≡◌, ◌<◌, ◌≢◌, ℕ, IsTrue, length, slice_index};
ghost use Rattle.recording.specs.Execution.{initial_value, write_list};
ghost use Rattle.cycles.specs.Made.{AreDistinct, AreSaid, AreWritten, HaveDiyValues, IsMadeOf, IsSaidAt, event_after};

use crate::closing::word_at;
use crate::limits::fence_count;
use crate::says::says;
use crate::word::Word;
use common::{Addr, EventId};
use event_texts::event_of;
use recording::Recording;

/// One of the events.
fn event_in(events: &[EventId], at: usize) -> EventId
    ensures { result ≡ slice_index events.now at }
{
    if at < events.len() {
        return events[at];
    }
    0
}

/// The event after one of them; after the last comes the first.
fn event_after(events: &[EventId], at: usize) -> EventId
    ensures { result ≡ event_after events.now at }
{
    if at < events.len() && at + 1 < events.len() {
        return event_in(events, at + 1);
    }
    event_in(events, 0)
}

/// Whether what a word says is so of its event and the next.
fn is_said_at(recording: &Recording, words: &[Word], events: &[EventId], at: usize) -> bool
    ensures { IsTrue result → IsSaidAt recording.now words.now events.now at }
{
    says(
        recording,
        word_at(words, at),
        event_in(events, at),
        event_after(events, at),
    )
}

/// Whether what each word says is so.
fn are_said(recording: &Recording, words: &[Word], events: &[EventId]) -> bool
    ensures { IsTrue result → AreSaid recording.now words.now events.now }
{
    for i in 0..words.len() {
        if !is_said_at(recording, words, events, i) {
            return false;
        }
    }
    true
}

/// Whether an event is none of those before it.
fn is_new(events: &[EventId], at: usize) -> bool
    ensures { IsTrue result → (j : ℕ) → j < at → slice_index events.now at ≢ slice_index events.now j }
{
    for i in 0..at {
        if event_in(events, at) == event_in(events, i) {
            return false;
        }
    }
    true
}

/// Whether each two of the events differ.
fn are_distinct(events: &[EventId]) -> bool
    ensures { IsTrue result → AreDistinct events.now }
{
    for i in 0..events.len() {
        if !is_new(events, i) {
            return false;
        }
    }
    true
}

/// Whether there is an event for each word, of which it says what is so with the next, and no other event but fences.
pub(crate) fn is_made_of(recording: &Recording, words: &[Word], events: &[EventId]) -> bool
    ensures { IsTrue result → IsMadeOf words.now events.now recording.now }
{
    if events.len() != words.len() || recording.len() < words.len() {
        return false;
    }
    if recording.len() - words.len() != fence_count(words) {
        return false;
    }
    are_distinct(events) && are_said(recording, words, events)
}

/// Whether the writes of a list have the values 1, 2, and so on.
fn are_written(recording: &Recording, address: Addr) -> bool
    ensures { IsTrue result → AreWritten recording.now address }
{
    let list = recording.write_list(address);
    for i in 0..list.len() {
        let (_, event) = event_of(recording, list[i]);
        if event.value_written() as usize != i + 1 {
            return false;
        }
    }
    true
}

/// Whether all values are 0.
fn are_zero(values: &[u32]) -> bool
    ensures { IsTrue result → (a : ℕ) → a < length values.now → slice_index values.now a ≡ 0 }
{
    for i in 0..values.len() {
        if values[i] != 0 {
            return false;
        }
    }
    true
}

/// Whether each address begins with 0 and its writes have the values 1, 2, and so on, in memory order.
pub(crate) fn have_diy_values(recording: &Recording) -> bool
    ensures { IsTrue result → HaveDiyValues recording.now }
{
    recording.sound();
    for address in 0..recording.addresses() {
        if !are_written(recording, address as Addr) {
            return false;
        }
    }
    are_zero(recording.init())
}
