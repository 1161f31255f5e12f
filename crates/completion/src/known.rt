//! What is known beside values: sources, and the values that addresses end with.

ghost use Rattle.std.specs.Prelude.{◌≡◌, ◌<◌, ℕ, IsTrue, Option, Some, false, length};
ghost use Rattle.recording.specs.Execution.{source_of};
ghost use Rattle.values.specs.Final.{final_value};
ghost use Rattle.values.specs.Values.{known_final, known_source};

use common::EventId;
use recording::Recording;
use values::{Values, final_value};

/// The source of the event at an index; none past the end.
#[tactic(auto, using(recording::specs::EventLaws::event_past))]
fn source_at(recording: &Recording, index: usize) -> Option<EventId>
    ensures { result ≡ source_of recording.now index }
{
    recording.sound();
    if index >= recording.len() {
        return None;
    }
    recording.source(index as EventId)
}

/// Whether each source that is known is that of the recording.
pub(crate) fn keeps_sources(values: &Values, recording: &Recording) -> bool
    ensures holds { IsTrue result → (e : ℕ) (s : Option ℕ) → known_source values.now e ≡ Some s
        → source_of recording.now e ≡ s }
    ensures fails { result ≡ false → ¬ ((e : ℕ) (s : Option ℕ) → known_source values.now e ≡ Some s
        → source_of recording.now e ≡ s) }
{
    let known = values.sources();
    for e in 0..known.len() {
        if let Some(source) = known[e] {
            if source_at(recording, e) != source {
                return false;
            }
        }
    }
    true
}

/// Whether each value that an address is known to end with is that of the recording.
pub(crate) fn keeps_finals(values: &Values, recording: &Recording) -> bool
    ensures holds { IsTrue result → (a n : ℕ) → known_final values.now a ≡ Some n → final_value recording.now a ≡ n }
    ensures fails { result ≡ false
        → ¬ ((a n : ℕ) → known_final values.now a ≡ Some n → final_value recording.now a ≡ n) }
{
    let known = values.final_values();
    for a in 0..known.len() {
        if let Some(value) = known[a] {
            if final_value(recording, a) != value {
                return false;
            }
        }
    }
    true
}
