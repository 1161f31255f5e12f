//! Which version of the text tells a recording.

ghost use Rattle.std.specs.Prelude.{◌≡◌, ◌==◌, map};
ghost use Rattle.std.specs.List.{list_all, list_any};
ghost use Rattle.recording.specs.Event.{is_failed_cas};
ghost use Rattle.recorder.specs.Text.{has_failed_cas, is_of_version_1};

use recording::{Event, Recording};

/// Whether a compare-and-swap among the events failed.
pub(crate) fn has_failed(events: &[Event]) -> bool
    ensures { result ≡ list_any is_failed_cas events.now }
{
    events.iter().any(|event| event.is_failed_cas())
}

/// Whether a compare-and-swap of a core failed.
pub(crate) fn has_failed_cas(cores: &[Vec<Event>]) -> bool
    ensures { result ≡ has_failed_cas (map (λ v. v.items) cores.now) }
{
    cores.iter().any(|events| has_failed(events.as_slice()))
}

fn all_zero(init: &[u32]) -> bool
    ensures { result ≡ list_all (λ v. v == 0) init.now }
{
    init.iter().all(|value| *value == 0)
}

/// Whether version 1 tells it: no compare-and-swap failed, and each address begins as 0.
#[tactic(auto, unfolding(crate::specs::Text::is_of_version_1))]
pub(crate) fn is_of_version_1(recording: &Recording) -> bool
    ensures { result ≡ is_of_version_1 recording.now }
{
    !has_failed_cas(recording.cores()) && all_zero(recording.init())
}
