//! How many stores a core has.

ghost use Rattle.std.specs.Prelude.{◌≡◌, count_by};
ghost use Rattle.recording.specs.Event.{is_plain_store};
ghost use Rattle.replay.specs.Steps.{most_stores};

use recording::{Event, Recording};

/// How many events are plain stores.
fn stores_in(events: &[Event]) -> usize
    ensures { result ≡ count_by is_plain_store events.now }
{
    let mut found = 0;
    for event in events {
        if matches!(event, Event::S { .. }) {
            found += 1;
        }
    }
    found
}

/// The greatest number of plain stores on one core, and at least 1.
pub fn most_stores(recording: &Recording) -> usize
    ensures { result ≡ most_stores recording.now.cores }
{
    let lists = recording.cores();
    let mut most = 1;
    for events in lists {
        let found = stores_in(events.as_slice());
        if most < found {
            most = found;
        }
    }
    most
}
