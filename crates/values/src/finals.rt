//! What memory has at the end of a recording.

ghost use Rattle.std.specs.Prelude.{◌≡◌};
ghost use Rattle.recording.specs.Event.{value_written};
ghost use Rattle.recording.specs.Execution.{event_at};
ghost use Rattle.values.specs.Final.{final_value};

use common::{Addr, EventId};
use recording::Recording;

/// The value that a write has written; 0 past the last event.
#[tactic(auto, using(recording::specs::EventLaws::event_past))]
fn value_written(recording: &Recording, write: EventId) -> u32
    ensures { result ≡ value_written (event_at recording.now write) }
{
    match recording.event(write) {
        Some((_, event)) => event.value_written(),
        None => 0,
    }
}

/// The value that an address ends with: that of the last write to it, or the initial one; 0 where there is no such
/// address.
pub fn final_value(recording: &Recording, address: usize) -> u32
    ensures { result ≡ final_value recording.now address }
{
    recording.sound();
    let init = recording.init();
    if address >= init.len() {
        return 0;
    }
    let list = recording.write_list(address as Addr);
    if list.is_empty() {
        return init[address];
    }
    value_written(recording, list[list.len() - 1])
}
