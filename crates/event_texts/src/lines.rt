//! The lines of events.

ghost use Rattle.std.specs.Prelude.{◌≡◌, ◌++◌, OnOk};
ghost use Rattle.recording.specs.Execution.{event_at, core_of};
ghost use Rattle.texts.specs.Numbers.{aligned};
ghost use Rattle.event_texts.specs.Events.{event_width, core_width, event_line, indent, label_text};

use crate::events::put_event;
use crate::names::Names;
use common::{CoreId, EventId, OutOfMemory};
use recording::{Event, Recording};
use texts::{digits, put_aligned, put_spaces, put_text};

/// How many digits the greatest number of an event has.
fn event_width(recording: &Recording) -> usize
    ensures { result ≡ event_width recording.now }
{
    digits(recording.len().saturating_sub(1))
}

/// How many digits the greatest number of a core has.
fn core_width(recording: &Recording) -> usize
    ensures { result ≡ core_width recording.now }
{
    digits(recording.cores().len().saturating_sub(1))
}

/// The core of an event and what it did; a number past the last event is a fence of core 0.
pub fn event_of(recording: &Recording, number: EventId) -> (CoreId, Event)
    ensures core { result.0 ≡ core_of recording.now number }
    ensures event { result.1 ≡ event_at recording.now number }
{
    match recording.event(number) {
        Some((core, event)) => (core, *event),
        None => (0, Event::F),
    }
}

/// Adds a label, after what its event did.
#[tactic(auto, unfolding(crate::specs::Events::label_text))]
fn put_label(out: &mut Vec<u8>, label: &[u8]) -> Result<(), OutOfMemory>
    ensures { OnOk result (out.new.items ≡ out.old.items ++ label_text label.now) }
{
    if label.is_empty() {
        return Ok(());
    }
    put_text(out, b"  # ")?;
    put_text(out, label)
}

/// Adds the line of an event.
#[tactic(auto, unfolding(crate::specs::Events::event_line))]
pub fn put_line(
    out: &mut Vec<u8>,
    recording: &Recording,
    names: &Names,
    number: EventId,
) -> Result<(), OutOfMemory>
    ensures { OnOk result (out.new.items ≡ out.old.items ++ event_line recording.now names.now number) }
{
    let (core, event) = event_of(recording, number);
    put_text(out, b"  ")?;
    put_aligned(out, event_width(recording), number as usize)?;
    put_text(out, b"  core ")?;
    put_aligned(out, core_width(recording), core as usize)?;
    put_text(out, b"  ")?;
    put_event(out, names, &event)?;
    put_label(out, names.label(number))?;
    put_text(out, b"\n")
}

/// Adds the spaces before what is said of the event above.
pub fn put_indent(out: &mut Vec<u8>, recording: &Recording) -> Result<(), OutOfMemory>
    ensures { OnOk result (out.new.items ≡ out.old.items ++ indent recording.now) }
{
    put_spaces(out, event_width(recording))?;
    put_text(out, b"    ")
}
