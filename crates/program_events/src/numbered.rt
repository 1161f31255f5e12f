//! Whether addresses are numbered by first use.

ghost use Rattle.std.specs.Prelude.{◌≡◌, ◌↔◌, IsTrue, map};
ghost use Rattle.program.specs.Parts.{addr_of, use_addr, use_ops};
ghost use Rattle.recording.specs.FirstUse.{IsNumberedByFirstUse};
ghost use Rattle.program_events.specs.NamedProgram.{op_of};

use recording::{Event, Recording};

/// How many addresses are used after an event, where this many were before it; none where it uses one
/// before its turn.
fn used_after(used: usize, event: Event) -> Option<usize>
    ensures { result ≡ use_addr used (addr_of (op_of event)) }
{
    let addr = match event {
        Event::L { a, .. } | Event::S { a, .. } | Event::R { a, .. } | Event::C { a, .. } =>
            a as usize,
        Event::F => return Some(used),
    };
    if addr < used {
        return Some(used);
    }
    if addr == used { Some(used + 1) } else { None }
}

/// The numbering by first use after all events of a core.
fn used_in(first: usize, events: &[Event]) -> Option<usize>
    ensures { result ≡ use_ops first (map op_of events.now) }
{
    let mut used = first;
    for event in events {
        used = used_after(used, *event)?;
    }
    Some(used)
}

/// Whether the addresses of a recording are numbered by first use, and each is used.
pub fn is_numbered(recording: &Recording) -> bool
    ensures { IsTrue result ↔ IsNumberedByFirstUse recording.now }
{
    recording.sound();
    let lists = recording.cores();
    let mut used = 0;
    for events in lists {
        match used_in(used, events.as_slice()) {
            Some(next) => used = next,
            None => return false,
        }
    }
    used == recording.addresses()
}
