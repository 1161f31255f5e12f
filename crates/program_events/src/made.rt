//! From an operation to its event.

ghost use Rattle.std.specs.Prelude.{◌≡◌};
ghost use Rattle.program_events.specs.ProgramOf.{event_of};

use common::EventId;
use program::Op;
use recording::Event;

/// The event that an operation makes, from the value that it read and its source.
pub fn event_of(op: Op, read: (u32, Option<EventId>)) -> Event
    ensures { result ≡ event_of op read }
{
    let (r, s) = read;
    match op {
        Op::St(a, w) => Event::S { a, w },
        Op::Ld(a) => Event::L { a, r, s },
        Op::Fence => Event::F,
        Op::Swap(a, w) => Event::R { a, r, s, w },
        Op::Add(a, value) => Event::R {
            a,
            r,
            s,
            w: r.wrapping_add(value),
        },
        Op::Cas(a, expected, w) => {
            if r == expected {
                Event::R { a, r, s, w }
            } else {
                Event::C { a, r, s }
            }
        }
    }
}
