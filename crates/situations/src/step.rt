//! Steps of a core: the operations of a program, and the events of a recording.

use common::Addr;
use program::Op;
use recording::Event;

/// An operation or an event.
pub trait Step {
    ghost use Rattle.std.specs.Prelude.{◌≡◌, ℕ, Option};

    /// The address and the value of a plain store; none of any other step.
    ghost stored: { Self → Option (ℕ × ℕ) };

    /// The address and the value of a plain store; none of any other step.
    fn stored_value(&self) -> Option<(Addr, u32)>
        ensures { result ≡ stored self.now };
}

impl Step for Op {
    ghost use Rattle.situations.specs.Step.{stored_by_op};

    ghost stored = { stored_by_op };

    fn stored_value(&self) -> Option<(Addr, u32)> {
        match self {
            Op::St(address, value) => Some((*address, *value)),
            Op::Ld(_) => None,
            Op::Fence => None,
            Op::Swap(_, _) => None,
            Op::Add(_, _) => None,
            Op::Cas(_, _, _) => None,
        }
    }
}

impl Step for Event {
    ghost use Rattle.situations.specs.Step.{stored_by_event};

    ghost stored = { stored_by_event };

    fn stored_value(&self) -> Option<(Addr, u32)> {
        match self {
            Event::L { .. } => None,
            Event::S { a, w } => Some((*a, *w)),
            Event::R { .. } => None,
            Event::C { .. } => None,
            Event::F => None,
        }
    }
}
