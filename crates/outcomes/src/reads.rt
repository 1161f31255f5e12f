//! Which operations read, and what.

ghost use Rattle.std.specs.Prelude.{◌≡◌, ◌<◌, ◌≤◌, length};
ghost use Rattle.common.specs.declared.limits.TheConstants.{MAX_EVENTS};
ghost use Rattle.program.specs.Parts.{op_count};
ghost use Rattle.machine.specs.State.{first_event};
ghost use Rattle.outcomes.specs.Situation.{does_read};

use program::{Op, Ops};

/// Whether an operation reads.
pub fn does_read(op: Op) -> bool
    ensures { result ≡ does_read op }
{
    match op {
        Op::St(_, _) => false,
        Op::Ld(_) => true,
        Op::Fence => false,
        Op::Swap(_, _) => true,
        Op::Add(_, _) => true,
        Op::Cas(_, _, _) => true,
    }
}

/// The number of the first event of a core.
pub fn first_event(cores: &[Ops], core: usize) -> usize
    requires core { core < length cores.now }
    requires few { op_count cores.now ≤ MAX_EVENTS }
    ensures value { result ≡ first_event cores.now core }
    ensures small { result ≤ MAX_EVENTS }
{
    let mut total = 0;
    for i in 0..core {
        total += cores[i].as_slice().len();
    }
    total
}
