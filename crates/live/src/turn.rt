//! What each thread does while it holds the lock.

ghost use Rattle.std.specs.Prelude.{◌<◌, length};

use crate::error::LiveError;
use crate::traced::Traced;
use common::{Addr, CoreId};
use machine::{Blocked, Machine, Step};
use program::Op;

/// What came of a thread's turn.
#[derive(Clone, Copy)]
pub(crate) enum Turn {
    /// It took a step.
    Took,
    /// It has nothing to do until another thread takes a step.
    Idle,
    /// It has nothing more to do.
    Over,
    /// No thread can ever help it on.
    Stuck,
}

/// Whose turn it is.
#[derive(Clone, Copy)]
pub(crate) enum Worker {
    /// A core, which executes its operations.
    Core(CoreId),
    /// The drains of all cores' store buffers.
    Drains,
    /// The transactions that drains wait for.
    Caches,
}

impl Worker {
    /// The worker's turn.
    pub(crate) fn turn(self, traced: &mut Traced) -> Turn {
        match self {
            Worker::Core(core) => execute(traced, core),
            Worker::Drains => drain(traced),
            Worker::Caches => get_line(traced),
        }
    }
}

/// A core executes its next operation. Where its line does not allow it, it gets the line and
/// executes the operation at once, so that no other core takes the line before it is used.
fn execute(traced: &mut Traced, core: CoreId) -> Turn {
    match traced.advance(Step::Exec(core)) {
        Ok(()) => Turn::Took,
        Err(LiveError::Blocked(Blocked::B2)) if traced.machine().capacity() == 0 => Turn::Stuck,
        Err(LiveError::Blocked(Blocked::B2 | Blocked::B3)) => Turn::Idle,
        Err(LiveError::Blocked(Blocked::B4 | Blocked::B5)) => execute_in_line(traced, core),
        Err(_) => Turn::Over,
    }
}

/// A core gets the line that its next operation needs, and executes the operation.
fn execute_in_line(traced: &mut Traced, core: CoreId) -> Turn {
    let Some(step) = transaction(traced.machine(), core) else {
        return Turn::Over;
    };
    if traced.advance(step).is_err() {
        return Turn::Over;
    }
    let _ = traced.advance(Step::Exec(core));
    Turn::Took
}

/// The transaction that a core's next operation needs.
fn transaction(machine: &Machine, core: CoreId) -> Option<Step> {
    match machine.next(core)? {
        Op::Ld(addr) => Some(Step::GetS(core, addr)),
        Op::Swap(addr, _) => Some(Step::GetM(core, addr)),
        Op::Add(addr, _) => Some(Step::GetM(core, addr)),
        Op::Cas(addr, _, _) => Some(Step::GetM(core, addr)),
        Op::St(..) => None,
        Op::Fence => None,
    }
}

/// The oldest store of some core's buffer goes to its line.
fn drain(traced: &mut Traced) -> Turn {
    for core in 0..traced.machine().program().cores() {
        if traced.advance(Step::Drain(core as CoreId)).is_ok() {
            return Turn::Took;
        }
    }
    Turn::Idle
}

/// Some core gets the line that its oldest store waits for.
fn get_line(traced: &mut Traced) -> Turn {
    let Some(step) = awaited_transaction(traced.machine()) else {
        return Turn::Idle;
    };
    match traced.advance(step) {
        Ok(()) => Turn::Took,
        Err(_) => Turn::Idle,
    }
}

/// The transaction that the first core needs whose oldest store waits for a line that no core is
/// about to drain to.
fn awaited_transaction(machine: &Machine) -> Option<Step> {
    for core in 0..machine.program().cores() {
        if let Some(addr) = machine.oldest(core as CoreId) {
            if !is_in_use(machine, addr) {
                return Some(Step::GetM(core as CoreId, addr));
            }
        }
    }
    None
}

/// Whether some core is about to drain to its line of an address.
fn is_in_use(machine: &Machine, addr: Addr) -> bool
    requires { addr < length machine.now.program.names }
{
    for core in 0..machine.program().cores() {
        if machine.oldest(core as CoreId) == Some(addr)
            && machine.line(core as CoreId, addr).is_exclusive()
        {
            return true;
        }
    }
    false
}
