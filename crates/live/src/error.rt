//! Why a traced machine does not go on.

use common::OutOfMemory;
use machine::Blocked;

/// Why a step is not taken, or why threads gave no machine.
#[derive(Clone, Copy, Debug, Drop, PartialEq, Eq)]
pub enum LiveError {
    /// The machine blocks the step, by this guard.
    Blocked(Blocked),
    /// The trace has as many steps as it may have.
    TraceFull,
    /// A thread was not started.
    NoThread,
    /// What the threads left is not a run of the given program, or has not come to its end.
    Stranger,
    /// There was no memory for the machine or its trace.
    OutOfMemory,
}

impl From<OutOfMemory> for LiveError {
    ghost use Rattle.std.specs.Prelude.{◌≡◌};
    ghost use Rattle.live.specs.declared.error.LiveError.TheVariants.{OutOfMemory};

    ghost from_gives = { λ _ e. e ≡ OutOfMemory };

    fn from(_refused: OutOfMemory) -> LiveError {
        LiveError::OutOfMemory
    }
}
