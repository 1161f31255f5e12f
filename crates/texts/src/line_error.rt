//! Why a text gives nothing.

use common::OutOfMemory;
use std::alloc::AllocFailed;

/// Why a text that is read line by line gave nothing.
#[derive(Clone, Copy, Drop, PartialEq, Eq)]
pub enum LineError<F> {
    /// The first line at fault, counted from 1.
    AtLine(F, usize),
    /// There was no memory.
    OutOfMemory,
}

impl<F> From<OutOfMemory> for LineError<F> {
    ghost use Rattle.std.specs.Prelude.{◌≡◌};
    ghost use Rattle.texts.specs.declared.line_error.LineError.TheVariants.{OutOfMemory};

    ghost from_gives = { λ _ e. e ≡ OutOfMemory };

    fn from(_refused: OutOfMemory) -> LineError<F> {
        LineError::OutOfMemory
    }
}

impl<F, T: Drop> From<AllocFailed<T>> for LineError<F> {
    ghost use Rattle.std.specs.Prelude.{◌≡◌};
    ghost use Rattle.texts.specs.declared.line_error.LineError.TheVariants.{OutOfMemory};

    ghost from_gives = { λ _ e. e ≡ OutOfMemory };

    fn from(_refused: AllocFailed<T>) -> LineError<F> {
        LineError::OutOfMemory
    }
}
