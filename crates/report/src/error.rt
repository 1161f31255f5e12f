//! Why there is no whole answer.

use common::OutOfMemory;
use thiserror::Error;

/// Why there is no whole answer.
#[derive(Clone, Copy, Debug, Drop, PartialEq, Eq, Error)]
pub enum ReportError {
    /// A read failed; nothing was written.
    #[error("read failed")]
    ReadFailed,
    /// A write failed; a beginning of the answer was written.
    #[error("write failed")]
    WriteFailed,
    /// There was no memory; nothing was written.
    #[error("out of memory")]
    OutOfMemory,
}

impl From<OutOfMemory> for ReportError {
    ghost use Rattle.std.specs.Prelude.{◌≡◌};
    ghost use Rattle.report.specs.declared.error.ReportError.TheVariants.{OutOfMemory};

    ghost from_gives = { λ _ e. e ≡ OutOfMemory };

    fn from(_refused: OutOfMemory) -> ReportError {
        ReportError::OutOfMemory
    }
}
