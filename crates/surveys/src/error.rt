//! Why there is no survey.

use common::OutOfMemory;
use devices::ReadError;
use thiserror::Error;

/// Why there is no survey.
#[derive(Clone, Copy, Debug, Drop, PartialEq, Eq, Error)]
pub enum SurveyError {
    /// A read failed.
    #[error("read failed")]
    ReadFailed,
    /// A write failed.
    #[error("write failed")]
    WriteFailed,
    /// There was no memory.
    #[error("out of memory")]
    OutOfMemory,
    /// No number of 64 bits counts the bytes.
    #[error("too long")]
    TooLong,
}

impl From<OutOfMemory> for SurveyError {
    ghost use Rattle.std.specs.Prelude.{◌≡◌};
    ghost use Rattle.surveys.specs.declared.error.SurveyError.TheVariants.{OutOfMemory};

    ghost from_gives = { λ _ e. e ≡ OutOfMemory };

    fn from(_refused: OutOfMemory) -> SurveyError {
        SurveyError::OutOfMemory
    }
}

impl From<ReadError> for SurveyError {
    ghost use Rattle.std.specs.Prelude.{◌≡◌};
    ghost use Rattle.surveys.specs.Surveys.{survey_error_of};

    ghost from_gives = { λ error e. e ≡ survey_error_of error };

    fn from(error: ReadError) -> SurveyError {
        match error {
            ReadError::ReadFailed => SurveyError::ReadFailed,
            ReadError::OutOfMemory => SurveyError::OutOfMemory,
        }
    }
}
