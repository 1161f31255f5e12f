//! Why a step script is refused.

use texts::LineError;

/// Why a line of a step script is refused. Where several apply to one line, the first in this order
/// is answered.
#[derive(Clone, Copy, PartialEq, Eq)]
pub enum StepRefusal {
    /// The line is outside the grammar, or has no newline.
    S1,
    /// The program has no core of this number; a number may have any count of digits.
    S2,
    /// The program has no address of this name.
    S3,
    /// A line after `MAX_STEPS` lines.
    S4,
}

/// Why a step script gave no steps.
pub type StepsError = LineError<StepRefusal>;
