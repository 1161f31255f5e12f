//! What the lines of a survey are.

/// What each line is, and so what it comes to.
#[derive(Clone, Copy, Drop, PartialEq, Eq)]
pub enum LineKind {
    /// A recording, which is judged.
    Recording,
    /// A recording within the large limits, which is judged as one of any length.
    LongRecording,
    /// Values, which are completed where that takes no more than this many states.
    Values(usize),
}
