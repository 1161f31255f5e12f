//! Whether a text is that of a verdict that holds.

/// Whether a text is that of a verdict that holds of a recording.
#[derive(Clone, Copy, PartialEq, Eq)]
pub enum TextCheck {
    /// It is.
    Holds,
    /// It is not: this line, counted from 1, is the first that does not hold after those before it.
    FailsAt(usize),
    /// It is not: all its lines hold, and more are due.
    EndsEarly,
}
