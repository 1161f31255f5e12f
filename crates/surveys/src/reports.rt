//! What a survey reports.

/// What a survey reports while it lasts.
#[derive(Clone, Copy, Drop, PartialEq, Eq)]
pub enum Reports {
    /// Each line, by what is found in it.
    EachLine,
    /// No line: they are counted alone.
    NoLine,
}
