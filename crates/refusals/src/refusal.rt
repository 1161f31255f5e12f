//! What a refusal is.

/// A refusal: what its line has, and what it means. The type of its texts is a parameter, so that a clause can name the
/// constants.
#[derive(Clone, Copy, Drop)]
pub struct Refusal<T> {
    /// Its name.
    pub name: T,
    /// What the number in its line counts; none where the line has no number.
    pub counts: Option<T>,
    /// What is wrong, after the number where there is one.
    pub said: T,
    /// What to know about it.
    pub advice: T,
}

/// The refusals of a kind, under what they are of.
pub type Group = (&'static str, &'static [Refusal<&'static str>]);
