//! Moves.

/// What a core does next.
#[derive(Clone, Copy, PartialEq, Eq)]
pub enum Move {
    /// It executes its next operation.
    Exec,
    /// Its oldest waiting store comes to memory.
    Drain,
}

/// A move of a core.
#[derive(Clone, Copy, PartialEq, Eq)]
pub(crate) struct Turn {
    /// The move.
    pub step: Move,
    /// The core.
    pub core: usize,
}
