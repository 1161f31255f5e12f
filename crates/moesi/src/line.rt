//! The states of a line.

ghost use Rattle.std.specs.Prelude.{◌≡◌};
ghost use Rattle.moesi.specs.Lines.{is_valid, is_exclusive, is_owned, supplies};

/// The state of one core's line of an address: whether it is valid (the core has a copy), owned
/// (memory may lack its data), exclusive (no other core has a copy) and dirty (its data may differ
/// from memory's). Nagarajan, Sorin, Hill and Wood, A Primer on Memory Consistency and Cache
/// Coherence, second edition, chapters 6 to 8.
#[derive(Clone, Copy, PartialEq, Eq)]
pub enum Line {
    /// Invalid: not valid.
    I,
    /// Shared: valid; not owned, not exclusive.
    S,
    /// Exclusive: valid and exclusive; not owned, clean.
    E,
    /// Owned: valid and owned, perhaps dirty; not exclusive.
    O,
    /// Modified: valid, owned and exclusive, perhaps dirty.
    M,
}

impl Line {
    /// Whether the core may read it.
    pub fn is_valid(self) -> bool
        ensures { result ≡ is_valid self }
    {
        !matches!(self, Line::I)
    }

    /// Whether the core may write it.
    pub fn is_exclusive(self) -> bool
        ensures { result ≡ is_exclusive self }
    {
        matches!(self, Line::E | Line::M)
    }

    /// Whether its data go to memory when the core gives it up.
    pub(crate) fn is_owned(self) -> bool
        ensures { result ≡ is_owned self }
    {
        matches!(self, Line::O | Line::M)
    }

    /// Whether it gives its data to a core that asks, in place of memory.
    pub(crate) fn supplies(self) -> bool
        ensures { result ≡ supplies self }
    {
        matches!(self, Line::E | Line::O | Line::M)
    }
}
