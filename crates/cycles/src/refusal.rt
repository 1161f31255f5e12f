//! Why words are no cycle.

/// Why no program is made of words. Where several apply, the first in this order is answered.
#[derive(Clone, Copy, Drop, PartialEq, Eq)]
pub enum CycleRefusal {
    /// E1: the word with this number, from 1, is none, or there is no word.
    Word(usize),
    /// E2: the words up to this number, from 1, are part of no cycle.
    Open(usize),
    /// E3: the words up to this number, from 1, have more than `MAX_EVENTS` events, `MAX_CORES` cores or
    /// `MAX_ADDRESSES` addresses.
    Large(usize),
}
