//! The rule of the word, and what its two kinds of step tell.

use atomic_table::{Join, Play, Split, Table, TableRule};
use relations::Relation;
use std::alloc::Global;
use std::collections::LinkedList;

/// The word that stands for none: it is above every length.
pub(crate) const NONE: u64 = u64::MAX;

/// What a seat knows: lengths that the word is at most. No value of it is made.
pub struct Known {
    /// Whether the seat is still there, not merged into another.
    pub live: bool,
    /// The relation whose cycles are meant.
    pub relation: Relation,
    /// The lengths that it lowered to or read, or had from others.
    pub lengths: LinkedList<u64>,
}

/// The view of a seat. No value of it is made.
pub struct SeatView {
    /// What the seat knows.
    pub known: Known,
    /// Whether it is the only seat of its bound: no other was ever beside it.
    pub alone: bool,
}

/// The word is none or the length of a cycle of the relation that all seats carry, and never above
/// a length that a seat knows; a length is one that some seat knows.
pub struct BestRule;

impl TableRule<(), SeatView, Relation> for BestRule {
    ghost use Rattle.best.specs.Rule.{LegalBest, first_bound_view};

    ghost holds = { LegalBest };

    ghost first = { first_bound_view };
}

/// The step of `lower`.
pub struct Lowers;

impl Play<(), SeatView> for Lowers {
    ghost use Rattle.best.specs.Rule.{LowerStep};

    ghost then = { LowerStep };
}

/// The step of `read`.
pub struct Reads;

impl Play<(), SeatView> for Reads {
    ghost use Rattle.best.specs.Rule.{ReadStep};

    ghost then = { ReadStep };
}

/// A second seat knows the same, and two seats know what either knew.
pub struct SeatRule;

impl Split<SeatView> for SeatRule {
    ghost use Rattle.best.specs.Rule.{bound_with_others};

    ghost left = { bound_with_others };

    ghost right = { bound_with_others };
}

impl Join<SeatView> for SeatRule {
    ghost use Rattle.best.specs.Rule.{joined_bound_views, spent_bound_view};

    ghost both = { joined_bound_views };

    ghost spent = { spent_bound_view };
}

/// The one word, with its rule.
pub type BestTable = Table<(), SeatView, Relation, BestRule, Global>;
