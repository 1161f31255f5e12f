//! The rule of the desk's words, and what each kind of step tells.

use atomic_table::{Join, Play, Split, Table, TableRule};
use program::Campaign;
use std::alloc::Global;
use std::collections::LinkedList;

/// What a seat knows. No value of it is made.
pub struct SeatKnowledge {
    /// Whether it was not merged into another.
    pub live: bool,
    /// Whether it is the only seat of its desk: no other was ever beside it.
    pub alone: bool,
    /// The campaign of its desk.
    pub campaign: Campaign,
    /// The trials that it claimed.
    pub share: LinkedList<u64>,
    /// Those of them that it filed.
    pub filed: LinkedList<u64>,
    /// The trials that it saw at least claimed.
    pub seen: LinkedList<u64>,
    /// The trials that it saw filed.
    pub read: LinkedList<u64>,
}

/// A word is 0 where its trial is open, 1 where it is claimed, else its code.
pub struct DeskRule;

impl TableRule<(), SeatKnowledge, Campaign> for DeskRule {
    ghost use Rattle.trials.specs.LegalDesk.{Legal, first_view};

    ghost holds = { Legal };

    ghost first = { first_view };
}

/// The compare-exchange of a claim.
pub struct Claims;

impl Play<(), SeatKnowledge> for Claims {
    ghost use Rattle.trials.specs.LegalDesk.{ClaimStep};

    ghost then = { ClaimStep };
}

/// The store of a filing.
pub struct Files;

impl Play<(), SeatKnowledge> for Files {
    ghost use Rattle.trials.specs.LegalDesk.{FileStep};

    ghost then = { FileStep };
}

/// The load of a look.
pub struct Looks;

impl Play<(), SeatKnowledge> for Looks {
    ghost use Rattle.trials.specs.LegalDesk.{LookStep};

    ghost then = { LookStep };
}

/// A second seat has an empty share and has seen the same.
pub struct SeatRule;

impl Split<SeatKnowledge> for SeatRule {
    ghost use Rattle.trials.specs.LegalDesk.{with_others, without_share};

    ghost left = { with_others };

    ghost right = { without_share };
}

impl Join<SeatKnowledge> for SeatRule {
    ghost use Rattle.trials.specs.LegalDesk.{joined_views, spent_view};

    ghost both = { joined_views };

    ghost spent = { spent_view };
}

/// The words of a desk, under their rule.
pub type DeskTable = Table<(), SeatKnowledge, Campaign, DeskRule, Global>;
