//! What holds of every list of codes.

ghost use Rattle.ledger.specs.Findings.{EveryFindingHasItsKind};
ghost use Rattle.ledger.specs.Joined.{EveryListHasOneLedger, EveryLedgerAddsUp, EveryTwoListsJoin};
ghost use Rattle.ledger.specs.Real.{EveryFittingLedgerHasCodes, EveryLedgerFits};

/// A list of codes has one ledger, whose counts of each kind add up to its total and whose first places fit them;
/// counts and first places of which both is so are those of some list. The ledger of two lists joined is what
/// `Ledger::add` makes of theirs. What is found has a code of its kind. It does nothing.
pub fn ledgers_add_up()
    ensures one { EveryListHasOneLedger }
    ensures sum { EveryLedgerAddsUp }
    ensures joined { EveryTwoListsJoin }
    ensures fits { EveryLedgerFits }
    ensures codes { EveryFittingLedgerHasCodes }
    ensures kinds { EveryFindingHasItsKind }
{}
