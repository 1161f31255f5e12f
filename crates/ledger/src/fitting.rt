//! Whether counts are those of some codes.

ghost use Rattle.std.specs.Prelude.{◌≡◌, ◌<◌, ◌+◌, ◌↔◌, IsTrue, MatchOption, sum};
ghost use Rattle.ledger.specs.Counts.{AddsUp};
ghost use Rattle.ledger.specs.Real.{AreApart, FirstsFit, IsFirstOf, violation_count};

use crate::law::ledgers_add_up;
use crate::ledger::Ledger;

/// What is left of a number where these are taken from it; none where it is less than all of them.
fn left_of(total: usize, counts: &[usize]) -> Option<usize>
    ensures { MatchOption result (total < sum counts.now) (λ left. left + sum counts.now ≡ total) }
{
    let mut left = total;
    for count in counts {
        let Some(rest) = left.checked_sub(*count) else {
            return None;
        };
        left = rest;
    }
    Some(left)
}

/// How many overlooks and cycles there are; none where the counts don't add up.
fn violations_of(ledger: &Ledger) -> Option<usize>
    ensures { MatchOption result (AddsUp ledger.now → ⊥) (λ count. AddsUp ledger.now
        × (count ≡ violation_count ledger.now)) }
{
    let Some(judged) = ledger.total.checked_sub(ledger.unjudged) else {
        return None;
    };
    let Some(violations) = judged.checked_sub(ledger.ordered) else {
        return None;
    };
    let Some(cycles) = violations.checked_sub(ledger.overlook) else {
        return None;
    };
    match left_of(cycles, &ledger.cycles) {
        Some(0) => Some(violations),
        _ => None,
    }
}

/// Whether it can be the first place of this many among all.
fn is_first_of(count: usize, total: usize, first: Option<usize>) -> bool
    ensures { IsTrue result ↔ IsFirstOf count total first }
{
    match first {
        None => count == 0,
        Some(place) => count > 0 && place <= total && count <= total - place,
    }
}

/// Whether two first places differ, and orders can stand before the earlier one.
fn are_apart(ordered: usize, first: Option<usize>, second: Option<usize>) -> bool
    ensures { IsTrue result ↔ AreApart ordered first second }
{
    let Some(i) = first else {
        return true;
    };
    let Some(j) = second else {
        return true;
    };
    i != j && (i <= ordered || j <= ordered)
}

/// Whether the first places fit the counts, of which this many are those of violations.
fn firsts_fit(ledger: &Ledger, violations: usize) -> bool
    requires { violations ≡ violation_count ledger.now }
    ensures { IsTrue result ↔ FirstsFit ledger.now }
{
    if !is_first_of(violations, ledger.total, ledger.first) {
        return false;
    }
    if !is_first_of(ledger.unjudged, ledger.total, ledger.first_unjudged) {
        return false;
    }
    are_apart(ledger.ordered, ledger.first, ledger.first_unjudged)
}

impl Ledger {
    ghost use Rattle.std.specs.Prelude.{◌≡◌, ◌+◌, ◌↔◌, IsTrue, length};
    ghost use Rattle.ledger.specs.declared.code.TheConstants.{LONG_CYCLE};
    ghost use Rattle.ledger.specs.Real.{HasCodes};

    /// Whether it is the ledger of some codes.
    pub fn has_codes(&self) -> bool
        requires { length self.now.cycles.items ≡ LONG_CYCLE + 1 }
        ensures { IsTrue result ↔ HasCodes self.now }
    {
        ledgers_add_up();
        let Some(violations) = violations_of(self) else {
            return false;
        };
        firsts_fit(self, violations)
    }
}
