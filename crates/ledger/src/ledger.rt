//! Ledgers.

ghost use Rattle.std.specs.Prelude.{◌≡◌, ◌≤◌, ◌<◌, ◌+◌, ◌^◌, ℕ, IfOk, IfSome, count_by, length, position};
ghost use Rattle.std.specs.Prelude.{slice_index, if◌then◌else◌};
ghost use Rattle.ledger.specs.declared.code.TheConstants.{LONG_CYCLE};
ghost use Rattle.ledger.specs.Kinds.{is_ordered, is_cycle_of, is_overlook, is_unjudged, is_violation};
ghost use Rattle.ledger.specs.Counts.{AreCounts};
ghost use Rattle.ledger.specs.Joined.{AreSums, first_of};

use crate::code::{CYCLE, LONG_CYCLE, ORDERED, OVERLOOK};
use crate::kinds::{is_unjudged, is_violation};
use common::OutOfMemory;
use std::alloc::Global;

/// How many codes there are of each kind.
#[derive(Drop)]
pub struct Ledger {
    /// How many codes there are.
    pub total: usize,
    /// How many recordings have an order.
    pub ordered: usize,
    /// How many have no verdict: unfinished runs, or refused recordings.
    pub unjudged: usize,
    /// How many recordings have an overlook.
    pub overlook: usize,
    /// For each length how many recordings have no overlook and a least cycle of it.
    pub cycles: Vec<usize>,
    /// The first place of an overlook or a cycle.
    pub first: Option<usize>,
    /// The first place of what has no verdict.
    pub first_unjudged: Option<usize>,
}

impl Ledger {
    ghost use Rattle.std.specs.Prelude.{◌<◌, ◌+◌, ◌^◌, ◌↔◌, IfOk, IsTrue};
    ghost use Rattle.ledger.specs.Counts.{IsLedger};
    ghost use Rattle.ledger.specs.Joined.{CanJoin, IsJoined};

    /// The ledger of these codes, in order. Fails only if out of memory.
    pub fn count(alloc: Global, codes: &[u64]) -> Result<Ledger, OutOfMemory>
        ensures { IfOk result (IsLedger codes.now) }
    {
        let mut cycles = Vec::from_elem(alloc, 0usize, LONG_CYCLE + 1)?;
        count_cycles(&mut cycles, codes);
        Ok(Ledger {
            total: codes.len(),
            ordered: ordered_count(codes),
            unjudged: unjudged_count(codes),
            overlook: overlook_count(codes),
            cycles,
            first: first_violation(codes),
            first_unjudged: first_unjudged(codes),
        })
    }

    /// Whether the codes of both are fewer than 2^64.
    pub fn can_add(&self, other: &Ledger) -> bool
        ensures { IsTrue result ↔ self.now.total + other.now.total < 2 ^ 64 }
    {
        self.total.checked_add(other.total).is_some()
    }

    /// Adds the ledger of the codes that come after those of this one. Both are ledgers of codes, of fewer than
    /// 2^64 together.
    pub fn add(&mut self, other: &Ledger)
        requires { CanJoin self.old other.now }
        ensures { IsJoined self.old other.now self.new }
    {
        self.first = first_of(self.first, self.total, other.first);
        self.first_unjudged = first_of(self.first_unjudged, self.total, other.first_unjudged);
        self.total += other.total;
        self.ordered += other.ordered;
        self.unjudged += other.unjudged;
        self.overlook += other.overlook;
        add_counts(&mut self.cycles, &other.cycles);
    }
}

/// How many codes are those of orders.
fn ordered_count(codes: &[u64]) -> usize
    ensures { result ≡ count_by is_ordered codes.now }
{
    codes.iter().filter(|code| **code == ORDERED).count()
}

/// How many codes are those of what has no verdict.
fn unjudged_count(codes: &[u64]) -> usize
    ensures { result ≡ count_by is_unjudged codes.now }
{
    codes.iter().filter(|code| is_unjudged(**code)).count()
}

/// How many codes are those of overlooks.
fn overlook_count(codes: &[u64]) -> usize
    ensures { result ≡ count_by is_overlook codes.now }
{
    codes.iter().filter(|code| **code >= OVERLOOK).count()
}

/// The first place of a violation.
fn first_violation(codes: &[u64]) -> Option<usize>
    ensures { result ≡ position is_violation codes.now }
{
    codes.iter().position(|code| is_violation(*code))
}

/// The first place of what has no verdict.
fn first_unjudged(codes: &[u64]) -> Option<usize>
    ensures { result ≡ position is_unjudged codes.now }
{
    codes.iter().position(|code| is_unjudged(*code))
}

/// Counts a code, where it is that of a cycle, among those of its length.
fn count_code(counts: &mut [usize], code: u64)
    requires size { length counts.old ≡ LONG_CYCLE + 1 }
    requires few { (n : ℕ) → n ≤ LONG_CYCLE → slice_index counts.old n + 1 < 2 ^ 64 }
    ensures size { length counts.new ≡ LONG_CYCLE + 1 }
    ensures counts { (n : ℕ) → n ≤ LONG_CYCLE → slice_index counts.new n
        ≡ (if is_cycle_of n code then slice_index counts.old n + 1 else slice_index counts.old n) }
{
    let length = code.wrapping_sub(CYCLE);
    if length <= LONG_CYCLE as u64 {
        counts[length as usize] += 1;
    }
}

/// Counts the codes of cycles of each length.
fn count_cycles(counts: &mut [usize], codes: &[u64])
    requires size { length counts.old ≡ LONG_CYCLE + 1 }
    requires none { (n : ℕ) → n ≤ LONG_CYCLE → slice_index counts.old n ≡ 0 }
    ensures size { length counts.new ≡ LONG_CYCLE + 1 }
    ensures counts { AreCounts codes.now counts.new }
{
    for code in codes {
        count_code(counts, *code);
    }
}

/// The first place of two lists, of which the first has this many items.
pub(crate) fn first_of(first: Option<usize>, length: usize, other: Option<usize>) -> Option<usize>
    requires { IfSome other (λ k. length + k < 2 ^ 64) }
    ensures { result ≡ first_of first length other }
{
    if let Some(place) = first {
        return Some(place);
    }
    match other {
        Some(place) => Some(length + place),
        None => None,
    }
}

/// Adds counts at each place.
fn add_counts(counts: &mut [usize], others: &[usize])
    requires size { length counts.old ≡ length others.now }
    requires few { (n : ℕ) → slice_index counts.old n + slice_index others.now n < 2 ^ 64 }
    ensures size { length counts.new ≡ length counts.old }
    ensures sums { AreSums counts.old others.now counts.new }
{
    for n in 0..others.len() {
        counts[n] += others[n];
    }
}
