//! What surveys count.

ghost use Rattle.std.specs.Prelude.{◌≡◌, ◌+◌, ◌<◌, ◌^◌, IfSome, count_by, position};
ghost use Rattle.ledger.specs.Kinds.{is_unfinished, is_unread};
ghost use Rattle.ledger.specs.Surveyed.{AreJoinedKinds};

use crate::kinds::{is_unfinished, is_unread};
use crate::ledger::{Ledger, first_of};
use common::OutOfMemory;
use std::alloc::Global;

/// How many codes are of a kind, and where the first is.
#[derive(Clone, Copy, Drop, PartialEq, Eq)]
pub struct KindCount {
    /// How many there are.
    pub count: usize,
    /// The first place.
    pub first: Option<usize>,
}

/// A ledger, and how much of what has no verdict is unfinished, and how much is unread.
#[derive(Drop)]
pub struct SurveyLedger {
    /// The ledger of all codes.
    pub ledger: Ledger,
    /// The values of which it was not found out whether TSO allows them.
    pub unfinished: KindCount,
    /// What is refused.
    pub unread: KindCount,
}

impl SurveyLedger {
    ghost use Rattle.std.specs.Prelude.{IfOk};
    ghost use Rattle.ledger.specs.Surveyed.{AreJoinedSurveys, CanJoinSurveys, IsSurveyLedger};

    /// What a survey counts of these codes, in order. Fails only if out of memory.
    pub fn count(alloc: Global, codes: &[u64]) -> Result<SurveyLedger, OutOfMemory>
        ensures { IfOk result (IsSurveyLedger codes.now) }
    {
        let ledger = Ledger::count(alloc, codes)?;
        Ok(SurveyLedger {
            ledger,
            unfinished: KindCount {
                count: unfinished_count(codes),
                first: first_unfinished(codes),
            },
            unread: KindCount {
                count: unread_count(codes),
                first: first_unread(codes),
            },
        })
    }

    /// Adds the counts of the codes that come after those of this one. Both count codes, of fewer than 2^64 together.
    pub fn add(&mut self, other: &SurveyLedger)
        requires { CanJoinSurveys self.old other.now }
        ensures { AreJoinedSurveys self.old other.now self.new }
    {
        let total = self.ledger.total;
        self.unfinished = joined_count(total, self.unfinished, other.unfinished);
        self.unread = joined_count(total, self.unread, other.unread);
        self.ledger.add(&other.ledger);
    }
}

/// How many codes are unfinished.
fn unfinished_count(codes: &[u64]) -> usize
    ensures { result ≡ count_by is_unfinished codes.now }
{
    codes.iter().filter(|code| is_unfinished(**code)).count()
}

/// The first place of what is unfinished.
fn first_unfinished(codes: &[u64]) -> Option<usize>
    ensures { result ≡ position is_unfinished codes.now }
{
    codes.iter().position(|code| is_unfinished(*code))
}

/// How many codes are unread.
fn unread_count(codes: &[u64]) -> usize
    ensures { result ≡ count_by is_unread codes.now }
{
    codes.iter().filter(|code| is_unread(**code)).count()
}

/// The first place of what is unread.
fn first_unread(codes: &[u64]) -> Option<usize>
    ensures { result ≡ position is_unread codes.now }
{
    codes.iter().position(|code| is_unread(*code))
}

/// The count of two lists, of which the first has this many codes.
fn joined_count(total: usize, one: KindCount, other: KindCount) -> KindCount
    requires count { one.count + other.count < 2 ^ 64 }
    requires first { IfSome other.first (λ k. total + k < 2 ^ 64) }
    ensures { AreJoinedKinds total one other result }
{
    KindCount {
        count: one.count + other.count,
        first: first_of(one.first, total, other.first),
    }
}
