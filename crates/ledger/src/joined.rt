//! Texts with headers as one, and texts of either kind.

ghost use Rattle.std.specs.Prelude.{◌≡◌, ◌<◌, ◌≤◌, ◌+◌, ◌^◌, IfErr, IfOk, IsSortedByKey, MatchOption, length, map};
ghost use Rattle.std.specs.Ordering.{nat_cmp};
ghost use Rattle.ledger.specs.Merges.{IsMergingError};
ghost use Rattle.ledger.specs.Ordered.{AreJoined, AreTooLong, AreWithin, FirstIsLeast, Follows, HasSeam, IsHeaderOf};
ghost use Rattle.ledger.specs.Ordered.{IsJoinedOrder, IsMissing, IsNoJoin, IsNoOrderedJoin, IsSeam, first_from};
ghost use Rattle.ledger.specs.Ordered.{place_from, told};
ghost use Rattle.ledger.specs.Sections.{AreAlike, end_of};

use crate::ledger::Ledger;
use crate::merge_error::{MergeError, MergeRefusal, Seam};
use crate::merged::{line_at, merge_texts};
use crate::sections::{Section, kind_of, sections};
use common::OutOfMemory;
use headers::{Counted, Header};
use std::alloc::Global;

/// What is done where seeds or lines are missing between texts.
#[derive(Clone, Copy, Drop, PartialEq, Eq)]
pub enum Gaps {
    /// The texts are refused.
    Refuse,
    /// They are counted.
    Count,
}

/// The counts of several texts with headers.
#[derive(Drop)]
pub struct Joined {
    /// The header of them all, from the first seed or line to the last.
    pub header: Header,
    /// How many of these no text has.
    pub missing: u64,
    /// The ledger of all codes. Of trials the place of the first violation is counted from the first seed.
    pub ledger: Ledger,
}

/// The number after the last seed or line.
fn end_of(section: &Section<'_>) -> u128
    ensures { result ≡ end_of section.now }
{
    let header = section.header();
    u128::from(header.first) + u128::from(header.count)
}

/// How many seeds or lines are missing between a section and the next one.
fn between(one: &Section<'_>, next: &Section<'_>, gaps: Gaps) -> Result<u64, MergeError>
    requires { one.now.header.first ≤ next.now.header.first }
    ensures ok { IfOk result (λ n. Follows gaps one.now next.now × (end_of one.now + n ≡ next.now.header.first)) }
    ensures err { IfErr result (IsSeam one.now next.now) }
{
    one.sound();
    next.sound();
    let kind = kind_of(&one.header().counted);
    let end = end_of(one);
    let first = next.header().first;
    let begin = u128::from(first);
    if begin < end {
        let last = end.min(end_of(next)) - 1;
        return Err(MergeError::Overlap(Seam {
            from: first,
            to: last.min(u128::from(u64::MAX)) as u64,
            file: one.file(),
            other: next.file(),
            kind,
        }));
    }
    if begin > end && gaps == Gaps::Refuse {
        return Err(MergeError::Gap(Seam {
            from: end as u64,
            to: first - 1,
            file: one.file(),
            other: next.file(),
            kind,
        }));
    }
    Ok((begin - end) as u64)
}

/// How many seeds or lines are missing between sections, which are in order.
fn missing(order: &[Section<'_>], gaps: Gaps) -> Result<u64, MergeError>
    requires sorted { IsSortedByKey (λ s. s.header.first) nat_cmp order.now }
    requires some { 0 < length order.now }
    ensures ok { IfOk result (IsMissing gaps order.now) }
    ensures err { IfErr result (HasSeam order.now) }
{
    let mut missing: u64 = 0;
    for i in 1..order.len() {
        let next = &order[i];
        next.sound();
        match between(&order[i - 1], next, gaps) {
            Ok(more) => missing += more,
            Err(error) => return Err(error),
        }
    }
    Ok(missing)
}

/// The header of sections, which are in order; none where they have 2^64 seeds or lines or more.
fn header_of(order: &[Section<'_>]) -> Option<Header>
    requires some { 0 < length order.now }
    requires ascends { FirstIsLeast order.now }
    requires alike { AreAlike order.now }
    ensures { MatchOption result (AreTooLong order.now) (IsHeaderOf order.now) }
{
    let first = order[0].header();
    let span = end_of(&order[order.len() - 1]) - u128::from(first.first);
    if span > u128::from(u64::MAX) {
        return None;
    }
    Some(Header {
        counted: first.counted,
        first: first.first,
        count: span as u64,
    })
}

/// The texts of sections.
fn texts<'a>(alloc: Global, order: &[Section<'a>]) -> Result<Vec<&'a [u8]>, OutOfMemory>
    ensures { IfOk result (λ v. map (λ t. t.now) v.items ≡ map (λ s. s.text) order.now) }
{
    let mut texts = Vec::new(alloc);
    for section in order {
        texts.push(section.text())?;
    }
    Ok(texts)
}

/// The first violation that a section tells, counted from the first seed of all.
fn place_from(base: u64, section: &Section<'_>) -> Option<usize>
    requires after { base ≤ section.now.header.first }
    requires within { end_of section.now < base + 2 ^ 64 }
    ensures { result ≡ place_from base section.now }
{
    section.sound();
    let place = section.violation()?;
    Some((section.header().first - base) as usize + place)
}

/// That of the first section that tells one.
fn first_from(base: u64, order: &[Section<'_>]) -> Option<usize>
    requires { AreWithin base order.now }
    ensures { result ≡ first_from base order.now }
{
    for section in order {
        if let Some(place) = place_from(base, section) {
            return Some(place);
        }
    }
    None
}

/// Tells of trials the first violation by its seed, where some are missing.
fn tell(ledger: &mut Ledger, missing: u64, header: &Header, order: &[Section<'_>])
    requires { AreWithin header.now.first order.now }
    ensures { ledger.new ≡ told missing header.now order.now ledger.old }
{
    if missing == 0 {
        return;
    }
    if let Counted::Campaign(_) = header.counted {
        ledger.first = first_from(header.first, order);
    }
}

/// A refusal of the texts of sections as one of their files.
fn error_in_order(error: MergeError, order: &[Section<'_>], files: &[Vec<u8>]) -> MergeError
    requires { IsMergingError (map (λ s. s.text) order.now) error }
    ensures { IsNoOrderedJoin order.now result }
{
    match error {
        MergeError::Refused {
            refusal,
            file,
            line,
        } => {
            let Some(section) = order.get(file) else {
                return error;
            };
            let Some(bytes) = files.get(section.file()) else {
                return error;
            };
            MergeError::Refused {
                refusal,
                file: section.file(),
                line: line_at(bytes.as_slice(), section.bytes_left()).saturating_add(line),
            }
        }
        other => other,
    }
}

/// The sections as one, which are in order.
fn join_ordered(
    alloc: Global,
    order: &[Section<'_>],
    files: &[Vec<u8>],
    gaps: Gaps,
) -> Result<Joined, MergeError>
    requires sorted { IsSortedByKey (λ s. s.header.first) nat_cmp order.now }
    requires some { 0 < length order.now }
    requires alike { AreAlike order.now }
    ensures ok { IfOk result (IsJoinedOrder gaps order.now) }
    ensures err { IfErr result (IsNoOrderedJoin order.now) }
{
    let missing = match missing(order, gaps) {
        Ok(missing) => missing,
        Err(error) => return Err(error),
    };
    let Some(header) = header_of(order) else {
        return Err(MergeError::Refused {
            refusal: MergeRefusal::TooMany,
            file: order[0].file(),
            line: 1,
        });
    };
    let texts = texts(alloc, order)?;
    let mut merged = match merge_texts(alloc, &texts) {
        Ok(merged) => merged,
        Err(error) => return Err(error_in_order(error, order, files)),
    };
    tell(&mut merged.ledger, missing, &header, order);
    Ok(Joined {
        header,
        missing,
        ledger: merged.ledger,
    })
}

/// The counts of all texts of these files, of which each has one or more, all with headers of the same, and whose seeds
/// or lines follow each other; or the first refusal, in the order in which they are read, or else in that of the seeds.
pub fn join(alloc: Global, files: &[Vec<u8>], gaps: Gaps) -> Result<Joined, MergeError>
    requires { 0 < length files.now }
    ensures ok { IfOk result (AreJoined gaps (map (λ v. v.items) files.now)) }
    ensures err { IfErr result (IsNoJoin (map (λ v. v.items) files.now)) }
{
    let mut order = match sections(alloc, files) {
        Ok(order) => order,
        Err(error) => return Err(error),
    };
    let Ok(()) = order.sort_by_key(
        |section: &Section<'_>| -> u64
            ensures { result ≡ section.now.header.first }
        { section.header().first },
    ) else {
        return Err(MergeError::OutOfMemory);
    };
    join_ordered(alloc, order.as_slice(), files, gaps)
}
