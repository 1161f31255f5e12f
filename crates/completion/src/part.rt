//! Parts of values that TSO does not allow, of which each event is needed.

ghost use Rattle.std.specs.Prelude.{◌≡◌, ◌≢◌, ◌+◌, ◌<◌, ◌≤◌, IfOk, IsTrue, MatchOption, false, length};
ghost use Rattle.common.specs.declared.limits.TheConstants.{MAX_EVENTS};
ghost use Rattle.completion.specs.Left.{AreTried, HasNoPart, IsGivenUp, IsLeft, IsRefuted, IsTried};
ghost use Rattle.completion.specs.Pairs.{IsTable};
ghost use Rattle.completion.specs.Part.{IsPart};

use crate::completing::{Answer, complete};
use crate::left::{Left, left_of};
use crate::runs::{all_events, without_event, without_run};
use crate::table::{Placed, table};
use bitrow::BitRow;
use common::{EventId, MAX_EVENTS, OutOfMemory};
use std::alloc::Global;
use values::Values;

/// How many situations are looked at where a run of events is taken away.
const RUN_LIMIT: usize = 1_000;

/// How many tries with all events taking runs away may cost. A try with fewer events costs less.
const RUN_TRIES: usize = 32;

/// The most events of which a part is looked for one by one: where more are left after the first tries, none is.
pub const MOST_LEFT: usize = 64;

/// Some events of values, and the values with these alone.
#[derive(Drop)]
pub struct Part {
    /// The numbers of the events, ascending.
    pub events: Vec<EventId>,
    /// The values with these events alone.
    pub values: Values,
}

/// What came of trying some events alone.
#[derive(Drop)]
pub enum Tried {
    /// TSO allows their values.
    Allowed,
    /// TSO does not allow their values, which are these.
    Less(Left),
    /// That is not known.
    Unknown,
}

/// Tries the events of a row alone.
fn try_row(
    alloc: Global,
    values: &Values,
    table: &[Placed],
    row: BitRow,
    limit: usize,
) -> Result<Tried, OutOfMemory>
    requires table { IsTable values.now table.now }
    requires row { length row ≡ length table.now }
    requires few { length table.now ≤ MAX_EVENTS }
    ensures { IfOk result (IsTried values.now row limit) }
{
    let left = left_of(alloc, values, table, row)?;
    match complete(alloc, &left.values, limit)? {
        Answer::Completed(_recording, _order) => Ok(Tried::Allowed),
        Answer::Impossible(_) => Ok(Tried::Less(left)),
        Answer::Unfinished => Ok(Tried::Unknown),
    }
}

/// Whether TSO allows the values that were tried.
fn is_allowed(tried: &Tried) -> bool
    ensures holds { IsTrue result → tried.now ≡ Tried.Allowed }
    ensures fails { result ≡ false → tried.now ≢ Tried.Allowed }
{
    match tried {
        Tried::Allowed => true,
        Tried::Less(_left) => false,
        Tried::Unknown => false,
    }
}

/// Tries to take each event away, the first ones first, until one is not needed.
fn try_each(
    alloc: Global,
    values: &Values,
    table: &[Placed],
    left: &Left,
    limit: usize,
) -> Result<Tried, OutOfMemory>
    requires table { IsTable values.now table.now }
    requires few { length table.now ≤ MAX_EVENTS }
    requires left { IsLeft values.now left.now }
    ensures { IfOk result (AreTried values.now left.now (length table.now) limit) }
{
    for e in 0..table.len() {
        if left.row.test(e) {
            let row = without_event(alloc, table.len(), &left.row, e)?;
            let tried = try_row(alloc, values, table, row, limit)?;
            if !is_allowed(&tried) {
                return Ok(tried);
            }
        }
    }
    Ok(Tried::Allowed)
}

/// Takes runs of events away as long as TSO does not allow the rest, until the tries cost too much.
fn cut(
    alloc: Global,
    values: &Values,
    table: &[Placed],
    left: Left,
    limit: usize,
) -> Result<Left, OutOfMemory>
    requires table { IsTable values.now table.now }
    requires few { length table.now ≤ MAX_EVENTS }
    requires left { IsRefuted values.now left }
    ensures { IfOk result (λ l. IsRefuted values.now l) }
{
    let mut left = left;
    let mut budget = RUN_TRIES * table.len();
    for run in 1..2 * MAX_EVENTS {
        if budget < left.events.len() {
            return Ok(left);
        }
        if let Some(row) = without_run(alloc, table.len(), &left.row, run)? {
            budget = budget.saturating_sub(left.events.len());
            if let Tried::Less(less) = try_row(alloc, values, table, row, limit)? {
                left = less;
            }
        }
    }
    Ok(left)
}

/// Takes events away one by one until each is needed; none where a search was given up.
fn minimal(
    alloc: Global,
    values: &Values,
    table: &[Placed],
    left: Left,
    limit: usize,
) -> Result<Option<Part>, OutOfMemory>
    requires table { IsTable values.now table.now }
    requires few { length table.now ≤ MAX_EVENTS }
    requires left { IsRefuted values.now left }
    ensures { IfOk result (λ o. MatchOption o (IsGivenUp values.now limit) (λ p. IsPart values.now p)) }
{
    let mut left = left;
    for taken in 0..table.len() + 1 {
        match try_each(alloc, values, table, &left, limit)? {
            Tried::Allowed => {
                let Left { events, values, .. } = left;
                return Ok(Some(Part { events, values }));
            }
            Tried::Less(less) => left = less,
            Tried::Unknown => return Ok(None),
        }
    }
    unreachable!()
}

/// A part of values that TSO does not allow, of which each event is needed: some events, fed among themselves, whose
/// values TSO does not allow, though it does allow them without any one event and without the reads that it alone could
/// feed. None only where the values break a rule or TSO allows them, where a search would look at more than `limit`
/// situations, and where it would take long: after some tries with all events, more than 64 are left. Fails only if out
/// of memory.
pub fn part_of(alloc: Global, values: &Values, limit: usize) -> Result<Option<Part>, OutOfMemory>
    ensures { IfOk result (λ o. MatchOption o (HasNoPart values.now limit) (λ p. IsPart values.now p)) }
{
    let table = table(alloc, values)?;
    if table.len() > MAX_EVENTS {
        return Ok(None);
    }
    let row = all_events(alloc, table.len())?;
    let whole = match try_row(alloc, values, &table, row, limit)? {
        Tried::Less(whole) => whole,
        Tried::Allowed => return Ok(None),
        Tried::Unknown => return Ok(None),
    };
    let left = cut(alloc, values, &table, whole, limit.min(RUN_LIMIT))?;
    if left.events.len() > MOST_LEFT {
        return Ok(None);
    }
    let found = minimal(alloc, values, &table, left, limit)?;
    Ok(found)
}
