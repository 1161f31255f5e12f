//! The bound that workers share.

ghost use Rattle.std.specs.Prelude.{◌≡◌, ◌≤◌, true, ◌∷◌, [], IfSome, length};
ghost use Rattle.relations.specs.Relation.{Related};
ghost use Rattle.relations.specs.Cycle.{IsCycle};
ghost use Rattle.best.specs.Seats.{IsBestSeatOf, known_of};
ghost use Rattle.search.specs.SourceRow.{AreShared};
ghost use Rattle.search.specs.Bound.{IsSeatFor};

use crate::recordings::{THREE_AND_FOUR, relation_of};
use best::{Best, BestSeat};
use relations::Relation;
use search::{SourceJob, jobs, row_under};
use std::alloc::Global;
use std::sync::{Arc, Wait};
use std::test::Fail;
use std::thread;
use std::thread::{Scope, Threads};

/// Whether a relation has seven events, and both cycles.
fn has_two_cycles(relation: &Relation) -> bool
    ensures events { result ≡ true → 7 ≤ length relation.now }
    ensures first { result ≡ true → IsCycle (Related relation.now) (0 ∷ 1 ∷ 2 ∷ 3 ∷ []) }
    ensures second { result ≡ true → IsCycle (Related relation.now) (4 ∷ 5 ∷ 6 ∷ []) }
{
    relation.len() == 7
        && (relation.forced(0, 1) && relation.forced(1, 2) && relation.forced(2, 3))
        && relation.forced(3, 0)
        && (relation.forced(4, 5) && relation.forced(5, 6) && relation.forced(6, 4))
}

/// Starts a thread that lowers the bound to the second cycle.
fn start<'s, E>(scope: &Scope<'s, E>, best: &'s Best, seat: BestSeat, relation: &'s Relation)
    requires seat { IsBestSeatOf best.now seat }
    requires relation { relation.now ≡ (known_of seat).relation }
    requires cycle { IsCycle (Related relation.now) (4 ∷ 5 ∷ 6 ∷ []) }
    requires events { 3 ≤ length relation.now }
{
    let mut seat = seat;
    let there = move ||
        requires seat { IsBestSeatOf best.now seat }
        requires relation { relation.now ≡ (known_of seat).relation }
        requires cycle { IsCycle (Related relation.now) (4 ∷ 5 ∷ 6 ∷ []) }
        requires events { 3 ≤ length relation.now }
    { best.lower(&mut seat, relation, &[4, 5, 6]) };
    let _ = scope.spawn(there);
}

/// Lowers the bound to the second cycle in a thread, which has ended when this returns.
fn lower_in_a_thread(
    rt: &(impl Threads + Wait + Sync),
    best: &Best,
    seat: BestSeat,
    relation: &Relation,
)
    requires seat { IsBestSeatOf best.now seat }
    requires relation { relation.now ≡ (known_of seat).relation }
    requires cycle { IsCycle (Related relation.now) (4 ∷ 5 ∷ 6 ∷ []) }
    requires events { 3 ≤ length relation.now }
{
    thread::scope(
        thread::scope_env(),
        rt,
        |scope|
            requires seat { IsBestSeatOf best.now seat }
            requires relation { relation.now ≡ (known_of seat).relation }
            requires cycle { IsCycle (Related relation.now) (4 ∷ 5 ∷ 6 ∷ []) }
            requires events { 3 ≤ length relation.now }
        { start(scope, best, seat, relation) },
    )
}

/// Whether a seat reads none, its own length, a shorter one that another seat found in a thread that has ended, and
/// this one beside its own again.
fn read_the_least(rt: &(impl Threads + Wait + Sync), alloc: Global, relation: &Relation) -> bool
    requires events { 7 ≤ length relation.now }
    requires first { IsCycle (Related relation.now) (0 ∷ 1 ∷ 2 ∷ 3 ∷ []) }
    requires second { IsCycle (Related relation.now) (4 ∷ 5 ∷ 6 ∷ []) }
{
    let Ok((best, mut a)) = Best::open(alloc, relation) else {
        return false;
    };
    let none = best.read(&mut a);
    best.lower(&mut a, relation, &[0, 1, 2, 3]);
    let own = best.read(&mut a);
    let Ok(b) = a.split() else {
        return false;
    };
    lower_in_a_thread(rt, &best, b, relation);
    let of_another = best.read(&mut a);
    best.lower(&mut a, relation, &[0, 1, 2, 3]);
    [none, own, of_another, best.read(&mut a)] == [None, Some(4), Some(3), Some(3)]
}

/// Whether seats of a bound for two cycles read the least length.
fn are_read(rt: &(impl Threads + Wait + Sync), alloc: Global) -> bool {
    let Some(relation) = relation_of(alloc, THREE_AND_FOUR) else {
        return false;
    };
    has_two_cycles(&relation) && read_the_least(rt, alloc, &relation)
}

#[test]
fn seats_read_the_least_length(rt: HostRuntime) -> Result<(), Fail> {
    assert!(rt; are_read(&rt, rt.alloc()));
    Ok(())
}

/// A job for each event of a relation, and a bound for them with its first seat.
pub fn jobs_with_bound(
    alloc: Global,
    relation: Relation,
) -> Option<(Vec<SourceJob>, Best, BestSeat)>
    ensures seat { IfSome result (λ r. IsBestSeatOf r.1 r.2) }
    ensures jobs { IfSome result (λ r. AreShared (known_of r.2).relation r.0.items) }
{
    let Ok((best, seat)) = Best::open(alloc, &relation) else {
        return None;
    };
    let Ok(shared) = Arc::new(alloc, relation) else {
        return None;
    };
    let Ok(jobs) = jobs(alloc, shared) else {
        return None;
    };
    Some((jobs, best, seat))
}

/// Whether the row of a job has this cap, and the seat reads the length of the shorter cycle afterwards.
fn is_cut(
    alloc: Global,
    job: &SourceJob,
    best: &Best,
    seat: &mut BestSeat,
    cap: Option<u16>,
) -> bool
    requires { IsSeatFor best.now job.now.relation seat.old }
    ensures { IsSeatFor best.now job.now.relation seat.new }
{
    let Ok(row) = row_under(alloc, job, best, seat) else {
        return false;
    };
    row.cap() == cap && best.read(seat) == Some(3)
}

/// Whether the row of an event of the shorter cycle is not cut, and then one of the longer cycle is cut at 3.
fn are_cut(alloc: Global, jobs: &[SourceJob], best: &Best, seat: &mut BestSeat) -> bool
    requires seat { IsBestSeatOf best.now seat.old }
    requires jobs { AreShared (known_of seat.old).relation jobs.now }
{
    if jobs.len() != 7 {
        return false;
    }
    is_cut(alloc, &jobs[4], best, seat, None) && is_cut(alloc, &jobs[0], best, seat, Some(3))
}

/// Whether rows are cut at what was found before.
fn are_cut_at_what_was_found(alloc: Global) -> bool {
    let Some(relation) = relation_of(alloc, THREE_AND_FOUR) else {
        return false;
    };
    let Some((jobs, best, mut seat)) = jobs_with_bound(alloc, relation) else {
        return false;
    };
    are_cut(alloc, jobs.as_slice(), &best, &mut seat)
}

#[test]
fn a_row_is_cut_at_what_another_found(rt: HostRuntime) -> Result<(), Fail> {
    assert!(rt; are_cut_at_what_was_found(rt.alloc()));
    Ok(())
}
