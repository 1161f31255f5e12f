//! Workers that claim trials one after another.

ghost use Rattle.std.specs.Prelude.{◌≡◌, ◌<◌, ◌≤◌, Contains};
ghost use Rattle.trials.specs.Looking.{SitsAt};

use crate::filed::Filed;
use crate::one_trial::trial;
use crate::seat::{Desk, DeskSeat};
use common::Gate;
use program::Campaign;
use std::alloc::Global;
use std::sync::Wait;
use std::thread;
use std::thread::{Scope, Threads};

/// Tells the gate of a violation.
fn report_violation<G: Gate>(gate: &G, worker: usize, filed: &Filed) {
    if filed.is_violation() {
        gate.found(worker, filed.trial());
    }
}

/// Claims a trial, and files it where the word was open and there is memory. The gate hears of the claim, of
/// a violation, and last of the filing.
pub fn try_one<G: Gate>(
    alloc: Global,
    campaign: &Campaign,
    desk: &Desk,
    seat: &mut DeskSeat,
    gate: &G,
    worker: usize,
    k: usize,
)
    requires seat { SitsAt desk.now campaign.now seat.old }
    requires trial { k < campaign.now.trials }
    ensures seat { SitsAt desk.now campaign.now seat.new }
    ensures later { Contains seat.new.seat.me.0.seen k }
{
    if desk.claim(seat, k) {
        gate.begin(worker, k);
        if let Ok(filed) = trial(alloc, campaign, k) {
            desk.file(seat, &filed);
            report_violation(gate, worker, &filed);
            gate.done(worker, k);
        }
    }
}

/// The trial at which a worker begins: the first of its share, where this many workers share the trials out.
fn first_of(trials: usize, worker: usize, workers: usize) -> usize
    requires { 1 ≤ workers }
    ensures { result ≤ trials }
{
    (trials / workers).saturating_mul(worker).min(trials)
}

/// Takes the trials from the first one on in ascending order, and then those before it, one claim at a time, with a
/// seat of its own, which it gives back.
fn work<G: Gate>(
    alloc: Global,
    campaign: &Campaign,
    desk: &Desk,
    mut seat: DeskSeat,
    gate: &G,
    worker: usize,
    first: usize,
) -> DeskSeat
    requires seat { SitsAt desk.now campaign.now seat }
    requires first { first ≤ campaign.now.trials }
    ensures { SitsAt desk.now campaign.now result }
{
    for k in first..campaign.trials() {
        try_one(alloc, campaign, desk, &mut seat, gate, worker, k);
    }
    for earlier in 0..first {
        try_one(alloc, campaign, desk, &mut seat, gate, worker, earlier);
    }
    seat
}

/// Starts a worker. One without a seat or a thread is left out.
fn start<'s, E, G: Gate>(
    scope: &Scope<'s, E>,
    alloc: Global,
    campaign: &'s Campaign,
    desk: &'s Desk,
    seat: &mut DeskSeat,
    gate: &'s G,
    worker: usize,
    first: usize,
)
    requires seat { SitsAt desk.now campaign.now seat.old }
    requires first { first ≤ campaign.now.trials }
    ensures seat { SitsAt desk.now campaign.now seat.new }
{
    let Ok(other) = seat.split() else {
        return;
    };
    let there = move || -> DeskSeat
        requires { SitsAt desk.now campaign.now other × (first ≤ campaign.now.trials) }
    { work(alloc, campaign, desk, other, gate, worker, first) };
    let _ = scope.spawn(there);
}

/// Starts the workers but the first.
fn start_all<'s, E, G: Gate>(
    scope: &Scope<'s, E>,
    alloc: Global,
    campaign: &'s Campaign,
    desk: &'s Desk,
    seat: &mut DeskSeat,
    gate: &'s G,
    workers: usize,
)
    requires seat { SitsAt desk.now campaign.now seat.old }
    ensures seat { SitsAt desk.now campaign.now seat.new }
{
    for worker in 1..workers {
        let first = first_of(campaign.trials(), worker, workers);
        start(scope, alloc, campaign, desk, seat, gate, worker, first);
    }
}

/// Has the trials taken by this many workers, of which the calling thread is worker 0.
pub(crate) fn work_all<R: Threads + Wait + Sync, G: Gate>(
    rt: &R,
    alloc: Global,
    campaign: &Campaign,
    desk: &Desk,
    seat: DeskSeat,
    workers: usize,
    gate: &G,
) -> DeskSeat
    requires seat { SitsAt desk.now campaign.now seat }
    ensures { SitsAt desk.now campaign.now result }
{
    thread::scope(
        thread::scope_env(),
        rt,
        |scope| -> DeskSeat
            requires { SitsAt desk.now campaign.now seat }
            ensures { SitsAt desk.entry.now campaign.entry.now result }
        {
            let mut mine = seat;
            start_all(scope, alloc, campaign, desk, &mut mine, gate, workers);
            work(alloc, campaign, desk, mine, gate, 0, 0)
        },
    )
}
