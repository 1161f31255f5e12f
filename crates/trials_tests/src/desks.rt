//! Two seats at a desk.

ghost use Rattle.std.specs.Prelude.{◌≡◌, ◌<◌, IfOk, OnOk};
ghost use Rattle.trials.specs.LegalDesk.{first_view, with_others};
ghost use Rattle.trials.specs.Campaigns.{Plan};
ghost use Rattle.trials.specs.Looking.{IsDeskSeatOf};

use crate::campaigns::campaign;
use common::{Gate, OpenGate};
use program::Fault;
use std::alloc::Global;
use std::sync::Wait;
use std::sync::atomic::{AtomicBool, Ordering};
use std::test::Fail;
use std::thread;
use std::thread::{Scope, Threads};
use trials::{Campaign, Desk, DeskSeat, Filed, Look, trial, try_one};

/// The campaign of three trials.
fn three_trials() -> Result<Campaign, Fail>
    ensures { IfOk result (λ short. short.trials ≡ 3) }
{
    let short = campaign((2, 1, 1), 3, 1, Fault::None)?;
    if short.trials() != 3 {
        return Err("three trials")?;
    }
    Ok(short)
}

/// Its first trial.
fn first_trial(alloc: Global, short: &Campaign) -> Result<Filed, Fail>
    requires { short.now.trials ≡ 3 }
    ensures { IfOk result (λ filed. (filed.campaign ≡ short.now) × (filed.trial ≡ 0)) }
{
    match trial(alloc, short, 0) {
        Ok(filed) => Ok(filed),
        Err(_) => Err("memory")?,
    }
}

/// A desk, and a seat.
fn desk_of(alloc: Global, short: &Campaign) -> Result<(Desk, DeskSeat), Fail>
    ensures { IfOk result (λ r. IsDeskSeatOf r.0 r.1 × (r.1.seat.me.0 ≡ first_view short.now)) }
{
    match Desk::open(alloc, short) {
        Ok(opened) => Ok(opened),
        Err(_) => Err("memory")?,
    }
}

/// A second seat beside one that has claimed and seen nothing, and neither has it.
fn beside(first: &mut DeskSeat) -> Result<DeskSeat, Fail>
    requires { (plan : Plan) × (first.old.seat.me.0 ≡ first_view plan) }
    ensures same { first.new.seat.table_id ≡ first.old.seat.table_id }
    ensures old { OnOk result (first.new.seat.me.0 ≡ with_others first.old.seat.me.0) }
    ensures new { IfOk result (λ second. (second.seat.table_id ≡ first.old.seat.table_id)
        × (second.seat.me.0 ≡ with_others first.old.seat.me.0)) }
{
    match first.split() {
        Ok(second) => Ok(second),
        Err(_) => Err("memory")?,
    }
}

/// Whether a seat claims a trial.
fn claims(desk: &Desk, seat: &mut DeskSeat, k: usize) -> bool
    requires seat { IsDeskSeatOf desk.now seat.old }
    requires trial { k < seat.old.seat.me.0.campaign.trials }
    ensures seat { IsDeskSeatOf desk.now seat.new }
    ensures campaign { seat.new.seat.me.0.campaign ≡ seat.old.seat.me.0.campaign }
{
    // Either answer tells what the seat has seen.
    if desk.claim(seat, k) {
        return true;
    }
    false
}

/// What a seat sees of a trial.
fn sees(desk: &Desk, seat: &mut DeskSeat, k: usize) -> Look
    requires seat { IsDeskSeatOf desk.now seat.old }
    requires trial { k < seat.old.seat.me.0.campaign.trials }
    ensures seat { IsDeskSeatOf desk.now seat.new }
    ensures campaign { seat.new.seat.me.0.campaign ≡ seat.old.seat.me.0.campaign }
{
    // Each answer tells what the seat has seen.
    match desk.look(seat, k) {
        Look::Open => Look::Open,
        Look::Claimed => Look::Claimed,
        Look::Filed(code) => Look::Filed(code),
    }
}

/// Claims trial 0, which the second seat then does not, and files it; false where a claim is another.
fn files(desk: &Desk, first: &mut DeskSeat, second: &mut DeskSeat, filed: &Filed) -> bool
    requires seats { IsDeskSeatOf desk.now first.old × IsDeskSeatOf desk.now second.old }
    requires first { first.old.seat.me.0 ≡ with_others (first_view filed.now.campaign) }
    requires second { second.old.seat.me.0.campaign ≡ filed.now.campaign }
    requires trial { (filed.now.trial ≡ 0) × (filed.now.campaign.trials ≡ 3) }
    ensures seats { IsDeskSeatOf desk.now first.new × IsDeskSeatOf desk.now second.new }
    ensures first { first.new.seat.me.0.campaign ≡ filed.now.campaign }
    ensures second { second.new.seat.me.0.campaign ≡ filed.now.campaign }
{
    if !desk.claim(first, 0) {
        return false;
    }
    if claims(desk, second, 0) {
        return false;
    }
    desk.file(first, filed);
    true
}

/// Whether both seats see trial 0 filed, and the second claims trial 1 and sees it claimed.
fn both_see(desk: &Desk, first: &mut DeskSeat, second: &mut DeskSeat) -> bool
    requires first { IsDeskSeatOf desk.now first.old × (first.old.seat.me.0.campaign.trials ≡ 3) }
    requires second { IsDeskSeatOf desk.now second.old × (second.old.seat.me.0.campaign.trials ≡ 3) }
    ensures first { IsDeskSeatOf desk.now first.new × (first.new.seat.me.0.campaign.trials ≡ 3) }
    ensures second { IsDeskSeatOf desk.now second.new }
{
    let by_first = sees(desk, first, 0);
    let by_second = sees(desk, second, 0);
    let claimed = claims(desk, second, 1);
    let then = sees(desk, second, 1);
    by_first == Look::Filed(2) && by_second == Look::Filed(2) && claimed && then == Look::Claimed
}

/// Whether a seat sees trial 0 filed and trial 1 claimed.
fn sees_two(desk: &Desk, both: &mut DeskSeat) -> bool
    requires { IsDeskSeatOf desk.now both.old × (both.old.seat.me.0.campaign.trials ≡ 3) }
    ensures { IsDeskSeatOf desk.now both.new }
{
    let zeroth = sees(desk, both, 0);
    let next = sees(desk, both, 1);
    zeroth == Look::Filed(2) && next == Look::Claimed
}

/// Whether the words of a desk are these.
fn has_words(alloc: Global, desk: Desk, seat: DeskSeat, wanted: &[u64]) -> Result<bool, Fail>
    requires { IsDeskSeatOf desk seat }
{
    match desk.close(alloc, seat) {
        Ok(words) => Ok(words.as_slice() == wanted),
        Err(_) => Err("memory")?,
    }
}

/// Whether one seat sees what two have done, and the words of the desk tell it.
fn is_left(alloc: Global, desk: Desk, first: DeskSeat, second: DeskSeat) -> Result<bool, Fail>
    requires first { IsDeskSeatOf desk first × (first.seat.me.0.campaign.trials ≡ 3) }
    requires second { IsDeskSeatOf desk second }
{
    let mut both = first.merge(second);
    let seen = sees_two(&desk, &mut both);
    Ok(has_words(alloc, desk, both, &[2, 1, 0])? && seen)
}

/// Whether what the first seat files is seen by each seat.
fn is_seen(alloc: Global, short: &Campaign, filed: &Filed) -> Result<bool, Fail>
    requires campaign { (filed.now.campaign ≡ short.now) × (short.now.trials ≡ 3) }
    requires trial { filed.now.trial ≡ 0 }
{
    let (desk, mut first) = desk_of(alloc, short)?;
    let mut second = beside(&mut first)?;
    let done = files(&desk, &mut first, &mut second, filed);
    let seen = both_see(&desk, &mut first, &mut second);
    Ok(is_left(alloc, desk, first, second)? && done && seen)
}

#[test]
fn what_a_seat_files_another_sees(rt: HostRuntime) -> Result<(), Fail> {
    let short = three_trials()?;
    let filed = first_trial(rt.alloc(), &short)?;
    assert!(rt; is_seen(rt.alloc(), &short, &filed)?);
    Ok(())
}

/// Starts a thread that claims and files trial 0.
fn start<'s, E, G: Gate>(
    scope: &Scope<'s, E>,
    alloc: Global,
    short: &'s Campaign,
    desk: &'s Desk,
    seat: DeskSeat,
    gate: &'s G,
)
    requires seat { IsDeskSeatOf desk.now seat }
    requires campaign { (seat.seat.me.0.campaign ≡ short.now) × (short.now.trials ≡ 3) }
{
    let mut seat = seat;
    let there = move ||
        requires seat { IsDeskSeatOf desk.now seat }
        requires campaign { (seat.seat.me.0.campaign ≡ short.now) × (short.now.trials ≡ 3) }
    { try_one(alloc, short, desk, &mut seat, gate, 0, 0) };
    let _ = scope.spawn(there);
}

/// Claims and files trial 0 in a thread, which has ended when this returns.
fn file_in_a_thread(
    rt: &(impl Threads + Wait + Sync),
    alloc: Global,
    short: &Campaign,
    desk: &Desk,
    seat: DeskSeat,
)
    requires seat { IsDeskSeatOf desk.now seat }
    requires campaign { (seat.seat.me.0.campaign ≡ short.now) × (short.now.trials ≡ 3) }
{
    thread::scope(
        thread::scope_env(),
        rt,
        |scope|
            requires seat { IsDeskSeatOf desk.now seat }
            requires campaign { (seat.seat.me.0.campaign ≡ short.now) × (short.now.trials ≡ 3) }
        { start(scope, alloc, short, desk, seat, &OpenGate) },
    )
}

/// What a seat sees of trial 0, which another has filed in a thread that has ended.
fn seen_after(
    rt: &(impl Threads + Wait + Sync),
    alloc: Global,
    short: &Campaign,
) -> Result<Look, Fail>
    requires { short.now.trials ≡ 3 }
{
    let (desk, mut first) = desk_of(alloc, short)?;
    let mut second = beside(&mut first)?;
    file_in_a_thread(rt, alloc, short, &desk, first);
    Ok(sees(&desk, &mut second, 0))
}

#[test]
fn a_seat_sees_what_an_ended_thread_filed(rt: HostRuntime) -> Result<(), Fail> {
    let short = three_trials()?;
    assert!(rt; seen_after(&rt, rt.alloc(), &short)? == Look::Filed(2));
    Ok(())
}

/// The end of a trial, which is held until another seat has looked.
#[derive(Drop)]
struct Ending {
    done: AtomicBool,
    looked: AtomicBool,
}

/// Waits for a flag, for this many turns at most.
fn wait_for(flag: &AtomicBool) {
    for _ in 0..100_000_000 {
        if flag.load(Ordering::SeqCst) {
            break;
        }
        thread::yield_now();
    }
}

impl Gate for Ending {
    fn begin(&self, _worker: usize, _trial: usize) {}

    fn done(&self, _worker: usize, _trial: usize) {
        self.done.store(true, Ordering::SeqCst);
        wait_for(&self.looked);
    }
}

/// What a seat sees of trial 0, while the end of it in another thread is held.
fn seen_while_held(
    rt: &(impl Threads + Wait + Sync),
    alloc: Global,
    short: &Campaign,
    desk: &Desk,
    first: DeskSeat,
    second: DeskSeat,
    gate: &Ending,
) -> Look
    requires seats { IsDeskSeatOf desk.now first × IsDeskSeatOf desk.now second }
    requires first { first.seat.me.0.campaign ≡ short.now }
    requires second { second.seat.me.0.campaign ≡ short.now }
    requires trials { short.now.trials ≡ 3 }
{
    thread::scope(
        thread::scope_env(),
        rt,
        |scope| -> Look
            requires seats { IsDeskSeatOf desk.now first × IsDeskSeatOf desk.now second }
            requires first { first.seat.me.0.campaign ≡ short.now }
            requires second { second.seat.me.0.campaign ≡ short.now }
            requires trials { short.now.trials ≡ 3 }
        {
            let mut second = second;
            start(scope, alloc, short, desk, first, gate);
            wait_for(&gate.done);
            let seen = sees(desk, &mut second, 0);
            gate.looked.store(true, Ordering::SeqCst);
            seen
        },
    )
}

/// What another seat sees of a trial of which the gate is told that it is done.
fn seen_when_done(
    rt: &(impl Threads + Wait + Sync),
    alloc: Global,
    short: &Campaign,
) -> Result<Look, Fail>
    requires { short.now.trials ≡ 3 }
{
    let gate = Ending {
        done: AtomicBool::new(false),
        looked: AtomicBool::new(false),
    };
    let (desk, mut first) = desk_of(alloc, short)?;
    let second = beside(&mut first)?;
    Ok(seen_while_held(rt, alloc, short, &desk, first, second, &gate))
}

#[test]
fn a_trial_is_filed_before_it_is_done(rt: HostRuntime) -> Result<(), Fail> {
    let short = three_trials()?;
    assert!(rt; seen_when_done(&rt, rt.alloc(), &short)? == Look::Filed(2));
    Ok(())
}
