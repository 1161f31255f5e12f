//! Recordings of trials that are judged both ways.

ghost use Rattle.std.specs.Prelude.{◌<◌};

use crate::campaigns::campaign;
use common::{MAX_EVENTS, OutOfMemory};
use judge::{Verdict, judge_alone};
use long::{LongAnswer, judge_long};
use program::Fault;
use recording::Recording;
use std::alloc::Global;
use std::test::Fail;
use trials::{Campaign, reproduce};

/// How many trials ended in each way.
#[derive(Clone, Copy, Drop)]
struct Ends {
    orders: u64,
    overlooks: u64,
    cycles: u64,
    others: u64,
}

/// Whether the long road answers what the short one does: the same order or overlook, or a cycle that is no shorter.
fn agrees(short: &Verdict, long: &LongAnswer) -> bool {
    match (short, long) {
        (Verdict::Ordered(order), LongAnswer::Order(found)) => order.as_slice() == found.as_slice(),
        (Verdict::Overlook { load, store }, LongAnswer::Overlook(read, write)) => {
            load == read && store == write
        }
        (Verdict::Cycle(certificate), LongAnswer::Cycle(found)) => {
            certificate.cycle.len() <= found.len()
        }
        _ => false,
    }
}

/// How a recording ends, judged both ways.
fn judged_twice(alloc: Global, recording: &Recording, mut ends: Ends) -> Result<Ends, OutOfMemory> {
    if recording.len() > MAX_EVENTS {
        ends.others = ends.others.wrapping_add(1);
        return Ok(ends);
    }
    let short = judge_alone(alloc, recording)?;
    let long = judge_long(alloc, recording)?.answer;
    if !agrees(&short, &long) {
        ends.others = ends.others.wrapping_add(1);
        return Ok(ends);
    }
    match long {
        LongAnswer::Order(_) => ends.orders = ends.orders.wrapping_add(1),
        LongAnswer::Overlook(_, _) => ends.overlooks = ends.overlooks.wrapping_add(1),
        LongAnswer::Cycle(_) => ends.cycles = ends.cycles.wrapping_add(1),
    }
    Ok(ends)
}

/// How trial k ends, judged both ways.
fn tried_twice(alloc: Global, plan: &Campaign, k: usize, ends: Ends) -> Result<Ends, OutOfMemory>
    requires { k < plan.now.trials }
{
    let (program, recording) = reproduce(alloc, plan, k)?;
    drop(program);
    match recording {
        Some(recording) => judged_twice(alloc, &recording, ends),
        None => Ok(ends),
    }
}

/// The faults under which recordings are judged both ways, and how many trials of each there are.
const PLANS: &[(Fault, usize)] = &[
    (Fault::None, 10_000),
    (Fault::NoBypass, 10_000),
    (Fault::YoungestFirst, 20_000),
    (Fault::OpenFence, 20_000),
    (Fault::StaleShare, 20_000),
    (Fault::EarlyRmw, 20_000),
];

#[test]
fn a_hundred_thousand_recordings_are_judged_both_ways(rt: HostRuntime) -> Result<(), Fail> {
    let mut ends = Ends {
        orders: 0,
        overlooks: 0,
        cycles: 0,
        others: 0,
    };
    for (fault, trials) in PLANS {
        let plan = campaign((3, 6, 2), *trials, 100_000, *fault)?;
        for k in 0..plan.trials() {
            ends = tried_twice(rt.alloc(), &plan, k, ends)?;
        }
    }
    let judged = ends
        .orders
        .wrapping_add(ends.overlooks)
        .wrapping_add(ends.cycles);
    assert!(rt; ends.others == 0);
    assert!(rt; judged == 100_000);
    assert!(rt; ends.orders > 10_000);
    assert!(rt; ends.overlooks > 1_000);
    assert!(rt; ends.cycles > 1_000);
    Ok(())
}
