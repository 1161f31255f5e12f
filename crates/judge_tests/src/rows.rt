//! Small recordings, and rows of bits, by hand.

use crate::recordings::{
    BYPASSING, MESSAGE_PASSING, OVERLOOKED_STORE, SELF_SOURCE, STORE_BUFFERING,
    STORE_BUFFERING_FENCED, TWIN_SWAPS, TWO_CYCLES, recording_of, relation_of,
};
use bitrow::BitRow;
use common::{EventId, MAX_EVENTS, OutOfMemory};
use judge::{Verdict, judge_alone, verify};
use labels::{Certificate, check_par};
use recording::Recording;
use relations::{Reason, Relation};
use std::alloc::Global;
use std::sync::Wait;
use std::test::Fail;
use std::thread::Threads;

/// Whether the pairs of a recording have the reasons beside them, and are forced where they have one.
fn have_reasons(alloc: Global, text: &str, pairs: &[(EventId, EventId, Option<Reason>)]) -> bool {
    let Some(relation) = relation_of(alloc, text) else {
        return false;
    };
    for (first, second, reason) in pairs {
        if relation.reason(*first, *second) != *reason
            || relation.forced(*first, *second) != reason.is_some()
        {
            return false;
        }
    }
    true
}

/// Pairs of bypassing: an own waiting store, a write list, and an initial value.
const OF_BYPASSING: &[(EventId, EventId, Option<Reason>)] = &[
    (0, 1, None),
    (4, 0, Some(Reason::Wo)),
    (2, 3, Some(Reason::Fr)),
];

/// Pairs of two swaps: an older write, and an event and itself.
const OF_TWIN_SWAPS: &[(EventId, EventId, Option<Reason>)] = &[
    (0, 1, Some(Reason::Wo)),
    (0, 0, None),
];

/// A swap that is its own source.
const OF_SELF_SOURCE: &[(EventId, EventId, Option<Reason>)] = &[(0, 0, Some(Reason::Rf))];

#[test]
fn a_pair_has_the_first_reason_that_holds(rt: HostRuntime) -> Result<(), Fail> {
    assert!(rt; have_reasons(rt.alloc(), BYPASSING, OF_BYPASSING));
    assert!(rt; have_reasons(rt.alloc(), TWIN_SWAPS, OF_TWIN_SWAPS));
    assert!(rt; have_reasons(rt.alloc(), SELF_SOURCE, OF_SELF_SOURCE));
    Ok(())
}

/// Whether each list is a memory order of the recording, or is not, as said.
fn are_allowed_so(alloc: Global, text: &str, lists: &[(&[EventId], bool)]) -> bool {
    let Some(recording) = recording_of(alloc, text) else {
        return false;
    };
    for (order, allowed) in lists {
        if order::check(&recording, *order) != *allowed {
            return false;
        }
    }
    true
}

/// Store buffering with a store last, with loads before both stores, in program order, without an event, and with
/// one twice.
const OF_STORE_BUFFERING: &[(&[EventId], bool)] = &[
    (&[1, 2, 3, 0], true),
    (&[1, 3, 0, 2], true),
    (&[0, 1, 2, 3], false),
    (&[1, 2, 3], false),
    (&[1, 2, 3, 3], false),
];

#[test]
fn memory_orders_are_those_that_the_rules_allow(rt: HostRuntime) -> Result<(), Fail> {
    assert!(rt; are_allowed_so(rt.alloc(), STORE_BUFFERING, OF_STORE_BUFFERING));
    assert!(rt; are_allowed_so(rt.alloc(), MESSAGE_PASSING, &[(&[0, 1, 2, 3], false)]));
    Ok(())
}

fn certificate(
    alloc: Global,
    cycle: &[EventId],
    rows: &[&[u16]],
) -> Result<Certificate, OutOfMemory> {
    let mut lists = Vec::new(alloc);
    for row in rows {
        lists.push(Vec::from_slice(alloc, *row)?)?;
    }
    Ok(Certificate {
        cycle: Vec::from_slice(alloc, cycle)?,
        rows: lists,
    })
}

/// The exact labels of two swaps on each of two cores, of which the other tables differ in one thing.
const EXACT: &[&[u16]] = &[&[0, 1, 1, 2], &[2, 0, 2, 1], &[1, 2, 0, 1], &[2, 1, 2, 0]];

const LAST_ROW_MISSING: &[&[u16]] = &[&[0, 1, 1, 2], &[2, 0, 2, 1], &[1, 2, 0, 1]];

const LABEL_MISSING: &[&[u16]] = &[&[0, 1, 1, 2], &[2, 0, 2], &[1, 2, 0, 1], &[2, 1, 2, 0]];

/// Cycles, each with labels: the certificate, less of it, no such event, and no cycle.
const OF_TWO_CYCLES: &[(&[EventId], &[&[u16]], bool)] = &[
    (&[0, 2], EXACT, true),
    (&[0, 2], LAST_ROW_MISSING, false),
    (&[0, 2], LABEL_MISSING, false),
    (&[0, 9], EXACT, false),
    (&[], EXACT, false),
];

/// Whether a cycle with labels is found to be a certificate or not, alone and by threads.
fn is_checked<R: Threads + Wait + Sync>(
    rt: &R,
    alloc: Global,
    relation: &Relation,
    (cycle, rows, passes): (&[EventId], &[&[u16]], bool),
) -> bool {
    let Ok(given) = certificate(alloc, cycle, rows) else {
        return false;
    };
    labels::check(relation, &given) == passes && check_par(rt, relation, &given) == passes
}

/// Whether each cycle of two swaps on each of two cores is checked so.
fn are_checked<R: Threads + Wait + Sync>(rt: &R, alloc: Global) -> bool {
    let Some(relation) = relation_of(alloc, TWO_CYCLES) else {
        return false;
    };
    for given in OF_TWO_CYCLES {
        if !is_checked(rt, alloc, &relation, *given) {
            return false;
        }
    }
    true
}

#[test]
fn two_cycles_have_one_certificate(rt: HostRuntime) -> Result<(), Fail> {
    assert!(rt; are_checked(&rt, rt.alloc()));
    Ok(())
}

/// Whether a verdict names these events.
fn names(verdict: &Verdict, events: &[EventId]) -> bool {
    match verdict {
        Verdict::Ordered(order) => order.as_slice() == events,
        Verdict::Overlook { load, store } => [*load, *store].as_slice() == events,
        Verdict::Cycle(certificate) => certificate.cycle.as_slice() == events,
    }
}

/// Whether the verdict on a recording names these events, and passes its check.
fn is_right(alloc: Global, recording: &Recording, events: &[EventId]) -> bool {
    if recording.len() > MAX_EVENTS {
        return false;
    }
    let Ok(verdict) = judge_alone(alloc, recording) else {
        return false;
    };
    names(&verdict, events) && verify(alloc, recording, &verdict) == Ok(true)
}

/// Whether these rows are found in the recording of a text.
fn is_judged(alloc: Global, text: &str, events: &[EventId]) -> bool {
    match recording_of(alloc, text) {
        Some(recording) => is_right(alloc, &recording, events),
        None => false,
    }
}

#[test]
fn verdicts_pass_their_check(rt: HostRuntime) -> Result<(), Fail> {
    assert!(rt; is_judged(rt.alloc(), STORE_BUFFERING, &[1, 2, 3, 0]));
    assert!(rt; is_judged(rt.alloc(), STORE_BUFFERING_FENCED, &[0, 1, 2, 3, 4, 5]));
    assert!(rt; is_judged(rt.alloc(), MESSAGE_PASSING, &[0, 1, 2, 3]));
    assert!(rt; is_judged(rt.alloc(), OVERLOOKED_STORE, &[1, 0]));
    Ok(())
}

/// Whether the first of three numbers in two words is found, the second once the first is taken out, and none in a row
/// of length 0.
fn finds_the_second_after_the_first(alloc: Global) -> bool {
    let (Ok(mut row), Ok(mut first), Ok(empty)) = (
        BitRow::new(alloc, 70),
        BitRow::new(alloc, 70),
        BitRow::new(alloc, 0),
    ) else {
        return false;
    };
    row.set(3);
    row.set(64);
    row.set(69);
    first.set(3);
    let before = row.first_set();
    row.and_not(&first);
    before == Some(3) && row.first_set() == Some(64) && empty.first_set().is_none()
}

#[test]
fn the_second_number_is_first_after_the_first(rt: HostRuntime) -> Result<(), Fail> {
    assert!(rt; finds_the_second_after_the_first(rt.alloc()));
    Ok(())
}
