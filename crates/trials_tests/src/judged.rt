//! Runs by hand, and what is judged of them.

use common::EventId;
use judge::Verdict;
use litmus::parse;
use machine::parse_steps;
use program::Fault;
use std::alloc::Global;
use std::test::Fail;
use trials::run_and_judge;

// Whether the run of a program by a script, where buffers have room for 8 stores, is judged so: a verdict of this kind,
// which names these events, or nothing.
fn is_judged(
    alloc: Global,
    (text, fault, script): (&str, Fault, &str),
    kind: &str,
    events: &[EventId],
) -> Result<bool, Fail> {
    let Ok(program) = parse(alloc, text.as_bytes()) else {
        return Err("a program")?;
    };
    let Ok(steps) = parse_steps(alloc, script.as_bytes(), &program) else {
        return Err("a script")?;
    };
    match run_and_judge(alloc, program, 8, fault, &steps)? {
        Some(Verdict::Ordered(order)) => Ok(kind == "ordered" && order.as_slice() == events),
        Some(Verdict::Overlook { load, store }) => Ok(
            kind == "overlook" && [load, store].as_slice() == events,
        ),
        Some(Verdict::Cycle(certificate)) => {
            Ok(kind == "cycle" && certificate.cycle.as_slice() == events)
        }
        None => Ok(kind == "unfinished"),
    }
}

const BYPASS: (&str, &str) = (
    "core\nst x 1\nld x\n",
    "exec 0\ngets 0 x\nexec 0\ndrain 0\n",
);

const DRAINS: (&str, &str) = (
    "core\nst x 1\nst x 2\n",
    "exec 0\nexec 0\ngetm 0 x\ndrain 0\ndrain 0\n",
);

const FENCES: (&str, &str) = (
    "core\nst x 1\nfence\nld y\ncore\nst y 1\nfence\nld x\n",
    "exec 0\nexec 0\ngets 0 y\nexec 0\nexec 1\nexec 1\ngets 1 x\nexec 1\ngetm 0 x\ndrain 0\ngetm 1 y\ndrain 1\n",
);

const SHARERS: (&str, &str) = (
    "core\nst x 1\nst y 1\ncore\nld y\nld x\n",
    "gets 0 x\ngets 1 x\nexec 0\nexec 0\ngetm 0 x\ndrain 0\ngetm 0 y\ndrain 0\ngets 1 y\nexec 1\nexec 1\n",
);

const SWAPS: (&str, &str) = (
    "core\nst x 1\nswap x 2\n",
    "exec 0\ngetm 0 x\nexec 0\ndrain 0\n",
);

/// Programs with scripts, run with a fault, and what is judged of them.
const ROWS: &[((&str, &str), Fault, &str, &[EventId])] = &[
    (BYPASS, Fault::NoBypass, "overlook", &[1, 0]),
    (BYPASS, Fault::None, "ordered", &[0, 1]),
    (DRAINS, Fault::YoungestFirst, "cycle", &[0, 1]),
    (FENCES, Fault::OpenFence, "cycle", &[0, 1, 2, 3, 4, 5]),
    (SHARERS, Fault::StaleShare, "cycle", &[0, 1, 2, 3]),
    (SHARERS, Fault::None, "unfinished", &[]),
    (SWAPS, Fault::EarlyRmw, "overlook", &[1, 0]),
];

#[test]
fn each_fault_is_a_violation(rt: HostRuntime) -> Result<(), Fail> {
    for ((text, script), fault, kind, events) in ROWS {
        assert!(rt; is_judged(rt.alloc(), (*text, *fault, *script), *kind, *events)?);
    }
    Ok(())
}
