//! Trials that are reproduced.

ghost use Rattle.std.specs.Prelude.{◌<◌};

use crate::campaigns::campaign;
use common::{MAX_EVENTS, OutOfMemory};
use judge::{Verdict, judge_alone};
use litmus::print;
use program::{Fault, Program};
use recording::Recording;
use std::alloc::Global;
use std::test::Fail;
use trials::{CYCLE, Campaign, LOAD, ORDERED, OVERLOOK, UNFINISHED, reproduce, trial};

/// The code of a verdict.
fn code_of(verdict: &Verdict) -> u64 {
    match verdict {
        Verdict::Ordered(_) => ORDERED,
        Verdict::Overlook { load, store } => OVERLOOK
            .wrapping_add(LOAD.wrapping_mul(*load as u64))
            .wrapping_add(*store as u64),
        Verdict::Cycle(certificate) => CYCLE.wrapping_add(certificate.cycle.len() as u64),
    }
}

/// The code of a recording; 0 of one that is too long to be a trial's.
fn recorded_code(alloc: Global, recording: &Recording) -> Result<u64, OutOfMemory> {
    if recording.len() > MAX_EVENTS {
        return Ok(0);
    }
    Ok(code_of(&judge_alone(alloc, recording)?))
}

/// The code of a trial's recording, or of an unfinished trial where there is none.
fn wanted_code(alloc: Global, recording: Option<&Recording>) -> Result<u64, OutOfMemory> {
    match recording {
        Some(recording) => recorded_code(alloc, recording),
        None => Ok(UNFINISHED),
    }
}

/// Whether a program and its copy have one text.
fn has_one_text(alloc: Global, program: &Program) -> Result<bool, OutOfMemory> {
    let text = print(alloc, program)?;
    let copy = program.copy(alloc)?;
    let again = print(alloc, &copy)?;
    Ok(text.as_slice() == again.as_slice())
}

/// Whether trial k is reproduced: its code is that of its recording, and its program has one text.
fn is_reproduced(alloc: Global, plan: &Campaign, k: usize) -> Result<bool, OutOfMemory>
    requires { k < plan.now.trials }
{
    let filed = trial(alloc, plan, k)?;
    let (program, recording) = reproduce(alloc, plan, k)?;
    let wanted = wanted_code(alloc, recording.as_ref())?;
    Ok(has_one_text(alloc, &program)? && filed.code() == wanted)
}

#[test]
fn a_trial_is_reproduced(rt: HostRuntime) -> Result<(), Fail> {
    let plan = campaign((2, 4, 2), 64, 100_000, Fault::OpenFence)?;
    for k in 0..plan.trials() {
        assert!(rt; is_reproduced(rt.alloc(), &plan, k)?);
    }
    assert!(rt; plan.trials() == 64);
    Ok(())
}
