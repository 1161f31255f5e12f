//! What is judged of runs.

ghost use Rattle.std.specs.Prelude.{◌≡◌, IfOk};
ghost use Rattle.trials.specs.Codes.{end_code, IsShortEnd};
ghost use Rattle.program.specs.declared.fault.Fault.TheVariants as faults;
ghost use Rattle.trials.specs.Judged.{begun_machine, ran, IsEndVerdict, IsJudgedEnd, IsLawful};

use common::OutOfMemory;
use judge::{Verdict, judge_alone};
use ledger::{Finding, UNFINISHED};
use machine::{Machine, Step};
use program::{Fault, Program};
use recording::Recording;
use std::alloc::Global;

/// A recording and the verdict on it.
#[derive(Drop)]
pub struct Judged {
    /// The recording.
    pub recording: Recording,
    /// The verdict on it.
    pub verdict: Verdict,
}

/// The recording of a machine and the verdict on it; none exactly where the machine is not complete. It
/// does not block. Fails only if out of memory.
pub fn judged_end(alloc: Global, machine: Machine) -> Result<Option<Judged>, OutOfMemory>
    ensures { IfOk result (IsJudgedEnd machine) }
{
    match machine.finish() {
        Ok(recording) => match judge_alone(alloc, &recording) {
            Ok(verdict) => Ok(Some(Judged { recording, verdict })),
            Err(error) => {
                drop(recording);
                Err(error)
            }
        },
        Err(unfinished) => {
            drop(unfinished);
            Ok(None)
        }
    }
}

/// The verdict on the recording of a machine; none exactly where it is not complete. Fails only if out
/// of memory.
pub(crate) fn end_verdict(alloc: Global, machine: Machine) -> Result<Option<Verdict>, OutOfMemory>
    ensures judged { IfOk result (IsEndVerdict machine) }
    ensures lawful { IfOk result (λ verdict. machine.fault ≡ faults.None → IsLawful verdict) }
    ensures short { IfOk result IsShortEnd }
{
    match judged_end(alloc, machine)? {
        Some(Judged { recording, verdict }) => {
            recording.sound();
            drop(recording);
            Ok(Some(verdict))
        }
        None => Ok(None),
    }
}

/// The verdict on the recording that a machine makes of a program by these steps, of which blocked ones
/// are skipped; none exactly where the run is not complete. Without fault it is an order. It waits for
/// nobody, and fails only if out of memory.
pub fn run_and_judge(
    alloc: Global,
    program: Program,
    capacity: usize,
    fault: Fault,
    steps: &[Step],
) -> Result<Option<Verdict>, OutOfMemory>
    ensures judged { IfOk result (IsEndVerdict (ran (begun_machine program capacity fault) steps.now)) }
    ensures lawful { IfOk result (λ verdict. fault ≡ faults.None → IsLawful verdict) }
{
    let mut machine = Machine::new(alloc, program, capacity, fault)?;
    machine.run(steps);
    end_verdict(alloc, machine)
}

/// The code of a trial by what is judged of the machine in which it ends.
pub(crate) fn end_code(verdict: Option<Verdict>) -> u64
    requires { IsShortEnd verdict }
    ensures { result ≡ end_code verdict }
{
    match verdict {
        Some(verdict) => Finding::of(&verdict).code(),
        None => UNFINISHED,
    }
}
