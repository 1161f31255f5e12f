//! What is answered of runs.

ghost use Rattle.std.specs.Prelude.{IfOk};
ghost use Rattle.machine.specs.Configuration.{Configuration};
ghost use Rattle.trials.specs.Judged.{IsJudgedEnd};
ghost use Rattle.run_answers.specs.Run.{IsRunAnswer, IsSeededAnswer, script_state};

use common::OutOfMemory;
use machine::{Machine, Step};
use program::{Fault, Program};
use rand_core::SeedableRng;
use rand_xoshiro::Xoshiro256PlusPlus;
use recorder::write_recording;
use std::alloc::Global;
use trials::{Judged, judged_end, run_seeded};
use verdicts::{Answer, Outcome, verdict_answer};

/// The line of a recording and the verdict on it, or that a run is unfinished, by what is judged of the
/// machine in which it ends. Fails only if out of memory.
pub(crate) fn judged_run_answer(
    alloc: Global,
    judged: Option<Judged>,
) -> Result<Answer, OutOfMemory>
    requires { (h : Configuration) × IsJudgedEnd h judged }
    ensures { IfOk result (λ answer. (h : Configuration) → IsJudgedEnd h judged
        → IsRunAnswer h.fault h.program h.state answer) }
{
    match judged {
        Some(Judged { recording, verdict }) => {
            let text = write_recording(alloc, &recording)?;
            verdict_answer(alloc, text, &recording, &verdict)
        }
        None => Ok(Answer::of(alloc, Outcome::Unfinished, "unfinished\n")?),
    }
}

/// The line of the recording of a complete machine and the verdict on it, or that it is unfinished.
/// Fails only if out of memory.
pub fn machine_answer(alloc: Global, machine: Machine) -> Result<Answer, OutOfMemory>
    ensures { IfOk result (IsRunAnswer machine.fault machine.program machine.state) }
{
    let judged = judged_end(alloc, machine)?;
    judged_run_answer(alloc, judged)
}

/// The answer of a program that is run by a script, of which blocked steps are skipped. Fails only if
/// out of memory.
pub fn script_answer(
    alloc: Global,
    program: Program,
    capacity: usize,
    fault: Fault,
    steps: &[Step],
) -> Result<Answer, OutOfMemory>
    ensures { IfOk result (IsRunAnswer fault program (script_state program capacity fault steps.now)) }
{
    let mut machine = Machine::new(alloc, program, capacity, fault)?;
    machine.run(steps);
    machine_answer(alloc, machine)
}

/// The answer of a program whose steps are named by the words of a generator with this seed, this many
/// attempts at most. Fails only if out of memory.
pub fn seeded_answer(
    alloc: Global,
    program: Program,
    capacity: usize,
    fault: Fault,
    seed: u64,
    attempts: usize,
) -> Result<Answer, OutOfMemory>
    ensures { IfOk result (IsSeededAnswer program capacity fault seed attempts) }
{
    let mut machine = Machine::new(alloc, program, capacity, fault)?;
    let mut rng = Xoshiro256PlusPlus::seed_from_u64(seed);
    run_seeded(&mut machine, &mut rng, attempts);
    machine_answer(alloc, machine)
}
