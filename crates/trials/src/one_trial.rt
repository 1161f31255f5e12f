//! One trial.

ghost use Rattle.std.specs.Prelude.{◌≡◌, ◌<◌, IfOk};
ghost use Rattle.machine.specs.Configuration.{Configuration};
ghost use Rattle.trials.specs.Codes.{EndsIn, IsShortEnd, generator, program_of_trial};
ghost use Rattle.trials.specs.Judged.{IsEndRecording, IsEndVerdict};

use crate::filed::Filed;
use crate::judging::{end_code, end_verdict};
use crate::running::run_seeded;
use common::OutOfMemory;
use judge::Verdict;
use litmus::generate;
use machine::Machine;
use program::{Campaign, Program};
use rand_core::SeedableRng;
use rand_xoshiro::Xoshiro256PlusPlus;
use recording::Recording;
use std::alloc::Global;

/// The generator of a trial: seeded by the first seed and the number of the trial, modulo 2^64.
fn generator(campaign: &Campaign, trial: usize) -> Xoshiro256PlusPlus
    ensures { result ≡ generator campaign.now trial }
{
    Xoshiro256PlusPlus::seed_from_u64(campaign.base().wrapping_add(trial as u64))
}

/// The machine in which a trial below the number of trials ends: its generator's first words make the
/// program, the later ones name the attempts. Fails only if out of memory.
pub fn run_trial(alloc: Global, campaign: &Campaign, k: usize) -> Result<Machine, OutOfMemory>
    requires { k < campaign.now.trials }
    ensures { IfOk result (EndsIn campaign.now k) }
{
    let mut rng = generator(campaign, k);
    let program = generate(alloc, campaign.shape(), &mut rng)?;
    let mut machine = Machine::new(alloc, program, campaign.capacity(), campaign.fault())?;
    run_seeded(&mut machine, &mut rng, campaign.attempts());
    Ok(machine)
}

/// A trial with its code, by what is judged of a machine in which it ends.
fn file_trial(campaign: &Campaign, k: usize, verdict: Option<Verdict>) -> Filed
    requires end { (h : Configuration) × EndsIn campaign.now k h × IsEndVerdict h verdict }
    requires short { IsShortEnd verdict }
    ensures { (result.campaign ≡ campaign.now) × (result.trial ≡ k) }
{
    Filed::new(campaign, k, end_code(verdict))
}

/// A trial below the number of trials, with its code. It does not block. Fails only if out of memory.
pub fn trial(alloc: Global, campaign: &Campaign, k: usize) -> Result<Filed, OutOfMemory>
    requires { k < campaign.now.trials }
    ensures { IfOk result (λ f. (f.campaign ≡ campaign.now) × (f.trial ≡ k)) }
{
    let machine = run_trial(alloc, campaign, k)?;
    let verdict = end_verdict(alloc, machine)?;
    Ok(file_trial(campaign, k, verdict))
}

/// The recording of a machine; none exactly where it is not complete.
fn end_recording(machine: Machine) -> Option<Recording>
    ensures { IsEndRecording machine result }
{
    match machine.finish() {
        Ok(recording) => Some(recording),
        Err(_unfinished) => None,
    }
}

/// A copy of the program of a machine, and its recording.
fn end_parts(alloc: Global, machine: Machine) -> Result<(Program, Option<Recording>), OutOfMemory>
    ensures program { IfOk result (λ r. r.0 ≡ machine.program) }
    ensures recording { IfOk result (λ r. IsEndRecording machine r.1) }
{
    let program = machine.program().copy(alloc)?;
    Ok((program, end_recording(machine)))
}

/// The program of a trial below the number of trials, and its recording; none exactly where its run is not
/// complete. Fails only if out of memory.
pub fn reproduce(
    alloc: Global,
    campaign: &Campaign,
    k: usize,
) -> Result<(Program, Option<Recording>), OutOfMemory>
    requires { k < campaign.now.trials }
    ensures program { IfOk result (λ r. r.0 ≡ program_of_trial campaign.now k) }
    ensures recording { IfOk result
        (λ r. (h : Configuration) × EndsIn campaign.now k h × IsEndRecording h r.1) }
{
    let machine = run_trial(alloc, campaign, k)?;
    let (program, recording) = end_parts(alloc, machine)?;
    Ok((program, recording))
}
