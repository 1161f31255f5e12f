//! What is shown of a trial.

ghost use Rattle.std.specs.Prelude.{◌≡◌, ◌<◌, IfOk, IfSome, IfNone, None, Some};
ghost use Rattle.machine.specs.Configuration.{Configuration, IsAtEnd, recording_of};
ghost use Rattle.trials.specs.Judged.{IsJudgedEnd};
ghost use Rattle.run_answers.specs.Campaign.{IsShownAnswer, IsShownRun, IsViolation};
ghost use Rattle.answers.specs.Reduced.{IsCutAnswer};

use crate::runs::judged_run_answer;
use answers::{ViolationForm, cut_answer};
use common::OutOfMemory;
use litmus::print;
use machine::Machine;
use program::Program;
use std::alloc::Global;
use trials::{Campaign, Judged, judged_end, run_trial};
use verdicts::Answer;

/// What is left of the violation in which a run ends, where it is to be reduced; none where it ends in none.
fn cut_end(
    alloc: Global,
    program: &Program,
    judged: &Option<Judged>,
    form: ViolationForm,
) -> Result<Option<Answer>, OutOfMemory>
    requires { (h : Configuration) × (h.program ≡ program.now) × IsJudgedEnd h judged.now }
    ensures asked { IfOk result (λ r. IfSome r (λ _. form ≡ ViolationForm.Reduced)) }
    ensures some { IfOk result (λ r. IfSome r (λ answer. (h : Configuration) → h.program ≡ program.now
        → IsJudgedEnd h judged.now → IsAtEnd h × IsCutAnswer (recording_of h) (Some h.program) None answer)) }
    ensures none { IfOk result (λ r. IfNone r (form ≡ ViolationForm.Reduced → (h : Configuration)
        → h.program ≡ program.now → IsJudgedEnd h judged.now → ¬ IsViolation h.program h.state)) }
{
    if form == ViolationForm::Whole {
        return Ok(None);
    }
    match judged {
        Some(Judged { recording, verdict }) => {
            let answer = cut_answer(alloc, recording, Some(program), verdict, None)?;
            Ok(answer)
        }
        None => Ok(None),
    }
}

/// What is left of the violation in which a run ends, where it is to be reduced, and else its program, an empty line,
/// and what is answered of the machine in which it ends.
fn shown_run(alloc: Global, machine: Machine, form: ViolationForm) -> Result<Answer, OutOfMemory>
    ensures { IfOk result (IsShownRun machine.fault machine.program machine.state form) }
{
    let program = machine.program().copy(alloc)?;
    let judged = judged_end(alloc, machine)?;
    match cut_end(alloc, &program, &judged, form)? {
        Some(answer) => Ok(answer),
        None => {
            let mut text = print(alloc, &program)?;
            let run = judged_run_answer(alloc, judged)?;
            text.push(b'\n')?;
            text.extend_from_slice(&run.text)?;
            Ok(Answer {
                outcome: run.outcome,
                text,
            })
        }
    }
}

/// The program of a trial below the number of trials, an empty line, and what `machine_answer` answers of the
/// machine in which the trial ends; where it is to be reduced, of a violation the same of the events alone
/// that it needs. Fails only if out of memory.
pub fn shown_answer(
    alloc: Global,
    campaign: &Campaign,
    k: usize,
    form: ViolationForm,
) -> Result<Answer, OutOfMemory>
    requires { k < campaign.now.trials }
    ensures { IfOk result (IsShownAnswer campaign.now k form) }
{
    let machine = run_trial(alloc, campaign, k)?;
    shown_run(alloc, machine, form)
}
