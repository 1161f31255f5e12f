//! From a step script to its steps.

ghost use Rattle.std.specs.Prelude.{◌≡◌, ◌≤◌, ℕ, All, IfOk, length};
ghost use Rattle.texts.specs.Decimals.{IsValue};
ghost use Rattle.texts.specs.Reading.{Answers, AnswersLine, seen_as};
ghost use Rattle.machine.specs.Script.{core_in, address_in, with_step, steps_of, IsStepOf};

use crate::script_line::{ParsedLine, own_step, script_line_of, transaction_step};
use crate::script_refusal::{StepRefusal, StepsError};
use crate::step::Step;
use common::{Addr, CoreId, MAX_STEPS};
use program::{Name, Program};
use std::alloc::Global;
use texts::{Number, ReadLines, read_lines};

fn core_in(program: &Program, number: Number) -> Option<CoreId>
    ensures { (c : ℕ) → IsValue number c → result ≡ core_in program.now c }
{
    let cores = program.cores();
    match number {
        Number::Value(core) if (core as usize) < cores => Some(core as CoreId),
        _ => None,
    }
}

fn address_in(program: &Program, name: Name) -> Option<Addr>
    ensures { result ≡ address_in program.now name }
{
    match program.names().get_index_of(&name) {
        Some(addr) => Some(addr as Addr),
        None => None,
    }
}

fn push_step(steps: &mut Vec<Step>, step: Step, number: usize) -> Result<(), StepsError>
    ensures { AnswersLine (seen_as result (λ _. steps.new.items)) number
        (with_step steps.old.items step) }
{
    if MAX_STEPS <= steps.len() {
        return Err(StepsError::AtLine(StepRefusal::S4, number));
    }
    steps.push(step)?;
    Ok(())
}

/// The steps of a script so far, and the program that it is for.
#[derive(Drop)]
struct Steps<'a> {
    program: &'a Program,
    steps: Vec<Step>,
}

impl<'a> ReadLines for Steps<'a> {
    ghost use Rattle.std.specs.Prelude.{List};
    ghost use Rattle.program.specs.Parts.{Parts};
    ghost use Rattle.machine.specs.declared.step.Step.{Step};
    ghost use Rattle.machine.specs.Script.{line_step};

    type Refusal = StepRefusal;

    ghost Subject = { Parts };

    ghost subject = { λ s. s.program.now };

    ghost State = { List Step };

    ghost state = { λ s. s.steps.items };

    ghost step = { line_step };

    fn take_line(&mut self, line: &[u8], number: usize) -> Result<(), StepsError> {
        match script_line_of(line) {
            None => Err(StepsError::AtLine(StepRefusal::S1, number)),
            Some(ParsedLine::CoreStep(own, core)) => match core_in(self.program, core) {
                None => Err(StepsError::AtLine(StepRefusal::S2, number)),
                Some(core) => push_step(&mut self.steps, own_step(own, core), number),
            },
            Some(ParsedLine::Transaction(kind, core, name)) => {
                match (core_in(self.program, core), address_in(self.program, name)) {
                    (None, _) => Err(StepsError::AtLine(StepRefusal::S2, number)),
                    (_, None) => Err(StepsError::AtLine(StepRefusal::S3, number)),
                    (Some(core), Some(addr)) => {
                        push_step(&mut self.steps, transaction_step(kind, core, addr), number)
                    }
                }
            }
        }
    }
}

/// The steps of a script for the program, or the first line at fault, or that memory ran out.
///
/// A line is `exec C`, `drain C`, `gets C NAME`, `getm C NAME` or `put C NAME`, with the number of a
/// core and the name of an address, and ends with a newline. A step that the machine can't take is
/// lawful here.
#[tactic(auto, using(crate::proofs::ScriptText::script_cores, crate::proofs::ScriptText::script_few))]
pub fn parse_steps(alloc: Global, text: &[u8], program: &Program) -> Result<Vec<Step>, StepsError>
    // The steps, or which line is at fault, and why.
    ensures exact { Answers (seen_as result (λ steps. steps.items))
        (steps_of program.now text.now) }
    // The cores and addresses of the steps are the program's.
    ensures cores { IfOk result (λ steps. All (IsStepOf program.now) steps.items) }
    ensures few { IfOk result (λ steps. length steps.items ≤ MAX_STEPS) }
{
    let mut read = Steps {
        program,
        steps: Vec::new(alloc),
    };
    read_lines(&mut read, text, StepRefusal::S1)?;
    let Steps { program: _, steps } = read;
    Ok(steps)
}
