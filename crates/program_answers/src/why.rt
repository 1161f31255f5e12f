//! Why TSO forbids what a line of a log says.

ghost use Rattle.std.specs.Prelude.{◌≡◌, ◌+◌, ◌^◌, ◌<◌, [], IfOk, length, map, option_map};
ghost use Rattle.program_answers.specs.Why.{IsWhy, core_seen, cores_seen, event_seen, events_seen, final_seen, finals_seen};
ghost use Rattle.program_answers.specs.Why.{first_values, value_seen, values_seen};

use crate::completion_answers::completion_answer;
use common::{CoreId, OutOfMemory};
use outcome_texts::SeenLine;
use outcomes::{Observation, Outcome, does_read, explains, first_event};
use program::{Op, Program};
use program_events::event_of;
use recording::Event;
use std::alloc::Global;
use values::Values;

/// The value that an event read, as a line says.
fn value_seen(seen: &[Observation], number: usize) -> Option<u32>
    ensures { result ≡ value_seen seen.now number }
{
    for one in seen {
        if let Observation::Read(event, value) = *one {
            if event as usize == number {
                return Some(value);
            }
        }
    }
    None
}

/// The value that an address ended with, as a line says.
fn final_seen(seen: &[Observation], number: usize) -> Option<u32>
    ensures { result ≡ final_seen seen.now number }
{
    for one in seen {
        if let Observation::Final(address, value) = *one {
            if address as usize == number {
                return Some(value);
            }
        }
    }
    None
}

/// The event of an operation, if it reads nothing, or a line says what it read.
fn event_seen(op: Op, seen: &[Observation], number: usize) -> Option<Event>
    ensures { result ≡ event_seen op seen.now number }
{
    if !does_read(op) {
        return Some(event_of(op, (0, None)));
    }
    let value = value_seen(seen, number)?;
    Some(event_of(op, (value, None)))
}

/// The events of a core, of which the first has this number, if a line says what each of them read.
fn events_seen(
    alloc: Global,
    first: usize,
    ops: &[Op],
    seen: &[Observation],
) -> Result<Option<Vec<Event>>, OutOfMemory>
    requires { first + length ops.now < 2 ^ 64 }
    ensures { IfOk result (λ o. option_map (λ v. v.items) o ≡ events_seen first [] ops.now seen.now) }
{
    let mut events = Vec::new(alloc);
    for i in 0..ops.len() {
        let Some(event) = event_seen(ops[i], seen, first + i) else {
            return Ok(None);
        };
        events.push(event)?;
    }
    Ok(Some(events))
}

/// The events of a core, if a line says what each of them read.
fn core_seen(
    alloc: Global,
    program: &Program,
    core: usize,
    seen: &[Observation],
) -> Result<Option<Vec<Event>>, OutOfMemory>
    requires { core < length program.now.cores }
    ensures { IfOk result (λ o. option_map (λ v. v.items) o ≡ core_seen program.now core seen.now) }
{
    program.sound();
    let first = first_event(program.lists(), core);
    events_seen(alloc, first, program.ops(core as CoreId), seen)
}

/// The events of each core, if a line says what each of them read.
fn cores_seen(
    alloc: Global,
    program: &Program,
    seen: &[Observation],
) -> Result<Option<Vec<Vec<Event>>>, OutOfMemory>
    ensures { IfOk result (λ o. option_map (λ v. map (λ l. l.items) v.items) o
        ≡ cores_seen program.now 0 (length program.now.cores) [] seen.now) }
{
    let mut cores = Vec::new(alloc);
    for core in 0..program.cores() {
        let events = match core_seen(alloc, program, core, seen)? {
            Some(events) => events,
            None => return Ok(None),
        };
        cores.push(events)?;
    }
    Ok(Some(cores))
}

/// What each address ended with, where a line says it.
fn finals_seen(
    alloc: Global,
    addresses: usize,
    seen: &[Observation],
) -> Result<Vec<Option<u32>>, OutOfMemory>
    ensures { IfOk result (λ v. v.items ≡ finals_seen addresses seen.now) }
{
    let mut finals = Vec::new(alloc);
    for address in 0..addresses {
        finals.push(final_seen(seen, address))?;
    }
    Ok(finals)
}

/// The values of a run of a program, if a line says what each operation read.
fn values_seen(
    alloc: Global,
    program: &Program,
    seen: &[Observation],
) -> Result<Option<Values>, OutOfMemory>
    ensures { IfOk result (λ o. o ≡ values_seen program.now seen.now) }
{
    let Some(cores) = cores_seen(alloc, program, seen)? else {
        return Ok(None);
    };
    let init = Vec::from_slice(alloc, program.init())?;
    let finals = finals_seen(alloc, program.names().len(), seen)?;
    Ok(Some(Values::new(alloc, &cores, Vec::new(alloc), init, finals)?))
}

/// The values of the first line that none of the outcomes has and that says what each operation read, if there is one.
fn first_values(
    alloc: Global,
    program: &Program,
    outcomes: &[Outcome],
    lines: &[SeenLine],
) -> Result<Option<Values>, OutOfMemory>
    ensures { IfOk result (λ o. o ≡ first_values program.now outcomes.now lines.now) }
{
    for line in lines {
        if !explains(outcomes, line.items()) {
            if let Some(values) = values_seen(alloc, program, line.items())? {
                return Ok(Some(values));
            }
        }
    }
    Ok(None)
}

/// An empty line, and what is answered of the values of the first line that is forbidden and says what each operation
/// read; nothing where there is no such line. Fails only if out of memory.
pub(crate) fn why_text(
    alloc: Global,
    program: &Program,
    states: usize,
    outcomes: &[Outcome],
    lines: &[SeenLine],
) -> Result<Vec<u8>, OutOfMemory>
    ensures { IfOk result (λ text. IsWhy states program.now outcomes.now lines.now text.items) }
{
    let mut text = Vec::new(alloc);
    let Some(values) = first_values(alloc, program, outcomes, lines)? else {
        return Ok(text);
    };
    text.push(b'\n')?;
    let answer = completion_answer(alloc, &values, states)?;
    text.extend_from_slice(&answer.text)?;
    Ok(text)
}
