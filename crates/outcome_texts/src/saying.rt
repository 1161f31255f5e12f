//! What words say, item by item.

ghost use Rattle.std.specs.Prelude.{◌≡◌, [], Err, IfOk, MatchResult, Ok, OnOk, false, map};
ghost use Rattle.std.specs.List.{list_any};
ghost use Rattle.outcomes.specs.Observed.{is_of_one};
ghost use Rattle.outcome_texts.specs.ObservedLine.{condition_of, is_refused, observation_in, said_by, spaced_from};
ghost use Rattle.outcome_texts.specs.ObservedLine.{with_byte, with_item};

use crate::items::{Ending, observation_in};
use crate::words::words_of;
use common::OutOfMemory;
use outcomes::{Observation, is_of_one};
use program::Program;
use std::alloc::Global;

/// Whether an earlier item speaks of what this one does.
fn repeats(seen: &[Observation], one: Observation) -> bool
    ensures { result ≡ list_any (is_of_one one) seen.now }
{
    for other in seen {
        if is_of_one(one, *other) {
            return true;
        }
    }
    false
}

/// Adds what a word says; whether it is refused.
fn add_item(
    program: &Program,
    ending: Ending,
    seen: &mut Vec<Observation>,
    word: &[u8],
) -> Result<bool, OutOfMemory>
    ensures refused { IfOk result (λ b. b ≡ is_refused seen.old.items (observation_in program.now ending word.now)) }
    ensures added { IfOk result (λ b. b ≡ false
        → seen.new.items ≡ with_item seen.old.items (observation_in program.now ending word.now)) }
{
    let Some(one) = observation_in(program, ending, word) else {
        return Ok(true);
    };
    if repeats(seen, one) {
        return Ok(true);
    }
    seen.push(one)?;
    Ok(false)
}

/// What words say of a program, or the number of the first, from 1, that says nothing, or speaks of what an earlier
/// one did. Fails only if out of memory.
pub(crate) fn said_by(
    alloc: Global,
    program: &Program,
    ending: Ending,
    words: &[Vec<u8>],
) -> Result<Result<Vec<Observation>, usize>, OutOfMemory>
    ensures { IfOk result (λ r. MatchResult r
        (λ seen. said_by program.now ending (map (λ w. w.items) words.now) ≡ Ok seen.items)
        (λ n. said_by program.now ending (map (λ w. w.items) words.now) ≡ Err n)) }
{
    let mut seen = Vec::new(alloc);
    for i in 0..words.len() {
        if add_item(program, ending, &mut seen, &words[i])? {
            return Ok(Err(i + 1));
        }
    }
    Ok(Ok(seen))
}

/// Adds a byte to a text, in which `/\` is a space.
fn add_byte(text: &mut Vec<u8>, byte: u8) -> Result<(), OutOfMemory>
    ensures { OnOk result (text.new.items ≡ with_byte text.old.items byte) }
{
    if byte == b'\\' && !text.is_empty() && text[text.len() - 1] == b'/' {
        text.truncate(text.len() - 1);
        text.push(b' ')?;
        return Ok(());
    }
    text.push(byte)?;
    Ok(())
}

/// A text in which `/\` is a space.
fn space_conjunctions(alloc: Global, text: &[u8]) -> Result<Vec<u8>, OutOfMemory>
    ensures { IfOk result (λ out. out.items ≡ spaced_from [] text.now) }
{
    let mut out = Vec::new(alloc);
    for b in text {
        add_byte(&mut out, *b)?;
    }
    Ok(out)
}

/// What a condition says of a program, items with `/\` or spaces between them, or the number of the first item, from
/// 1, that says nothing, or speaks of what an earlier one did. Fails only if out of memory.
pub fn condition_of(
    alloc: Global,
    program: &Program,
    text: &[u8],
) -> Result<Result<Vec<Observation>, usize>, OutOfMemory>
    ensures { IfOk result (λ r. MatchResult r (λ seen. condition_of program.now text.now ≡ Ok seen.items)
        (λ n. condition_of program.now text.now ≡ Err n)) }
{
    let text = space_conjunctions(alloc, text)?;
    let words = words_of(alloc, &text)?;
    said_by(alloc, program, Ending::Optional, &words)
}
