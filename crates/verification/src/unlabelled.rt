//! The check of a text without labels.

ghost use Rattle.std.specs.Prelude.{◌≡◌, ◌++◌, ◌↔◌, ℕ, List, false, IfOk, IsTrue, MatchOption, OnOk};
ghost use Rattle.relations.specs.Cycle.{IsCycle};
ghost use Rattle.relations.specs.Forced.{Forced};
ghost use Rattle.long.specs.Answer.{IsWitness};
ghost use Rattle.long.specs.Texts.{IsLongText};
ghost use Rattle.long.specs.declared.answer.LongAnswer.{LongAnswer as Given};
ghost use Rattle.verification.specs.declared.text_check.TextCheck.TheVariants.{Holds};
ghost use Rattle.verification.specs.Faults.{LongLinesHold, NamesFault, longest_cycle};
ghost use Rattle.verification.specs.Proof.{IsLongProof, IsTextOfAnswer};
ghost use Rattle.verification.specs.Spelled.{IsSameAnswer};

use crate::fault::long_fault;
use crate::law::every_answer_holds;
use crate::printed::is_printed;
use crate::reading::read_answer;
use crate::text_check::TextCheck;
use common::{EventId, OutOfMemory};
use long::{LongAnswer, is_tso_order, put_cycle};
use recording::Recording;
use relations::{Places, is_overlook, next_in_cycle};
use std::alloc::Global;
use texts::Cursor;
use verdicts::{put_order, put_overlook};

/// The answer with the numbers of a text, whatever stands between them.
fn read_long(
    alloc: Global,
    recording: &Recording,
    text: &[u8],
) -> Result<Option<LongAnswer>, OutOfMemory>
    ensures { IfOk result (λ r. (a : Given) → IsLongText recording.now a text.now → IsWitness recording.now a
        → MatchOption r ⊥ (IsSameAnswer a)) }
{
    recording.sound();
    let mut rest = Cursor::new(text);
    // The line of a pair has more than eight bytes.
    read_answer(&mut rest, alloc, recording.len(), text.len() / 8)
}

/// Whether each event of a list of any numbers is forced before the next, and the last before the first.
fn is_cycle(places: &Places<'_>, cycle: &[EventId]) -> bool
    ensures { IsTrue result ↔ IsCycle (Forced places.now) cycle.now }
{
    for i in 0..cycle.len() {
        let Some(_reason) = places.reason(cycle[i], next_in_cycle(cycle, i)) else {
            return false;
        };
    }
    cycle.len() > 0
}

/// Adds the text of an answer to a recording if it holds, and says whether it does.
pub(crate) fn put_answer_that_holds(
    out: &mut Vec<u8>,
    alloc: Global,
    recording: &Recording,
    answer: &LongAnswer,
) -> Result<bool, OutOfMemory>
    ensures exact { IfOk result (λ holds. IsTrue holds ↔ IsWitness recording.now answer.now) }
    ensures text { IfOk result (λ holds. IsTrue holds → (text : List ℕ)
        × IsLongText recording.now answer.now text × (out.new.items ≡ out.old.items ++ text)) }
    ensures nothing { IfOk result (λ holds. holds ≡ false → out.new.items ≡ out.old.items) }
{
    match answer {
        LongAnswer::Order(order) => {
            let holds = is_tso_order(alloc, recording, order)?;
            if holds {
                put_order(out, order)?;
            }
            Ok(holds)
        }
        LongAnswer::Overlook(load, store) => {
            let holds = is_overlook(recording, *load, *store);
            if holds {
                put_overlook(out, *load, *store)?;
            }
            Ok(holds)
        }
        LongAnswer::Cycle(cycle) => {
            let places = Places::of(alloc, recording)?;
            let holds = is_cycle(&places, cycle);
            if holds {
                put_cycle(out, &places, cycle)?;
            }
            Ok(holds)
        }
    }
}

/// Whether a text is a proof without labels.
fn is_long_proof(alloc: Global, recording: &Recording, text: &[u8]) -> Result<bool, OutOfMemory>
    ensures { IfOk result (λ is. IsTrue is ↔ IsLongProof recording.now text.now) }
{
    let Some(answer) = read_long(alloc, recording, text)? else {
        return Ok(false);
    };
    let mut printed = Vec::new(alloc);
    let holds = put_answer_that_holds(&mut printed, alloc, recording, &answer)?;
    if !holds {
        return Ok(false);
    }
    Ok(is_printed(text, &printed))
}

/// Whether a text is what a recording of any length has, whoever wrote it: the line of any memory order of TSO, of any
/// read that overlooks a store, or any cycle of forced pairs, each with its first reason, whatever its length, without
/// labels. Else the first line that does not hold after those before it, which is line 1 where a cycle is longer than
/// what is left of the text. Any bytes will do. It does not block. Fails only if out of memory.
pub fn check_long_text(
    alloc: Global,
    recording: &Recording,
    text: &[u8],
) -> Result<TextCheck, OutOfMemory>
    ensures exact { IfOk result (λ f. (f ≡ Holds) ↔ IsLongProof recording.now text.now) }
    ensures judged { IfOk result (λ f. IsTextOfAnswer recording.now text.now → f ≡ Holds) }
    ensures line { IfOk result (NamesFault (LongLinesHold recording.now (longest_cycle text.now)) text.now) }
{
    every_answer_holds();
    let is_proof = is_long_proof(alloc, recording, text)?;
    if is_proof {
        return Ok(TextCheck::Holds);
    }
    long_fault(alloc, recording, text)
}
