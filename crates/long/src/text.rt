//! The text of an answer.

ghost use Rattle.std.specs.Prelude.{◌≡◌, ◌++◌, ℕ, List, IfOk, OnOk};
ghost use Rattle.recording.specs.Execution.{Execution};
ghost use Rattle.relations.specs.Cycle.{IsCycle};
ghost use Rattle.relations.specs.Forced.{Forced};
ghost use Rattle.long.specs.Answer.{IsJudged};
ghost use Rattle.long.specs.Texts.{ArePairs, IsLongText, long_outcome};

use crate::answer::{Judged, LongAnswer};
use common::{EventId, OutOfMemory};
use relations::Places;
use std::alloc::Global;
use texts::put_text_and_number;
use verdicts::{Answer, Outcome, put_order, put_overlook, put_pairs};

/// The outcome of an answer: only an order is no violation.
pub fn long_outcome(answer: &LongAnswer) -> Outcome
    ensures { result ≡ long_outcome answer.now }
{
    match answer {
        LongAnswer::Order(_) => Outcome::Ordered,
        LongAnswer::Overlook(_, _) | LongAnswer::Cycle(_) => Outcome::Violation,
    }
}

/// Adds the length of a cycle of forced pairs of the recording with these places, and a line for each of its pairs,
/// with its first reason. Fails only if out of memory.
pub fn put_cycle(
    out: &mut Vec<u8>,
    places: &Places<'_>,
    cycle: &[EventId],
) -> Result<(), OutOfMemory>
    requires { IsCycle (Forced places.now) cycle.now }
    ensures { OnOk result ((text : List ℕ) × ArePairs places.now cycle.now text
        × (out.new.items ≡ out.old.items ++ text)) }
{
    put_text_and_number(out, b"cycle of ", cycle.len())?;
    out.push(b'\n')?;
    put_pairs(out, places, cycle)
}

/// Adds the text of what is answered to a recording.
fn put_long(out: &mut Vec<u8>, judged: &Judged<'_>) -> Result<(), OutOfMemory>
    requires { (x : Execution) × IsJudged x judged.now }
    ensures { OnOk result ((x : Execution) → IsJudged x judged.now → (text : List ℕ)
        × IsLongText x judged.now.answer text × (out.new.items ≡ out.old.items ++ text)) }
{
    match &judged.answer {
        LongAnswer::Order(order) => put_order(out, order),
        LongAnswer::Overlook(load, store) => put_overlook(out, *load, *store),
        LongAnswer::Cycle(cycle) => {
            let Some(places) = &judged.places else {
                unreachable!();
            };
            put_cycle(out, places, cycle)
        }
    }
}

/// The text of what is answered to a recording, and its outcome: the line of an order or of an overlook, or the length
/// of a cycle and a line for each of its pairs, with its first reason. Fails only if out of memory.
pub fn long_text(alloc: Global, judged: &Judged<'_>) -> Result<Answer, OutOfMemory>
    requires { (x : Execution) × IsJudged x judged.now }
    ensures outcome { IfOk result (λ printed. printed.outcome ≡ long_outcome judged.now.answer) }
    ensures text { IfOk result (λ printed. (x : Execution) → IsJudged x judged.now
        → IsLongText x judged.now.answer printed.text.items) }
{
    let mut text = Vec::new(alloc);
    put_long(&mut text, judged)?;
    let outcome = long_outcome(&judged.answer);
    Ok(Answer { outcome, text })
}
