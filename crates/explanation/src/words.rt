//! Orders, overlooks and cycles in words.

ghost use Rattle.std.specs.Prelude.{IfOk};
ghost use Rattle.long.specs.Answer.{IsWitness};
ghost use Rattle.explanation.specs.Explanation.{IsExplanation};

use crate::named::Named;
use common::OutOfMemory;
use event_texts::Names;
use long::LongAnswer;
use recording::Recording;
use std::alloc::Global;

/// An order, an overlook or a cycle of the recording in words, with these names of its addresses: of a cycle each
/// event and why it comes before the next; of an overlook the store, the load, and what was read
/// instead; of an order each event and what makes its place lawful (Nagarajan, Sorin, Hill and Wood,
/// A Primer on Memory Consistency and Cache Coherence, second edition, chapter 4). Each event has a
/// line with its number, its core, its operation, and the values that it read and wrote. An address
/// past the last name is called by the letter a and its number. Fails only if out of memory.
pub fn explanation_text(
    alloc: Global,
    recording: &Recording,
    names: &Names,
    answer: &LongAnswer,
) -> Result<Vec<u8>, OutOfMemory>
    requires { IsWitness recording.now answer.now }
    ensures { IfOk result (λ text. IsExplanation recording.now names.now answer.now text.items) }
{
    let named = Named { recording, names };
    let mut out = Vec::new(alloc);
    match answer {
        LongAnswer::Order(order) => named.put_order(&mut out, alloc, order)?,
        LongAnswer::Overlook(load, store) => named.put_overlook(&mut out, *load, *store)?,
        LongAnswer::Cycle(cycle) => named.put_cycle(&mut out, alloc, cycle)?,
    }
    Ok(out)
}
