//! The answer to a recording.

ghost use Rattle.std.specs.Prelude.{◌≡◌, IfOk};
ghost use Rattle.long.specs.Answer.{IsJudged, without_labels};

use crate::cut::cut;
use crate::first::{FirstOrder, first_order};
use crate::walking::cycle_left;
use common::{EventId, OutOfMemory};
use labels::Certificate;
use recording::Recording;
use relations::Places;
use std::alloc::Global;
use verdicts::Verdict;

/// What is answered to a recording.
#[derive(Drop)]
pub enum LongAnswer {
    /// The first memory order of TSO in dictionary order that explains it.
    Order(Vec<EventId>),
    /// The least read that overlooks a store of its own core, and the least store that it overlooks.
    Overlook(EventId, EventId),
    /// A cycle of forced pairs of which no event is forced before another than its next.
    Cycle(Vec<EventId>),
}

/// What is answered to a recording, with what the text of the answer asks.
#[derive(Drop)]
pub struct Judged<'a> {
    /// What is answered.
    pub answer: LongAnswer,
    /// Where the answer is a cycle, the places of the events, which tell the reasons of its pairs.
    pub places: Option<Places<'a>>,
}

/// Whether TSO allows a recording, with what shows it: its least overlook if there is one, else a cycle of forced pairs
/// of which no event is forced before another than its next, if there is one, else its first memory order of TSO in
/// dictionary order (Nagarajan, Sorin, Hill and Wood, A Primer on Memory Consistency and Cache
/// Coherence, second edition, chapter 4). Other cycles may be shorter. The time is nearly linear in the number of
/// events, which no clause says. It does not block. Fails only if out of memory.
pub fn judge_long<'a>(alloc: Global, recording: &'a Recording) -> Result<Judged<'a>, OutOfMemory>
    ensures { IfOk result (IsJudged recording.now) }
{
    match first_order(alloc, recording)? {
        FirstOrder::Order(order) => Ok(Judged {
            answer: LongAnswer::Order(order),
            places: None,
        }),
        FirstOrder::Overlook(load, store) => Ok(Judged {
            answer: LongAnswer::Overlook(load, store),
            places: None,
        }),
        FirstOrder::Cyclic(left) => {
            let places = Places::of(alloc, recording)?;
            let cycle = cycle_left(alloc, &left.pairs, left.waiting.counts())?;
            let answer = LongAnswer::Cycle(cut(alloc, &places, &cycle)?);
            Ok(Judged {
                answer,
                places: Some(places),
            })
        }
    }
}

/// What a verdict says of a recording, without the labels of its cycle.
pub fn without_labels(verdict: Verdict) -> LongAnswer
    ensures { result ≡ without_labels verdict }
{
    match verdict {
        Verdict::Ordered(order) => LongAnswer::Order(order),
        Verdict::Overlook { load, store } => LongAnswer::Overlook(load, store),
        Verdict::Cycle(Certificate { cycle, .. }) => LongAnswer::Cycle(cycle),
    }
}
