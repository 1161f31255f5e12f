//! A verdict that is read of a text.

ghost use Rattle.std.specs.Prelude.{◌≡◌, ◌≤◌, ◌++◌, ◌∷◌, ℕ, List, IfOk, IfSome, MatchOption};
ghost use Rattle.common.specs.declared.limits.TheConstants.{MAX_EVENTS};
ghost use Rattle.recording.specs.Execution.{event_count};
ghost use Rattle.labels.specs.Certified.{lists_of};
ghost use Rattle.verdicts.specs.declared.verdict.Verdict.{Verdict as Given};
ghost use Rattle.verdicts.specs.VerdictText.{IsVerdictText};
ghost use Rattle.verdicts.specs.Verified.{Verifies};
ghost use Rattle.long.specs.Answer.{without_labels};
ghost use Rattle.verification.specs.Proof.{Are16Bit, AreRows, AreShort, HasShortLabels, IsRow};
ghost use Rattle.verification.specs.Spelled.{HasRows, IsSameAnswer, IsSameVerdict, Spells, label_numbers, labels_after};

use crate::numbers::{labels_of, next_number, numbers};
use crate::reading::read_answer;
use common::{EventId, MAX_EVENTS, OutOfMemory};
use labels::Certificate;
use long::LongAnswer;
use recording::Recording;
use std::alloc::Global;
use texts::Cursor;
use verdicts::Verdict;

/// Reads an event and this many labels from it.
pub(crate) fn row(
    rest: &mut Cursor<'_>,
    alloc: Global,
    count: usize,
) -> Result<Option<Vec<u16>>, OutOfMemory>
    ensures short { IfOk result (λ r. IfSome r (λ v. Are16Bit v.items)) }
    ensures only { IfOk result (λ r. (event : ℕ) (labels later : List ℕ) → IsRow count labels
        → Spells ((event ∷ labels) ++ later) rest.old
        → MatchOption r ⊥ (λ v. v.items ≡ labels) × Spells later rest.new) }
{
    let _event = next_number(rest);
    let numbers = numbers(rest, alloc, count)?;
    labels_of(alloc, &numbers)
}

/// Reads this many rows of this many labels.
fn rows(
    rest: &mut Cursor<'_>,
    alloc: Global,
    count: usize,
) -> Result<Option<Vec<Vec<u16>>>, OutOfMemory>
    ensures short { IfOk result (λ r. IfSome r (λ v. AreShort (lists_of v.items))) }
    ensures only { IfOk result (λ r. (rows : List (List ℕ)) → AreRows count rows
        → Spells (label_numbers rows count) rest.old → MatchOption r ⊥ (λ v. lists_of v.items ≡ rows)) }
{
    let mut rows = Vec::with_capacity(alloc, count)?;
    for _event in 0..count {
        let Some(row) = row(rest, alloc, count)? else {
            return Ok(None);
        };
        rows.push(row)?;
    }
    Ok(Some(rows))
}

/// Reads the labels of a cycle.
fn certificate(
    rest: &mut Cursor<'_>,
    alloc: Global,
    count: usize,
    cycle: Vec<EventId>,
) -> Result<Option<Certificate>, OutOfMemory>
    ensures cycle { IfOk result (λ r. IfSome r (λ c. c.cycle.items ≡ cycle.items)) }
    ensures short { IfOk result (λ r. IfSome r (λ c. AreShort (lists_of c.rows.items))) }
    ensures only { IfOk result (λ r. (rows : List (List ℕ)) → AreRows count rows
        → Spells (label_numbers rows count) rest.old → MatchOption r ⊥ (λ c. lists_of c.rows.items ≡ rows)) }
{
    match rows(rest, alloc, count)? {
        Some(rows) => Ok(Some(Certificate { cycle, rows })),
        None => Ok(None),
    }
}

/// Reads what an answer lacks to a verdict: the labels of a cycle.
fn with_labels(
    rest: &mut Cursor<'_>,
    alloc: Global,
    count: usize,
    answer: LongAnswer,
) -> Result<Option<Verdict>, OutOfMemory>
    ensures short { IfOk result (λ r. IfSome r HasShortLabels) }
    ensures only { IfOk result (λ r. (v : Given) → IsSameAnswer (without_labels v) answer → HasRows count v
        → Spells (labels_after v) rest.old → MatchOption r ⊥ (IsSameVerdict v)) }
{
    match answer {
        LongAnswer::Order(order) => Ok(Some(Verdict::Ordered(order))),
        LongAnswer::Overlook(load, store) => Ok(Some(Verdict::Overlook { load, store })),
        LongAnswer::Cycle(cycle) => match certificate(rest, alloc, count, cycle)? {
            Some(certificate) => Ok(Some(Verdict::Cycle(certificate))),
            None => Ok(None),
        },
    }
}

/// The verdict with the numbers of a text, whatever stands between them.
pub(crate) fn read_verdict(
    alloc: Global,
    recording: &Recording,
    text: &[u8],
) -> Result<Option<Verdict>, OutOfMemory>
    requires { event_count recording.now ≤ MAX_EVENTS }
    ensures short { IfOk result (λ r. IfSome r HasShortLabels) }
    ensures only { IfOk result (λ r. (v : Given) → IsVerdictText recording.now v text.now → Verifies recording.now v
        → HasShortLabels v → MatchOption r ⊥ (IsSameVerdict v)) }
{
    recording.sound();
    let count = recording.len();
    let mut rest = Cursor::new(text);
    let Some(answer) = read_answer(&mut rest, alloc, count, count)? else {
        return Ok(None);
    };
    with_labels(&mut rest, alloc, count, answer)
}
