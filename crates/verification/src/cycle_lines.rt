//! The lines of the pairs of a cycle that hold.

ghost use Rattle.std.specs.Prelude.{◌≡◌, ◌++◌, ◌∷◌, ℕ, List, Option, Some, IfSome, IfOk, codes};
ghost use Rattle.recording.specs.Recording.{IsRecording};
ghost use Rattle.relations.specs.declared.reason.Reason.{Reason as Given};
ghost use Rattle.relations.specs.Forced.{IsReason};
ghost use Rattle.verdicts.specs.VerdictText.{pair_line, reason_name};
ghost use Rattle.verification.specs.Held.{ArePairsHeld, IsCycleHeld};
ghost use Rattle.verification.specs.Spelled.{HasNoDigit};

use crate::numbers::next_number;
use common::{EventId, OutOfMemory};
use relations::{Places, Reason};
use std::alloc::Global;
use texts::{Cursor, put_text_and_number};
use verdicts::put_reason;

/// The event to which the next line leads from an event, and the first reason of their pair, if it is forced.
fn next_pair(
    places: &Places<'_>,
    rest: &mut Cursor<'_>,
    event: EventId,
) -> Option<(EventId, Reason)>
    requires { IsRecording places.now }
    ensures found { IfSome result (λ p. IsReason places.now event p.0 (Some p.1)) }
    ensures only { (gap more : List ℕ) (next : ℕ) (reason : Given) → HasNoDigit gap
        → IsReason places.now event next (Some reason) → rest.old ≡ gap ++ (pair_line event next reason ++ more)
        → (result ≡ Some (next, reason)) × (rest.new ≡ 32 ∷ (reason_name reason ++ 10 ∷ more)) }
{
    let _event = next_number(rest);
    let Some(next) = next_number(rest) else {
        return None;
    };
    let Some(reason) = places.reason(event, next) else {
        return None;
    };
    Some((next, reason))
}

/// Adds the lines of the pairs of a cycle of this length, as far as they hold, and says whether all do.
fn put_pairs_that_hold(
    out: &mut Vec<u8>,
    places: &Places<'_>,
    rest: &mut Cursor<'_>,
    size: usize,
) -> Result<bool, OutOfMemory>
    requires { IsRecording places.now }
    ensures { IfOk result (λ all. ArePairsHeld places.now size rest.old out.old.items out.new.items rest.new all) }
{
    let mut ahead = Cursor::new(rest.rest());
    let Some(first) = next_number(&mut ahead) else {
        return Ok(false);
    };
    let mut last = first;
    for i in 0..size {
        let Some((next, reason)) = next_pair(places, rest, last) else {
            return Ok(false);
        };
        if i + 1 == size && next != first {
            return Ok(false);
        }
        put_reason(out, last, next, reason)?;
        last = next;
    }
    Ok(true)
}

/// Adds the length of a cycle of at most this many events, which stands next, and the lines of its pairs, as far as
/// they hold, and gives the length if all do.
pub(crate) fn put_cycle_that_holds(
    out: &mut Vec<u8>,
    places: &Places<'_>,
    rest: &mut Cursor<'_>,
    most: usize,
) -> Result<Option<usize>, OutOfMemory>
    requires { IsRecording places.now }
    ensures { IfOk result (IsCycleHeld places.now most (codes "cycle of " ++ rest.old) out.old.items out.new.items
        rest.new) }
{
    let Some(size) = rest.number() else {
        return Ok(None);
    };
    if size == 0 || size > most as u64 {
        return Ok(None);
    }
    let size = size as usize;
    put_text_and_number(out, b"cycle of ", size)?;
    out.push(b'\n')?;
    let all = put_pairs_that_hold(out, places, rest, size)?;
    if !all {
        return Ok(None);
    }
    Ok(Some(size))
}
