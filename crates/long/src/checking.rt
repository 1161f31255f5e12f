//! The check of a list against the rules of TSO.

ghost use Rattle.std.specs.Prelude.{◌<◌, ◌^◌, ◌↔◌, ℕ, IsTrue, IfOk, MatchOption, length};
ghost use Rattle.recording.specs.Order.{Enumerates};
ghost use Rattle.recording.specs.Tso.{IsTsoOrder};
ghost use Rattle.long.specs.Chains.{times_listed};
ghost use Rattle.long.specs.Positions.{ArePositions, AreInOrder};

use crate::linking::link_all;
use crate::newest::overlook;
use common::{EventId, OutOfMemory};
use recording::Recording;
use relations::forced_is_exact;
use std::alloc::Global;

/// For each number below a count its place in a list that has each once and nothing else; none for any other list.
fn positions(
    alloc: Global,
    order: &[EventId],
    count: usize,
) -> Result<Option<Vec<u32>>, OutOfMemory>
    requires { count < 2 ^ 32 }
    ensures { IfOk result (λ found. MatchOption found (¬ Enumerates (λ e. e < count) order.now)
        (λ v. Enumerates (λ e. e < count) order.now × ArePositions order.now count v.items)) }
{
    if order.len() != count {
        return Ok(None);
    }
    let mut positions = vec![in alloc; count as u32; count]?;
    for place in 0..count {
        let event = order[place] as usize;
        if event >= count {
            return Ok(None);
        }
        if (positions[event] as usize) < count {
            return Ok(None);
        }
        positions[event] = place as u32;
    }
    Ok(Some(positions))
}

/// Whether pairs are in order, by the places of their events.
fn all_follow(list: &[(EventId, EventId)], positions: &[u32]) -> bool
    requires { (d f : ℕ) → 0 < times_listed list.now d f
        → (d < length positions.now) × (f < length positions.now) }
    ensures { IsTrue result ↔ AreInOrder list.now positions.now }
{
    for place in 0..list.len() {
        let (first, second) = list[place];
        if positions[second as usize] <= positions[first as usize] {
            return false;
        }
    }
    true
}

/// Whether a list of any numbers is a memory order that TSO allows for a recording. The time is linear in the number of
/// events and in the length of the list, which no clause says. Fails only if out of memory.
pub fn is_tso_order(
    alloc: Global,
    recording: &Recording,
    order: &[EventId],
) -> Result<bool, OutOfMemory>
    ensures { IfOk result (λ is. IsTrue is ↔ IsTsoOrder recording.now order.now) }
{
    recording.sound();
    forced_is_exact();
    let Some(positions) = positions(alloc, order, recording.len())? else {
        return Ok(false);
    };
    if let Some(_found) = overlook(alloc, recording)? {
        return Ok(false);
    }
    let linked = link_all(alloc, recording)?;
    Ok(all_follow(&linked.list, &positions))
}
