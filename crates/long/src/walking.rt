//! A cycle of the events that were left open.

ghost use Rattle.std.specs.Prelude.{◌≡◌, ◌<◌, ◌-◌, ◌^◌, ℕ, IfOk, length, slice_index};
ghost use Rattle.recording.specs.Execution.{Execution};
ghost use Rattle.recording.specs.Order.{times};
ghost use Rattle.relations.specs.Cycle.{IsCycle};
ghost use Rattle.relations.specs.Forced.{Forced};
ghost use Rattle.long.specs.Chains.{times_kept};
ghost use Rattle.long.specs.Walks.{IsBlocked, IsClosedStack, IsOpenEvent, IsWalk};

use crate::open::befores;
use crate::pairs::Pairs;
use common::{EventId, OutOfMemory};
use std::alloc::Global;

/// The first event with one before it.
fn first_with(befores: &[u32]) -> EventId
    requires few { length befores.now < 2 ^ 32 }
    requires some { (e : ℕ) × (0 < slice_index befores.now e) }
    ensures { 0 < slice_index befores.now result }
{
    for event in 0..befores.len() {
        if befores[event] > 0 {
            return event as EventId;
        }
    }
    unreachable!()
}

/// The events from one on, each the one before the event below it, as long as they differ, and the one before the last
/// of them, which stands among them.
fn walk(
    alloc: Global,
    befores: &[u32],
    start: EventId,
) -> Result<(Vec<EventId>, EventId), OutOfMemory>
    requires start { 0 < slice_index befores.now start }
    requires back { (e : ℕ) → 0 < slice_index befores.now e
        → 0 < slice_index befores.now (slice_index befores.now e - 1) }
    ensures { IfOk result (λ r. IsWalk befores.now r.0.items r.1) }
{
    let mut seen = vec![in alloc; false; befores.len()]?;
    let mut stack = Vec::new(alloc);
    let mut at = start;
    'back: while !seen[at as usize] {
        seen[at as usize] = true;
        stack.push(at)?;
        at = befores[at as usize] - 1;
    }
    Ok((stack, at))
}

/// The events of a stack from the last one back to one that stands on it.
fn cycle_of(alloc: Global, stack: &[EventId], first: EventId) -> Result<Vec<EventId>, OutOfMemory>
    requires { 0 < times stack.now first }
    ensures { IfOk result (λ cycle. (x : Execution) → IsClosedStack x stack.now first
        → IsCycle (Forced x) cycle.items) }
{
    let mut cycle = Vec::new(alloc);
    for i in 0..stack.len() {
        let event = stack[stack.len() - 1 - i];
        cycle.push(event)?;
        if event == first {
            return Ok(cycle);
        }
    }
    unreachable!()
}

/// A cycle of open events, each the first of a pair with the next, where each open event is the second of a pair of
/// one.
pub(crate) fn cycle_left(
    alloc: Global,
    pairs: &Pairs,
    counts: &[u32],
) -> Result<Vec<EventId>, OutOfMemory>
    requires few { length counts.now < 2 ^ 32 }
    requires within { (d f : ℕ) → 0 < times_kept pairs.now d f → f < length counts.now }
    requires blocked { IsBlocked pairs.now counts.now }
    requires left { (e : ℕ) × IsOpenEvent counts.now e }
    ensures { IfOk result (λ cycle. (x : Execution)
        → ((d e : ℕ) → 0 < times_kept pairs.now d e → Forced x d e) → IsCycle (Forced x) cycle.items) }
{
    let befores = befores(alloc, pairs, counts)?;
    let start = first_with(&befores);
    let (stack, first) = walk(alloc, &befores, start)?;
    cycle_of(alloc, &stack, first)
}
