//! The events that are kept on each core.

ghost use Rattle.std.specs.Prelude.{◌≡◌, IfOk, map};
ghost use Rattle.reduction.specs.Restriction.{on_core, used_cores};

use common::{CoreId, EventId, OutOfMemory};
use recording::Recording;
use std::alloc::Global;

/// The events that are kept on a core.
fn on_core(
    alloc: Global,
    recording: &Recording,
    core: CoreId,
    kept: &[EventId],
) -> Result<Vec<EventId>, OutOfMemory>
    ensures { IfOk result (λ events. events.items ≡ on_core recording.now core kept.now) }
{
    let mut events = Vec::new(alloc);
    for number in kept {
        if recording.core_of(*number) == core {
            events.push(*number)?;
        }
    }
    Ok(events)
}

/// The events that are kept, core by core; a core without any goes.
pub(crate) fn used_cores(
    alloc: Global,
    recording: &Recording,
    kept: &[EventId],
) -> Result<Vec<Vec<EventId>>, OutOfMemory>
    ensures { IfOk result (λ cores. map (λ v. v.items) cores.items ≡ used_cores recording.now kept.now) }
{
    recording.sound();
    let mut cores = Vec::new(alloc);
    for core in 0..recording.cores().len() {
        let events = on_core(alloc, recording, core as CoreId, kept)?;
        if !events.is_empty() {
            cores.push(events)?;
        }
    }
    Ok(cores)
}
