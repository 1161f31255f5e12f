//! For each event that was left open one that is open before it.

ghost use Rattle.std.specs.Prelude.{◌≡◌, ◌<◌, ◌+◌, ◌^◌, ℕ, IfOk, length, slice_index};
ghost use Rattle.long.specs.Chains.{times_kept};
ghost use Rattle.long.specs.Walks.{AreBefore, IsBlocked};

use crate::pairs::Pairs;
use common::{EventId, OutOfMemory};
use std::alloc::Global;

/// Puts one more than an event at each second event of its pairs.
fn put_seconds(pairs: &Pairs, event: EventId, befores: &mut [u32])
    requires within { (f : ℕ) → 0 < times_kept pairs.now event f → f < length befores.old }
    requires few { event + 1 < 2 ^ 32 }
    ensures size { length befores.new ≡ length befores.old }
    ensures here { (f : ℕ) → 0 < times_kept pairs.now event f → slice_index befores.new f ≡ event + 1 }
    ensures others { (f : ℕ) → times_kept pairs.now event f ≡ 0
        → slice_index befores.new f ≡ slice_index befores.old f }
{
    let mut head = pairs.head(event);
    'chain: while head > 0 {
        let (second, next) = pairs.link(head);
        befores[second as usize] = event + 1;
        head = next;
    }
}

/// For each open event one more than an open event that it is the second of a pair of; 0 where there is none.
pub(crate) fn befores(alloc: Global, pairs: &Pairs, counts: &[u32]) -> Result<Vec<u32>, OutOfMemory>
    requires few { length counts.now < 2 ^ 32 }
    requires within { (d f : ℕ) → 0 < times_kept pairs.now d f → f < length counts.now }
    requires blocked { IsBlocked pairs.now counts.now }
    ensures { IfOk result (λ befores. AreBefore pairs.now counts.now befores.items) }
{
    let mut befores = vec![in alloc; 0; counts.len()]?;
    for event in 0..counts.len() {
        if counts[event] > 0 {
            put_seconds(pairs, event as EventId, &mut befores);
        }
    }
    Ok(befores)
}
