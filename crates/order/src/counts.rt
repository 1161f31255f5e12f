//! How many events at or before each are still open, before any is placed.

ghost use Rattle.std.specs.Prelude.{◌≡◌, ◌<◌, ◌+◌, ◌^◌, ℕ, [], IfOk, length, slice_index};
ghost use Rattle.bitrow.specs.Bits.{is_in};
ghost use Rattle.order.specs.Open.{one_if, relates_once, IsOpen};

use bitrow::BitRow;
use common::OutOfMemory;
use relations::Relation;
use std::alloc::Global;

/// One more for each event of a set.
fn add_set(counts: &mut [u16], set: &BitRow)
    requires size { length set.now ≡ length counts.old }
    requires room { (f : ℕ) → f < length counts.old → slice_index counts.old f + 1 < 2 ^ 16 }
    ensures size { length counts.new ≡ length counts.old }
    ensures more { (f : ℕ) → f < length counts.old → slice_index counts.new f
        ≡ slice_index counts.old f + one_if (is_in set.now f) }
{
    let mut events = set.numbers();
    while let Some(event) = events.next() {
        counts[event] += 1;
    }
}

/// How many events are open at or before each, before any is placed.
pub(crate) fn count_all(alloc: Global, relation: &Relation) -> Result<Vec<u16>, OutOfMemory>
    ensures { IfOk result (λ counts. IsOpen (relates_once relation.now) (length relation.now) [] counts.items) }
{
    relation.sound();
    let len = relation.len();
    let successors = relation.successors();
    let mut counts = vec![in alloc; 1; len]?;
    for event in 0..len {
        add_set(&mut counts, &successors[event]);
    }
    Ok(counts)
}
