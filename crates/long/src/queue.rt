//! Keys, of which the greatest is taken first.

ghost use Rattle.std.specs.Prelude.{◌↔◌, ◌<◌, ◌≤◌, ℕ, IsTrue};
ghost use Rattle.std.specs.BinaryHeap.{IsHeap, heap_items};
ghost use Rattle.std.specs.Ordering.{nat_cmp};
ghost use Rattle.recording.specs.Order.{times};

use common::OutOfMemory;
use std::alloc::Global;
use std::collections::BinaryHeap;
use std::marker::Model;

/// Keys, of which the greatest is taken first. One may be held apart: a key that is put and taken next takes no way
/// through the heap.
#[derive(Drop)]
pub(crate) struct KeyQueue {
    heap: BinaryHeap<u32>,
    held: Option<u32>,
}

impl Model for KeyQueue {
    ghost use Rattle.std.specs.Prelude.{ℕ, List};
    ghost use Rattle.std.specs.BinaryHeap.{IsHeap, heap_items};
    ghost use Rattle.std.specs.Ordering.{nat_cmp};
    ghost use Rattle.long.specs.Ready.{with_held};

    ghost Value = { List ℕ };

    ghost view = { λ q. with_held q.held (heap_items q.heap) };

    ghost invariant = { λ q. IsHeap nat_cmp (heap_items q.heap) };
}

/// Whether no key of a heap is greater than one.
fn is_over(heap: &BinaryHeap<u32>, key: u32) -> bool
    ensures { IsHeap nat_cmp (heap_items heap.now)
        → IsTrue result ↔ ((k : ℕ) → 0 < times (heap_items heap.now) k → k ≤ key) }
{
    match heap.peek() {
        Some(top) => *top <= key,
        None => true,
    }
}

impl KeyQueue {
    ghost use Rattle.std.specs.Prelude.{◌≡◌, ◌≤◌, ◌<◌, ◌∷◌, ℕ, [], OnErr, OnOk, MatchOption};
    ghost use Rattle.recording.specs.Order.{times};

    /// No keys.
    pub(crate) fn new(alloc: Global) -> KeyQueue
        ensures { result ≡ [] }
    {
        KeyQueue {
            heap: BinaryHeap::new(alloc),
            held: None,
        }
    }

    /// Puts a key.
    pub(crate) fn put(&mut self, key: u32) -> Result<(), OutOfMemory>
        ensures put { OnOk result ((k : ℕ) → times self.new k ≡ times (key ∷ self.old) k) }
        ensures unchanged { OnErr result (self.new ≡ self.old) }
    {
        let Some(held) = self.held else {
            self.held = Some(key);
            return Ok(());
        };
        if key <= held {
            self.heap.push(key)?;
            return Ok(());
        }
        self.heap.push(held)?;
        self.held = Some(key);
        Ok(())
    }

    /// Takes the greatest key; none where there is none.
    pub(crate) fn take(&mut self) -> Option<u32>
        ensures taken { MatchOption result (self.old ≡ [])
            (λ key. (k : ℕ) → times self.old k ≡ times (key ∷ self.new) k) }
        ensures greatest { MatchOption result (self.new ≡ [])
            (λ key. (k : ℕ) → 0 < times self.old k → k ≤ key) }
    {
        let Some(held) = self.held else {
            return self.heap.pop();
        };
        if !is_over(&self.heap, held) {
            return self.heap.pop();
        }
        self.held = None;
        Some(held)
    }
}
