//! The store buffer of one core.
ghost use Rattle.write_buffer.specs.Buffer.{youngest};
ghost use Rattle.std.specs.Prelude.{◌≡◌};

use crate::entry::Entry;
use circular_buffer::HeapCircularBuffer;
use common::{Addr, OutOfMemory};
use std::alloc::Global;
use std::marker::Model;

/// The stores of one core that have not reached memory, oldest first (Nagarajan, Sorin, Hill and
/// Wood, A Primer on Memory Consistency and Cache Coherence, second edition, chapter 4).
#[derive(Drop)]
pub struct WriteBuffer {
    ring: HeapCircularBuffer<Entry>,
}

impl Model for WriteBuffer {
    ghost use Rattle.write_buffer.specs.Buffer.{Buffer};

    ghost Value = { Buffer };

    ghost view = { λ b. record { entries = b.ring.items; capacity = b.ring.capacity } };
}

impl WriteBuffer {
    ghost use Rattle.std.specs.Prelude.{◌≡◌, ◌<◌, ◌-◌, ◌↔◌, ◌++◌, ◌∷◌, [], IfOk, OnOk, IfErr, IfNone, IfSome};
    ghost use Rattle.std.specs.Prelude.{IsOk, IsTrue, length, slice_get};
    ghost use Rattle.write_buffer.specs.Buffer.{Buffer, youngest};

    /// An empty buffer for this many entries. Fails only if out of memory, also where no memory could hold them.
    pub fn new(alloc: Global, capacity: usize) -> Result<WriteBuffer, OutOfMemory>
        ensures { IfOk result (λ b. b ≡ record { entries = []; capacity = capacity }) }
    {
        let ring = HeapCircularBuffer::with_capacity(alloc, capacity)?;
        Ok(WriteBuffer { ring })
    }

    /// Adds the youngest entry. A full buffer gives the entry back and stays as it is.
    pub fn push(&mut self, entry: Entry) -> Result<(), Entry>
        ensures variant { IsOk result ↔ (length self.old.entries < self.old.capacity) }
        ensures ok { OnOk result (self.new ≡ record self.old { entries = self.old.entries ++ entry ∷ [] }) }
        ensures err { IfErr result (λ x. (x ≡ entry) × (self.new ≡ self.old)) }
    {
        self.ring.try_push_back(entry)
    }

    /// The youngest entry of an address, which a load of its core reads before memory; none where none
    /// waits.
    pub fn youngest(&self, addr: Addr) -> Option<Entry>
        ensures { result ≡ youngest self.now.entries addr }
    {
        youngest_in(&self.ring, addr)
    }

    /// The oldest entry; none where none waits.
    pub fn oldest(&self) -> Option<Entry>
        ensures { result ≡ slice_get self.now.entries 0 }
    {
        self.ring.front().copied()
    }

    /// The entry that was added last, of any address; none where none waits.
    pub fn newest(&self) -> Option<Entry>
        ensures { result ≡ slice_get self.now.entries (length self.now.entries - 1) }
    {
        self.ring.back().copied()
    }

    /// Removes the oldest entry and returns it; none where none waits.
    pub fn pop_oldest(&mut self) -> Option<Entry>
        ensures some { IfSome result (λ x. self.old.entries ≡ x ∷ self.new.entries) }
        ensures none { IfNone result ((self.old.entries ≡ []) × (self.new ≡ self.old)) }
        ensures capacity { self.new.capacity ≡ self.old.capacity }
    {
        self.ring.pop_front()
    }

    /// Removes the youngest entry and returns it; none where none waits.
    pub fn pop_youngest(&mut self) -> Option<Entry>
        ensures some { IfSome result (λ x. self.old.entries ≡ self.new.entries ++ x ∷ []) }
        ensures none { IfNone result ((self.old.entries ≡ []) × (self.new ≡ self.old)) }
        ensures capacity { self.new.capacity ≡ self.old.capacity }
    {
        self.ring.pop_back()
    }

    /// Whether no entry waits.
    pub fn is_empty(&self) -> bool
        ensures { IsTrue result ↔ (self.now.entries ≡ []) }
    {
        self.ring.is_empty()
    }
}

fn youngest_in(ring: &HeapCircularBuffer<Entry>, addr: Addr) -> Option<Entry>
    ensures { result ≡ youngest ring.now.items addr }
{
    let mut found = None;
    for i in 0..ring.len() {
        if let Some(entry) = ring.get(i) {
            found = entry.or_before(addr, found);
        }
    }
    found
}
