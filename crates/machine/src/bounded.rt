//! Lists with room made beforehand.

use common::OutOfMemory;
use std::alloc::Global;
use std::marker::Model;

/// A list that never grows past its room.
#[derive(Drop)]
pub(crate) struct BoundedList<T: Drop> {
    items: Vec<T>,
    most: usize,
}

impl<T: Drop> Model for BoundedList<T> {
    ghost use Rattle.std.specs.Prelude.{◌≤◌, vec_capacity, vec_len};
    ghost use Rattle.machine.specs.Configuration.{BoundedItems};

    ghost Value = { BoundedItems T };

    ghost view = { λ b. record { items = b.items.items; room = b.most } };

    ghost invariant = { λ b. (vec_len b.items ≤ b.most) × (b.most ≤ vec_capacity b.items) };
}

impl<T: Drop> BoundedList<T> {
    ghost use Rattle.std.specs.Prelude.{◌≡◌, ◌<◌, ◌++◌, ◌∷◌, [], length, IfOk};

    /// An empty list with this room.
    pub(crate) fn new(alloc: Global, room: usize) -> Result<BoundedList<T>, OutOfMemory>
        ensures { IfOk result (λ b. b ≡ record { items = []; room = room }) }
    {
        let items = Vec::with_capacity(alloc, room)?;
        Ok(BoundedList { items, most: room })
    }

    /// The items, first to last.
    pub(crate) fn as_slice(&self) -> &[T]
        ensures { result.now ≡ self.now.items }
    {
        self.items.as_slice()
    }

    /// Adds an item at the end, where there is room. It takes no memory.
    pub(crate) fn push(&mut self, x: T)
        requires { length self.old.items < self.old.room }
        ensures { self.new ≡ record { items = self.old.items ++ x ∷ []; room = self.old.room } }
    {
        if self.items.push(x).is_err() {
            unreachable!()
        }
    }

    /// The items alone.
    pub(crate) fn into_items(self) -> Vec<T>
        ensures { result.items ≡ self.items }
    {
        self.items
    }
}
