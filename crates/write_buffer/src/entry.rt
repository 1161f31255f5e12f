//! What waits in a store buffer.
ghost use Rattle.std.specs.Prelude.{◌≡◌, ◌==◌, if◌then◌else◌, Option, Some};

use common::{Addr, EventId};

/// A store that has not reached memory.
#[derive(Clone, Copy, PartialEq, Eq)]
pub struct Entry {
    /// The address that it writes.
    pub addr: Addr,
    /// The value that it writes, of 32 bits.
    pub value: u32,
    /// The number of its event; in a machine it is below `MAX_EVENTS`.
    pub event: EventId,
}

impl Entry {
    /// This entry where it is of the address, or else what was found before.
    pub(crate) fn or_before(&self, addr: Addr, found: Option<Entry>) -> Option<Entry>
        ensures { result ≡ (if self.now.addr == addr then Some self.now else found) }
    {
        if self.addr == addr {
            Some(*self)
        } else {
            found
        }
    }
}
