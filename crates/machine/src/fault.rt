//! What each fault changes.

ghost use Rattle.std.specs.Prelude.{◌≡◌, ◌<◌, length, slice_get};
ghost use Rattle.moesi.specs.State.{IsRowAnswer};
ghost use Rattle.machine.specs.Faults.{forwarded, draining, without, may_fence, may_rmw, transacted};

use crate::step::Transaction;
use common::{Addr, CoreId};
use moesi::{CacheError, Caches};
use program::Fault;
use write_buffer::{Entry, WriteBuffer};

/// The store that a load of an address gets from its core's buffer.
pub(crate) fn forwarded_store(fault: Fault, buffer: &WriteBuffer, addr: Addr) -> Option<Entry>
    ensures { result ≡ forwarded fault buffer.now.entries addr }
{
    match fault {
        Fault::NoBypass => None,
        _ => buffer.youngest(addr),
    }
}

/// The store that leaves a buffer next.
pub(crate) fn draining(fault: Fault, buffer: &WriteBuffer) -> Option<Entry>
    ensures { result ≡ slice_get buffer.now.entries (draining fault buffer.now.entries) }
{
    match fault {
        Fault::YoungestFirst => buffer.newest(),
        _ => buffer.oldest(),
    }
}

/// Takes the store that leaves a buffer next out of it.
pub(crate) fn drain(fault: Fault, buffer: &mut WriteBuffer)
    ensures entries { buffer.new.entries
        ≡ without (draining fault buffer.old.entries) buffer.old.entries }
    ensures capacity { buffer.new.capacity ≡ buffer.old.capacity }
{
    let _drained = match fault {
        Fault::YoungestFirst => buffer.pop_youngest(),
        _ => buffer.pop_oldest(),
    };
}

/// Whether a fence may go on.
pub(crate) fn may_fence(fault: Fault, buffer: &WriteBuffer) -> bool
    ensures { result ≡ may_fence fault buffer.now.entries }
{
    match fault {
        Fault::OpenFence => true,
        _ => buffer.is_empty(),
    }
}

/// Whether a read-modify-write, also a compare-and-swap, may go on.
pub(crate) fn may_rmw(fault: Fault, buffer: &WriteBuffer) -> bool
    ensures { result ≡ may_rmw fault buffer.now.entries }
{
    match fault {
        Fault::EarlyRmw => true,
        _ => buffer.is_empty(),
    }
}

/// Makes a transaction of a core's line, where the caches allow it.
#[inline(always)]
pub(crate) fn transact(
    fault: Fault,
    caches: &mut Caches,
    kind: Transaction,
    core: CoreId,
    addr: Addr,
) -> Result<(), CacheError>
    requires core { core < caches.old.cores }
    requires address { addr < length caches.old.blocks }
    ensures { IsRowAnswer (transacted fault kind caches.old core addr) caches.old caches.new result }
{
    match kind {
        Transaction::GetS => caches.get_s(core, addr),
        Transaction::GetM => match fault {
            Fault::StaleShare => caches.get_m_stale(core, addr),
            _ => caches.get_m(core, addr),
        },
        Transaction::Put => caches.put(core, addr),
    }
}
