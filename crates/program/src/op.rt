//! Operations, and lists of them.

ghost use Rattle.std.specs.Prelude.{◌≡◌, IfOk};

use common::{Addr, OutOfMemory};
use std::alloc::Global;
use std::marker::Model;

/// One operation of a core. (Nagarajan, Sorin, Hill and Wood, A Primer on Memory Consistency and
/// Cache Coherence, second edition, chapter 4.)
#[derive(Clone, Copy, PartialEq, Eq)]
pub enum Op {
    /// A store of a value of 32 bits.
    St(Addr, u32),
    /// A load of the value.
    Ld(Addr),
    /// A FENCE: it waits until the store buffer of its core is empty.
    Fence,
    /// An atomic read-modify-write: reads the old value, and writes this one.
    Swap(Addr, u32),
    /// An atomic read-modify-write: reads the old value, and writes its sum with this one, modulo
    /// 2^32.
    Add(Addr, u32),
    /// An atomic compare-and-swap: reads the old value and, where that is the first value, writes the
    /// second; else it writes nothing.
    Cas(Addr, u32, u32),
}

/// The operations of one core, in program order.
#[derive(Drop)]
pub struct Ops {
    list: Vec<Op>,
}

impl Model for Ops {
    ghost use Rattle.std.specs.Prelude.{List};
    ghost use Rattle.program.specs.declared.op.Op.{Op};

    ghost Value = { List Op };

    ghost view = { λ o. o.list.items };
}

impl Ops {
    ghost use Rattle.std.specs.Prelude.{◌≡◌, ◌++◌, ◌∷◌, [], IfOk, OnOk, OnErr};

    /// No operation.
    pub fn new(alloc: Global) -> Ops
        ensures { result ≡ [] }
    {
        Ops {
            list: Vec::new(alloc),
        }
    }

    /// The operations of a list, in memory of their own. Fails only if out of memory.
    pub fn copy_of(alloc: Global, list: &[Op]) -> Result<Ops, OutOfMemory>
        ensures { IfOk result (λ ops. ops ≡ list.now) }
    {
        let list = Vec::from_slice(alloc, list)?;
        Ok(Ops { list })
    }

    /// Adds an operation at the end. Where there is no memory, nothing changes.
    pub fn push(&mut self, op: Op) -> Result<(), OutOfMemory>
        ensures ok { OnOk result (self.new ≡ self.old ++ op ∷ []) }
        ensures err { OnErr result (self.new ≡ self.old) }
    {
        self.list.push(op)?;
        Ok(())
    }

    /// The operations in program order.
    pub fn as_slice(&self) -> &[Op]
        ensures { result.now ≡ self.now }
    {
        &self.list
    }
}

/// A copy of these operations.
pub(crate) fn copies_of(alloc: Global, cores: &[Ops]) -> Result<Vec<Ops>, OutOfMemory>
    ensures { IfOk result (λ copies. copies.items ≡ cores.now) }
{
    let mut copies = Vec::new(alloc);
    for core in cores {
        copies.push(Ops::copy_of(alloc, core.as_slice())?)?;
    }
    Ok(copies)
}
