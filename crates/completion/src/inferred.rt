//! What rules show of the order of events.

use crate::cause::Link;
use crate::pairs::{close, no_pairs, put};
use bitrow::BitRow;
use common::OutOfMemory;
use std::alloc::Global;
use values::Values;

/// Pairs of events that rules show to be in order.
#[derive(Drop)]
pub struct Inferred {
    /// For each event by its number those that come after it.
    pub rows: Vec<BitRow>,
    /// The pairs that a rule put, in the order in which it did, with their causes.
    pub links: Vec<Link>,
}

impl Inferred {
    ghost use Rattle.std.specs.Prelude.{◌≡◌, IfOk, OnOk};
    ghost use Rattle.completion.specs.Inferred.{AreInferred, IsLink};

    /// Nothing yet of this many events. Fails only if out of memory.
    pub(crate) fn none(
        alloc: Global,
        values: &Values,
        count: usize,
    ) -> Result<Inferred, OutOfMemory>
        ensures { IfOk result (AreInferred values.now) }
    {
        let _values = values;
        let rows = no_pairs(alloc, count)?;
        Ok(Inferred {
            rows,
            links: Vec::new(alloc),
        })
    }

    /// Puts a pair, if both events are there and it is not shown. Whether it is new.
    pub(crate) fn put(&mut self, values: &Values, link: Link) -> Result<bool, OutOfMemory>
        requires inferred { AreInferred values.now self.old }
        requires link { IsLink values.now link }
        ensures { OnOk result (AreInferred values.now self.new) }
    {
        let _values = values;
        if !put(self.rows.as_mut_slice(), link.first, link.second) {
            return Ok(false);
        }
        self.links.push(link)?;
        Ok(true)
    }

    /// Puts all pairs that follow by two pairs. Fails only if out of memory.
    pub(crate) fn close(&mut self, alloc: Global, values: &Values) -> Result<(), OutOfMemory>
        requires { AreInferred values.now self.old }
        ensures { OnOk result (AreInferred values.now self.new) }
    {
        let _values = values;
        close(alloc, self.rows.as_mut_slice())
    }
}
