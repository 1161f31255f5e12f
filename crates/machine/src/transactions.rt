//! The rows of transactions in the table of steps.

use crate::blocked::Blocked;
use crate::fault::transact;
use crate::machine::Machine;
use crate::step::Transaction;
use common::{Addr, CoreId};

impl Machine {
    ghost use Rattle.std.specs.Prelude.{◌≡◌};
    ghost use Rattle.machine.specs.ScriptLine.{transaction_step};
    ghost use Rattle.machine.specs.Step.{has};
    ghost use Rattle.machine.specs.Configuration.{answer_of, IsStepAnswer};

    /// Whether there is such a core and such an address.
    fn has(&self, core: CoreId, addr: Addr) -> bool
        ensures { result ≡ has self.now.program.cores self.now.state core addr }
    {
        (core as usize) < self.program.cores() && (addr as usize) < self.program.names().len()
    }

    /// Makes a transaction of the core's line of an address.
    #[inline(always)]
    pub(crate) fn transact(
        &mut self,
        kind: Transaction,
        core: CoreId,
        addr: Addr,
    ) -> Result<(), Blocked>
        ensures { IsStepAnswer (answer_of self.old (transaction_step kind core addr)) self.old self.new result }
    {
        if !self.has(core, addr) {
            return Err(Blocked::B8);
        }
        let Ok(()) = transact(self.fault, &mut self.caches, kind, core, addr) else {
            return Err(Blocked::B7);
        };
        Ok(())
    }
}
