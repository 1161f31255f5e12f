//! Steps that the machine takes, and runs.

use crate::blocked::Blocked;
use crate::law::faults_change_one_row;
use crate::machine::Machine;
use crate::step::{Step, Transaction};
use common::{CoreId, EventId};
use program::Op;

impl Machine {
    ghost use Rattle.std.specs.Prelude.{◌≡◌, Ok, Err, IfOk, OnOk, OnErr, IfErr, length};
    ghost use Rattle.program.specs.Parts.{IsWithin};
    ghost use Rattle.machine.specs.declared.step.Step.TheVariants.{Exec};
    ghost use Rattle.machine.specs.Configuration.{answer_of, state_after, IsNextOf, IsStepAnswer};
    ghost use Rattle.machine.specs.OneRow.{EveryFaultChangesOneRow};

    /// The next operation of a core, and the number of its event.
    fn next_op(&self, core: CoreId) -> Result<(Op, EventId), Blocked>
        ensures at { IfOk result (λ n. IsNextOf self.now core n.0 n.1) }
        ensures within { IfOk result (λ n. IsWithin (length self.now.program.names) n.0) }
        ensures blocked { IfErr result (λ b. answer_of self.now (Exec core) ≡ Err b) }
    {
        if core as usize >= self.program.cores() {
            return Err(Blocked::B8);
        }
        match self.units[core as usize].next(self.program.ops(core)) {
            Some(next) => Ok(next),
            None => Err(Blocked::B1),
        }
    }

    /// Executes the next operation of a core.
    fn exec(&mut self, core: CoreId) -> Result<(), Blocked>
        ensures { IsStepAnswer (answer_of self.old (Exec core)) self.old self.new result }
    {
        let (op, event) = self.next_op(core)?;
        match op {
            Op::St(addr, value) => self.store(core, event, addr, value),
            Op::Ld(addr) => self.load(core, event, addr),
            Op::Fence => self.fence(core, event),
            Op::Swap(addr, _) => self.read_modify_write(core, event, op, addr),
            Op::Add(addr, _) => self.read_modify_write(core, event, op, addr),
            Op::Cas(addr, expected, value) => {
                self.compare_and_swap(core, event, addr, expected, value)
            }
        }
    }

    /// Takes one step, or answers the first guard that is false and changes nothing. Each fault changes one
    /// row of the table of steps, and leaves the others as they are.
    #[inline(always)]
    pub fn step(&mut self, step: Step) -> Result<(), Blocked>
        ensures ok { OnOk result (answer_of self.old step ≡ Ok self.new.state) }
        ensures blocked { IfErr result (λ b. answer_of self.old step ≡ Err b) }
        ensures rest { OnOk result (self.new ≡ record self.old { state = self.new.state }) }
        ensures unchanged { OnErr result (self.new ≡ self.old) }
        ensures faults { EveryFaultChangesOneRow }
    {
        faults_change_one_row();
        match step {
            Step::Exec(core) => self.exec(core),
            Step::Drain(core) => self.drain(core),
            Step::GetS(core, addr) => self.transact(Transaction::GetS, core, addr),
            Step::GetM(core, addr) => self.transact(Transaction::GetM, core, addr),
            Step::Put(core, addr) => self.transact(Transaction::Put, core, addr),
        }
    }

    /// Takes the steps of a list in turn; those that are blocked change nothing.
    pub fn run(&mut self, steps: &[Step])
        ensures { self.new ≡ record self.old { state = state_after self.old steps.now } }
    {
        for step in steps {
            let _ = self.step(*step);
        }
    }
}
