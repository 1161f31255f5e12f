//! The names and operations so far.

ghost use Rattle.std.specs.Prelude.{◌≡◌};
ghost use Rattle.litmus.specs.Steps.{write_op};

use crate::line_refusal::{LineRefusal, LitmusError};
use crate::write_kind::WriteKind;
use common::{Addr, MAX_ADDRESSES, MAX_CORES, MAX_EVENTS, OutOfMemory};
use indexmap::IndexSet;
use program::{Name, Op, Ops, are_below};
use std::alloc::Global;
use texts::Number;

/// The names in order of first use, and the operations of each core.
#[derive(Drop)]
pub struct Builder {
    pub names: IndexSet<Name>,
    pub cores: Vec<Ops>,
}

impl Builder {
    ghost use Rattle.std.specs.Prelude.{◌≡◌, ◌≤◌, ◌<◌, ◌^◌, ℕ, Err, Ok, None, Result, OnOk, IfOk, IfErr, length};
    ghost use Rattle.program.specs.Parts.{Body};
    ghost use Rattle.litmus.specs.declared.line_refusal.LineRefusal.{LineRefusal};
    ghost use Rattle.texts.specs.declared.line_error.LineError.TheVariants.{OutOfMemory};
    ghost use Rattle.litmus.specs.Steps.{empty, core_step, fence_step, load_step, write_step, op_refusal};
    ghost use Rattle.litmus.specs.Steps.{at_name, with_op, write_op, compare_step};
    ghost use Rattle.program.specs.Names.{names_with, name_number};
    ghost use Rattle.texts.specs.Decimals.{IsValue};
    ghost use Rattle.texts.specs.Reading.{AnswersLine, seen_as};
    ghost use Rattle.litmus.specs.declared.write_kind.WriteKind.{WriteKind};
    ghost use Rattle.litmus.specs.Built.{state};
    ghost use Rattle.litmus.specs.Random.{with_core};

    pub fn new(alloc: Global) -> Builder
        ensures { state result ≡ empty }
    {
        Builder {
            names: IndexSet::new(alloc),
            cores: Vec::new(alloc),
        }
    }

    /// A line `core`.
    #[tactic(auto, unfolding(crate::specs::Steps::core_step))]
    pub fn begin_core(&mut self, alloc: Global, number: usize) -> Result<(), LitmusError>
        ensures { AnswersLine (seen_as result (λ _. state self.new)) number
            (core_step (state self.old)) }
    {
        if MAX_CORES <= self.cores.len() {
            return Err(LitmusError::AtLine(LineRefusal::L2, number));
        }
        self.add_core(alloc)?;
        Ok(())
    }

    fn op_refusal(&self) -> Option<LineRefusal>
        ensures value { result ≡ op_refusal (state self.now) }
        ensures some_core { result ≡ None → 0 < length self.now.cores.items }
    {
        if self.cores.is_empty() {
            return Some(LineRefusal::L1);
        }
        if !are_below(&self.cores, MAX_EVENTS) {
            return Some(LineRefusal::L3);
        }
        None
    }

    /// Adds a core without operations. Fails only if out of memory.
    pub fn add_core(&mut self, alloc: Global) -> Result<(), OutOfMemory>
        ensures { OnOk result (state self.new ≡ with_core (state self.old)) }
    {
        self.cores.push(Ops::new(alloc))?;
        Ok(())
    }

    /// Adds an operation on the last core. Fails only if out of memory.
    pub fn add(&mut self, op: Op) -> Result<(), OutOfMemory>
        requires { 0 < length self.old.cores.items }
        ensures ok { OnOk result (self.new.cores.items ≡ with_op self.old.cores.items op) }
        ensures names { self.new.names ≡ self.old.names }
    {
        let last = self.cores.len() - 1;
        self.cores[last].push(op)?;
        Ok(())
    }

    /// A line `fence`.
    #[tactic(auto, unfolding(crate::specs::Steps::fence_step))]
    pub fn fence(&mut self, number: usize) -> Result<(), LitmusError>
        ensures { AnswersLine (seen_as result (λ _. state self.new)) number
            (fence_step (state self.old)) }
    {
        if let Some(refusal) = self.op_refusal() {
            return Err(LitmusError::AtLine(refusal, number));
        }
        self.add(Op::Fence)?;
        Ok(())
    }

    /// The address of a name, where an operation with it may come; else the line's refusal.
    fn address_of(&mut self, name: Name, number: usize) -> Result<Addr, LitmusError>
        ensures ok { OnOk result ((r : Result Body LineRefusal) →
            at_name (state self.old) name r ≡ r) }
        ensures err { IfErr result (λ e. (r : Result Body LineRefusal) →
            AnswersLine (Err e) number (at_name (state self.old) name r)) }
        ensures address { IfOk result (λ addr. addr ≡ name_number self.old.names.keys name) }
        ensures names { OnOk result (self.new.names.keys ≡ names_with self.old.names.keys name) }
        ensures cores { self.new.cores.items ≡ self.old.cores.items }
        ensures some_core { OnOk result (0 < length self.new.cores.items) }
    {
        if let Some(refusal) = self.op_refusal() {
            return Err(LitmusError::AtLine(refusal, number));
        }
        let (addr, _) = self.names.insert_full(name)?;
        if MAX_ADDRESSES < self.names.len() {
            return Err(LitmusError::AtLine(LineRefusal::L4, number));
        }
        Ok(addr as Addr)
    }

    /// A line `ld`.
    #[tactic(auto, unfolding(crate::specs::Steps::load_step))]
    pub fn load(&mut self, name: Name, number: usize) -> Result<(), LitmusError>
        ensures { AnswersLine (seen_as result (λ _. state self.new)) number
            (load_step (state self.old) name) }
    {
        let addr = self.address_of(name, number)?;
        self.add(Op::Ld(addr))?;
        Ok(())
    }

    /// A line `st`, `swap` or `add`. The addresses are tested before the value.
    #[tactic(auto, unfolding(crate::specs::Steps::write_step))]
    pub fn write(
        &mut self,
        write: WriteKind,
        name: Name,
        value: Number,
        number: usize,
    ) -> Result<(), LitmusError>
        ensures { (n : ℕ) → IsValue value n →
            AnswersLine (seen_as result (λ _. state self.new)) number
            (write_step (state self.old) write name n) }
    {
        let addr = self.address_of(name, number)?;
        match value {
            Number::Value(value) => self.add(write_op(write, addr, value))?,
            Number::TooLarge => return Err(LitmusError::AtLine(LineRefusal::L5, number)),
        }
        Ok(())
    }

    /// A line `cas`. The addresses are tested before the values.
    #[tactic(auto, unfolding(crate::specs::Steps::compare_step))]
    pub fn compare(
        &mut self,
        name: Name,
        expected: Number,
        value: Number,
        number: usize,
    ) -> Result<(), LitmusError>
        ensures { (e n : ℕ) → IsValue expected e → IsValue value n →
            AnswersLine (seen_as result (λ _. state self.new)) number
            (compare_step (state self.old) name e n) }
    {
        let addr = self.address_of(name, number)?;
        match (expected, value) {
            (Number::Value(expected), Number::Value(value)) => {
                self.add(Op::Cas(addr, expected, value))?
            }
            _ => return Err(LitmusError::AtLine(LineRefusal::L5, number)),
        }
        Ok(())
    }
}

fn write_op(write: WriteKind, addr: Addr, value: u32) -> Op
    ensures { result ≡ write_op write addr value }
{
    match write {
        WriteKind::Store => Op::St(addr, value),
        WriteKind::Swap => Op::Swap(addr, value),
        WriteKind::Add => Op::Add(addr, value),
    }
}
