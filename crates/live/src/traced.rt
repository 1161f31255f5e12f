//! Machines with the trace of their steps.

use crate::error::LiveError;
use common::OutOfMemory;
use machine::{Machine, Step, every_run_is_tso};
use std::alloc::Global;
use std::marker::Model;

/// A machine and the trace of the steps that it took, which lead to it from the opening state of
/// its program.
#[derive(Drop)]
pub struct Traced {
    machine: Machine,
    steps: Vec<Step>,
    limit: usize,
}

impl Model for Traced {
    ghost use Rattle.std.specs.Prelude.{◌≤◌, vec_capacity, vec_len};
    ghost use Rattle.live.specs.Trace.{Trace, IsTrace};

    ghost Value = { Trace };

    ghost view = { λ t. record { machine = t.machine; steps = t.steps.items; limit = t.limit } };

    ghost invariant = { λ t. IsTrace (record { machine = t.machine; steps = t.steps.items; limit = t.limit })
        × (vec_len t.steps ≤ t.limit) × (t.limit ≤ vec_capacity t.steps) };
}

impl Traced {
    ghost use Rattle.std.specs.Prelude.{◌≡◌, ◌≤◌, ◌<◌, ◌↔◌, [], IsTrue, IfOk, IfErr, OnOk, OnErr, Ok, Err, length};
    ghost use Rattle.recording.specs.Tso.{IsTsoOrder};
    ghost use Rattle.program.specs.declared.fault.Fault.TheVariants as fault;
    ghost use Rattle.machine.specs.Configuration.{recording_of, IsAtEnd};
    ghost use Rattle.machine.specs.Taken.{begun};
    ghost use Rattle.live.specs.Trace.{Trace, IsTrace, IsEnded};
    ghost use Rattle.live.specs.Advance.{advance_answer};

    /// A machine that has not yet taken a step, whose trace may have `limit` steps; the room for
    /// them is made here. Fails only if out of memory.
    pub fn new(alloc: Global, machine: Machine, limit: usize) -> Result<Traced, OutOfMemory>
        requires { machine.state ≡ begun machine.program }
        ensures { IfOk result (λ t. t
            ≡ record { machine = machine; steps = []; limit = limit }) }
    {
        Ok(Traced {
            steps: Vec::with_capacity(alloc, limit)?,
            machine,
            limit,
        })
    }

    /// The steps that were taken, first to last. From the opening state each of them is taken, none is
    /// blocked, and they lead to the machine.
    pub fn trace(&self) -> &[Step]
        ensures steps { result.now ≡ self.now.steps }
        ensures replay { IsTrace self.now }
        ensures within { length self.now.steps ≤ self.now.limit }
    {
        self.steps.as_slice()
    }

    /// How many steps the trace may have.
    pub fn limit(&self) -> usize
        ensures { result ≡ self.now.limit }
    {
        self.limit
    }

    /// The machine.
    pub fn machine(&self) -> &Machine
        ensures { result.now ≡ self.now.machine }
    {
        &self.machine
    }

    /// Whether the machine is complete, or has taken all steps that it may take.
    pub fn is_ended(&self) -> bool
        ensures { IsTrue result ↔ IsEnded self.now }
    {
        self.machine.is_complete() || self.steps.len() == self.limit
    }

    /// What every traced machine keeps. It does nothing.
    pub fn sound(&self)
        ensures replay { IsTrace self.now }
        ensures within { length self.now.steps ≤ self.now.limit }
        // Where it has no fault and is complete, the order of what was performed is one that TSO
        // allows.
        ensures tso { self.now.machine.fault ≡ fault.None → IsAtEnd self.now.machine
            → IsTsoOrder (recording_of self.now.machine) self.now.machine.state.performed }
    {
        self.machine.program().sound();
        every_run_is_tso();
        let _steps = &self.steps;
    }

    /// The machine alone.
    pub fn into_machine(self) -> Machine
        ensures machine { result ≡ self.machine }
        ensures replay { IsTrace self }
    {
        let Traced { machine, .. } = self;
        machine
    }

    /// Takes a step and adds it to the trace. A full trace is answered first, then a blocked step;
    /// both change nothing. It can't run out of memory.
    pub fn advance(&mut self, step: Step) -> Result<(), LiveError>
        ensures ok { OnOk result (advance_answer self.old step ≡ Ok self.new) }
        ensures refused { IfErr result (λ e. advance_answer self.old step ≡ Err e) }
        ensures unchanged { OnErr result (self.new ≡ self.old) }
    {
        if self.steps.len() >= self.limit {
            return Err(LiveError::TraceFull);
        }
        if let Err(blocked) = self.machine.step(step) {
            return Err(LiveError::Blocked(blocked));
        }
        let Ok(()) = self.steps.push(step) else {
            unreachable!()
        };
        Ok(())
    }
}
