//! A machine that takes steps and writes them down.

ghost use Rattle.std.specs.Prelude.{◌≡◌};
ghost use Rattle.replay.specs.Steps.{executed_before};

use common::{Addr, CoreId, EventId, OutOfMemory};
use machine::{Machine, Step};
use recording::Event;
use std::marker::Model;

/// A machine that takes steps, with the steps that it has taken.
#[derive(Drop)]
pub struct Replay {
    /// The machine.
    pub machine: Machine,
    /// The steps that it has taken.
    pub steps: Vec<Step>,
}

impl Model for Replay {
    ghost use Rattle.replay.specs.Steps.{Replaying};

    ghost Value = { Replaying };

    ghost view = { λ r. record { machine = r.machine; steps = r.steps.items } };
}

impl Replay {
    ghost use Rattle.std.specs.Prelude.{◌≡◌, ◌<◌, ◌⊎◌, ◌∷◌, [], ℕ, Some, OnOk, length};
    ghost use Rattle.recording.specs.Event.{read_address, written_address};
    ghost use Rattle.write_buffer.specs.Buffer.{youngest};
    ghost use Rattle.machine.specs.State.{buffer_of};
    ghost use Rattle.replay.specs.Steps.{execute_to, get_to_write, get_to_read, perform, turn, with_steps};

    /// Takes a step.
    fn take(&mut self, step: Step) -> Result<(), OutOfMemory>
        ensures { OnOk result (self.new ≡ with_steps self.old (step ∷ [])) }
    {
        self.steps.push(step)?;
        let _ = self.machine.step(step);
        Ok(())
    }

    /// A core executes its events before this one, as far as it has not yet. Fails only if out of memory.
    pub fn execute_to(&mut self, core: CoreId, event: usize) -> Result<(), OutOfMemory>
        requires { core < length self.old.machine.program.cores }
        ensures { OnOk result (self.new ≡ with_steps self.old
            (execute_to self.old.machine.program.cores self.old.machine.state core event)) }
    {
        let next = self.machine.next_event(core);
        for _ in next..event {
            self.take(Step::Exec(core))?;
        }
        Ok(())
    }

    /// A core gets a line to write it, unless it may.
    fn get_to_write(&mut self, core: CoreId, addr: Addr) -> Result<(), OutOfMemory>
        requires core { core < length self.old.machine.program.cores }
        requires address { addr < length self.old.machine.program.names }
        ensures { OnOk result (self.new ≡ with_steps self.old
            (get_to_write self.old.machine.state core addr)) }
    {
        if self.machine.line(core, addr).is_exclusive() {
            return Ok(());
        }
        self.take(Step::GetM(core, addr))
    }

    /// A core gets a line to read it, unless it may, or a store of its own to the address waits.
    fn get_to_read(&mut self, core: CoreId, addr: Addr) -> Result<(), OutOfMemory>
        requires core { core < length self.old.machine.program.cores }
        requires address { addr < length self.old.machine.program.names }
        ensures { OnOk result (self.new ≡ with_steps self.old
            (get_to_read self.old.machine.state core addr
            (youngest (buffer_of self.old.machine.state core) addr))) }
    {
        if self.machine.youngest(core, addr).is_some() || self.machine.line(core, addr).is_valid() {
            return Ok(());
        }
        self.take(Step::GetS(core, addr))
    }

    /// A core performs an event: its oldest store, or else its next operation, for which it gets the line first.
    /// Fails only if out of memory.
    pub fn perform(&mut self, core: CoreId, event: Event) -> Result<(), OutOfMemory>
        requires core { core < length self.old.machine.program.cores }
        requires addresses { (a : ℕ) → (read_address event ≡ Some a) ⊎ (written_address event ≡ Some a)
            → a < length self.old.machine.program.names }
        ensures { OnOk result (self.new ≡ with_steps self.old
            (perform self.old.machine.state core event)) }
    {
        match event {
            Event::S { a, .. } => {
                self.get_to_write(core, a)?;
                self.take(Step::Drain(core))
            }
            Event::L { a, .. } => {
                self.get_to_read(core, a)?;
                self.take(Step::Exec(core))
            }
            Event::R { a, .. } => {
                self.get_to_write(core, a)?;
                self.take(Step::Exec(core))
            }
            Event::C { a, .. } => {
                self.get_to_write(core, a)?;
                self.take(Step::Exec(core))
            }
            Event::F => self.take(Step::Exec(core)),
        }
    }

    /// An event takes its turn: its core executes what comes first, and performs it.
    pub(crate) fn turn(
        &mut self,
        core: CoreId,
        number: EventId,
        event: Event,
    ) -> Result<(), OutOfMemory>
        requires core { core < length self.old.machine.program.cores }
        requires addresses { (a : ℕ) → (read_address event ≡ Some a) ⊎ (written_address event ≡ Some a)
            → a < length self.old.machine.program.names }
        ensures { OnOk result (self.new ≡ with_steps self.old
            (turn self.old.machine.program.cores self.old.machine.capacity self.old.machine.fault
            self.old.machine.state core number event)) }
    {
        self.execute_to(core, executed_before(number, event))?;
        self.perform(core, event)
    }
}

/// The first event that its core has not executed when this event is performed: a plain store waits
/// in its buffer by then.
fn executed_before(number: EventId, event: Event) -> usize
    ensures { result ≡ executed_before number event }
{
    match event {
        Event::S { .. } => number as usize + 1,
        _ => number as usize,
    }
}
