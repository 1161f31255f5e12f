//! The rows of the table of steps.

ghost use Rattle.std.specs.Prelude.{◌≡◌};
ghost use Rattle.machine.specs.Step.{forwarded_or_read};

use crate::blocked::Blocked;
use crate::fault::{drain, draining, forwarded_store, may_fence, may_rmw};
use crate::machine::Machine;
use common::{Addr, CoreId, EventId};
use moesi::CacheError;
use program::Op;
use program_events::event_of;
use write_buffer::Entry;

impl Machine {
    ghost use Rattle.std.specs.Prelude.{◌≡◌, ◌≢◌, ◌<◌, ◌⊎◌, IsTrue, IsFalse, length};
    ghost use Rattle.program.specs.declared.op.Op.TheVariants.{St, Ld, Fence, Cas};
    ghost use Rattle.machine.specs.declared.step.Step.TheVariants.{Drain};
    ghost use Rattle.machine.specs.Step.{read_modify_written, read_unmodified};
    ghost use Rattle.moesi.specs.Lines.{is_valid};
    ghost use Rattle.moesi.specs.State.{line_of};
    ghost use Rattle.machine.specs.State.{line_copy};
    ghost use Rattle.machine.specs.Configuration.{answer_of, exec_answer, IsNextOf, IsStepAnswer};

    /// Puts a store at the back of its core's buffer.
    pub(crate) fn store(
        &mut self,
        core: CoreId,
        event: EventId,
        addr: Addr,
        value: u32,
    ) -> Result<(), Blocked>
        requires { IsNextOf self.old core (St addr value) event }
        ensures { IsStepAnswer (exec_answer self.old core (St addr value) event) self.old self.new result }
    {
        let entry = Entry { addr, value, event };
        let Ok(()) = self.buffers[core as usize].push(entry) else {
            return Err(Blocked::B2);
        };
        self.units[core as usize].advance(self.program.ops(core));
        Ok(())
    }

    /// Reads from the core's own buffer, where the machine looks there, or else from its line.
    pub(crate) fn load(&mut self, core: CoreId, event: EventId, addr: Addr) -> Result<(), Blocked>
        requires { IsNextOf self.old core (Ld addr) event }
        ensures { IsStepAnswer (exec_answer self.old core (Ld addr) event) self.old self.new result }
    {
        let entry = forwarded_store(self.fault, &self.buffers[core as usize], addr);
        let Ok(what) = forwarded_or_read(entry, self.caches.read(core, addr)) else {
            return Err(Blocked::B4);
        };
        self.reads[event as usize] = what;
        self.performed.push(event);
        self.units[core as usize].advance(self.program.ops(core));
        Ok(())
    }

    /// Waits for an empty buffer, where the machine does.
    pub(crate) fn fence(&mut self, core: CoreId, event: EventId) -> Result<(), Blocked>
        requires { IsNextOf self.old core Fence event }
        ensures { IsStepAnswer (exec_answer self.old core Fence event) self.old self.new result }
    {
        if !may_fence(self.fault, &self.buffers[core as usize]) {
            return Err(Blocked::B3);
        }
        self.performed.push(event);
        self.units[core as usize].advance(self.program.ops(core));
        Ok(())
    }

    /// Reads the core's line and writes it at once, with an empty buffer, where the machine waits for it.
    pub(crate) fn read_modify_write(
        &mut self,
        core: CoreId,
        event: EventId,
        op: Op,
        addr: Addr,
    ) -> Result<(), Blocked>
        requires at { IsNextOf self.old core op event }
        requires address { addr < length self.old.program.names }
        requires row { exec_answer self.old core op event
            ≡ read_modify_written self.old.fault self.old.state core event op addr }
        ensures { IsStepAnswer (exec_answer self.old core op event) self.old self.new result }
    {
        if !may_rmw(self.fault, &self.buffers[core as usize]) {
            return Err(Blocked::B3);
        }
        let Ok(read) = self.caches.read(core, addr) else {
            return Err(Blocked::B5);
        };
        let value = event_of(op, read).value_written();
        let Ok(()) = self.caches.write(core, addr, value, event) else {
            return Err(Blocked::B5);
        };
        self.reads[event as usize] = read;
        self.writes[addr as usize].push(event);
        self.performed.push(event);
        self.units[core as usize].advance(self.program.ops(core));
        Ok(())
    }

    /// Reads the core's line alone, as a read-modify-write would: with an empty buffer, where the
    /// machine waits for it, and from a line that the core may write.
    pub(crate) fn read_unmodified(
        &mut self,
        core: CoreId,
        event: EventId,
        op: Op,
        addr: Addr,
    ) -> Result<(), Blocked>
        requires at { IsNextOf self.old core op event }
        requires address { addr < length self.old.program.names }
        requires row { exec_answer self.old core op event
            ≡ read_unmodified self.old.fault self.old.state core event addr }
        ensures { IsStepAnswer (exec_answer self.old core op event) self.old self.new result }
    {
        if !may_rmw(self.fault, &self.buffers[core as usize]) {
            return Err(Blocked::B3);
        }
        if !self.caches.line(core, addr).is_exclusive() {
            return Err(Blocked::B5);
        }
        let Ok(read) = self.caches.read(core, addr) else {
            return Err(Blocked::B5);
        };
        self.reads[event as usize] = read;
        self.performed.push(event);
        self.units[core as usize].advance(self.program.ops(core));
        Ok(())
    }

    /// Swaps the value of the core's line for another where it is the expected one, and else reads it alone.
    pub(crate) fn compare_and_swap(
        &mut self,
        core: CoreId,
        event: EventId,
        addr: Addr,
        expected: u32,
        value: u32,
    ) -> Result<(), Blocked>
        requires at { IsNextOf self.old core (Cas addr expected value) event }
        requires address { addr < length self.old.program.names }
        ensures { IsStepAnswer (exec_answer self.old core (Cas addr expected value) event) self.old self.new result }
    {
        let op = Op::Cas(addr, expected, value);
        if self.has_value(core, addr, expected) {
            self.read_modify_write(core, event, op, addr)
        } else {
            self.read_unmodified(core, event, op, addr)
        }
    }

    /// Whether a core's line of an address is valid and has a value.
    fn has_value(&self, core: CoreId, addr: Addr, value: u32) -> bool
        requires core { core < length self.now.program.cores }
        requires address { addr < length self.now.program.names }
        ensures yes { IsTrue result → ((line_copy self.now.state core addr).0 ≡ value) }
        ensures no { IsFalse result → IsFalse (is_valid (line_of self.now.state.caches core addr))
            ⊎ ((line_copy self.now.state core addr).0 ≢ value) }
    {
        match self.caches.read(core, addr) {
            Ok((read, _source)) => read == value,
            Err(_) => false,
        }
    }

    /// Writes the store that leaves a core's buffer next to the core's line.
    pub(crate) fn drain(&mut self, core: CoreId) -> Result<(), Blocked>
        ensures { IsStepAnswer (answer_of self.old (Drain core)) self.old self.new result }
    {
        if core as usize >= self.program.cores() {
            return Err(Blocked::B8);
        }
        let Some(entry) = draining(self.fault, &self.buffers[core as usize]) else {
            return Err(Blocked::B6);
        };
        let Entry { addr, value, event } = entry;
        let Ok(()) = self.caches.write(core, addr, value, event) else {
            return Err(Blocked::B5);
        };
        drain(self.fault, &mut self.buffers[core as usize]);
        self.writes[addr as usize].push(event);
        self.performed.push(event);
        Ok(())
    }
}

/// What a load gets: the value and the event of the waiting store, or else what the line gives.
fn forwarded_or_read(
    entry: Option<Entry>,
    line: Result<(u32, Option<EventId>), CacheError>,
) -> Result<(u32, Option<EventId>), CacheError>
    ensures { result ≡ forwarded_or_read entry line }
{
    match entry {
        Some(entry) => Ok((entry.value, Some(entry.event))),
        None => line,
    }
}
