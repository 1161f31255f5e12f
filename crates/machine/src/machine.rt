//! The machine: cores with store buffers and caches over one memory.

use crate::blank::{Blank, Filled};
use crate::bounded::BoundedList;
use crate::construction::{bounded_lists, buffers_of, units_of};
use common::{Addr, CoreId, EventId, OutOfMemory};
use core_unit::CoreUnit;
use moesi::{Caches, Line};
use program::{Fault, Op, Program};
use recording::Recording;
use std::alloc::Global;
use std::marker::Model;
use write_buffer::{Entry, WriteBuffer};

/// The cores of a program, each with its store buffer and its cache, over one memory, and what they
/// have done so far: the usual implementation of TSO (Nagarajan, Sorin, Hill and Wood, A Primer on
/// Memory Consistency and Cache Coherence, second edition, chapter 4) over MOESI caches (chapters 6
/// to 8) with atomic transactions.
#[derive(Drop)]
pub struct Machine {
    pub(crate) program: Program,
    pub(crate) capacity: usize,
    pub(crate) fault: Fault,
    pub(crate) units: Vec<CoreUnit>,
    pub(crate) buffers: Vec<WriteBuffer>,
    pub(crate) caches: Caches,
    pub(crate) writes: Vec<BoundedList<EventId>>,
    pub(crate) reads: Vec<(u32, Option<EventId>)>,
    pub(crate) performed: BoundedList<EventId>,
    blank: Blank,
}

/// A machine whose program has not come to its end, or in which a store waits.
#[derive(Drop)]
pub struct Unfinished {
    /// The machine as it was.
    pub machine: Machine,
}

impl Model for Machine {
    ghost use Rattle.machine.specs.Configuration.{Configuration, IsMachine, state_from};

    ghost Value = { Configuration };

    ghost view = { λ m. record {
      program = m.program;
      capacity = m.capacity;
      fault = m.fault;
      state = state_from m.program.init m.units.items m.buffers.items m.caches m.writes.items m.reads.items
          m.performed.items;
    } };

    ghost invariant = { λ m. IsMachine m.program m.capacity m.fault m.units.items m.buffers.items
        m.caches m.writes.items m.reads.items m.performed m.blank };
}

impl Machine {
    ghost use Rattle.std.specs.Prelude.{◌≡◌, ◌<◌, ◌↔◌, [], IsTrue, IfOk, OnOk, OnErr, IfErr, IfSome, length};
    ghost use Rattle.std.specs.Prelude.{slice_get, slice_index_or, option_map};
    ghost use Rattle.recording.specs.Recording.{IsShortRecording};
    ghost use Rattle.recording.specs.Tso.{IsTsoOrder};
    ghost use Rattle.moesi.specs.State.{line_of, memory_of};
    ghost use Rattle.program.specs.declared.fault.Fault.TheVariants as fault;
    ghost use Rattle.machine.specs.State.{opening, place_of, buffer_of, IsDone};
    ghost use Rattle.machine.specs.Configuration.{recording_of, next_event, IsAtEnd};
    ghost use Rattle.program_events.specs.ProgramOf.{IsProgramOf};
    ghost use Rattle.write_buffer.specs.Buffer.{youngest};

    /// A machine at the start of a program, whose store buffers have room for `capacity` stores
    /// each. What a run and its `finish` will hold is reserved here, so that these never run out of
    /// memory. Fails only if out of memory.
    pub fn new(
        alloc: Global,
        program: Program,
        capacity: usize,
        fault: Fault,
    ) -> Result<Machine, OutOfMemory>
        ensures { IfOk result (λ m. m ≡ record {
          program = program;
          capacity = capacity;
          fault = fault;
          state = opening program.cores program.init;
        }) }
    {
        program.sound();
        let cores = program.cores();
        let init = program.init();
        let (units, events) = units_of(alloc, program.lists())?;
        Ok(Machine {
            units,
            buffers: buffers_of(alloc, cores, capacity)?,
            caches: Caches::with_init(alloc, cores, init)?,
            writes: bounded_lists(alloc, init.len(), events)?,
            reads: vec![in alloc; (0, None); events]?,
            performed: BoundedList::new(alloc, events)?,
            blank: Blank::new(alloc, cores, events, init)?,
            program,
            capacity,
            fault,
        })
    }

    /// The program.
    pub fn program(&self) -> &Program
        ensures { result.now ≡ self.now.program }
    {
        &self.program
    }

    /// The program, of a machine that is given up.
    pub fn into_program(self) -> Program
        ensures { result ≡ self.program }
    {
        let Machine { program, .. } = self;
        program
    }

    /// How many stores may wait in each buffer.
    pub fn capacity(&self) -> usize
        ensures { result ≡ self.now.capacity }
    {
        self.capacity
    }

    /// What is wrong with the machine.
    pub fn fault(&self) -> Fault
        ensures { result ≡ self.now.fault }
    {
        self.fault
    }

    /// The numbers of the performed events, in memory order.
    pub fn performed(&self) -> &[EventId]
        ensures { result.now ≡ self.now.state.performed }
    {
        self.performed.as_slice()
    }

    /// The state of the line of an address of the program, of a core of the program.
    pub fn line(&self, core: CoreId, addr: Addr) -> Line
        requires core { core < length self.now.program.cores }
        requires address { addr < length self.now.program.names }
        ensures { result ≡ line_of self.now.state.caches core addr }
    {
        self.caches.line(core, addr)
    }

    /// Memory's value of an address of the program, and the event that wrote it; none for the
    /// initial value. A line in M or O may have a later one.
    pub fn memory(&self, addr: Addr) -> (u32, Option<EventId>)
        requires { addr < length self.now.program.names }
        ensures { result ≡ memory_of self.now.state.caches addr }
    {
        self.caches.memory(addr)
    }

    /// The operation that a core executes next; none where it has executed all, or where there is
    /// no such core.
    pub fn next(&self, core: CoreId) -> Option<Op>
        ensures { result ≡ slice_get (slice_index_or self.now.program.cores core [])
            (place_of self.now.state core) }
    {
        if core as usize >= self.program.cores() {
            return None;
        }
        let (op, _event) = self.units[core as usize].next(self.program.ops(core))?;
        Some(op)
    }

    /// The address of the oldest store that waits in a core's buffer; none where none waits, or
    /// where there is no such core.
    pub fn oldest(&self, core: CoreId) -> Option<Addr>
        ensures value { result ≡ option_map (λ x. x.addr)
            (slice_get (buffer_of self.now.state core) 0) }
        ensures within { IfSome result (λ a. a < length self.now.program.names) }
    {
        if core as usize >= self.program.cores() {
            return None;
        }
        let entry = self.buffers[core as usize].oldest()?;
        Some(entry.addr)
    }

    /// The number of the next event of a core of the program; that after its last event where it has
    /// executed all.
    pub fn next_event(&self, core: CoreId) -> usize
        requires { core < length self.now.program.cores }
        ensures { result ≡ next_event self.now core }
    {
        self.units[core as usize].next_event()
    }

    /// The youngest store to an address that waits in the buffer of a core of the program; none where none
    /// waits.
    pub fn youngest(&self, core: CoreId, addr: Addr) -> Option<Entry>
        requires { core < length self.now.program.cores }
        ensures { result ≡ youngest (buffer_of self.now.state core) addr }
    {
        self.buffers[core as usize].youngest(addr)
    }

    /// Whether a core has executed all its operations, and no store of it waits.
    fn is_done(&self, core: CoreId) -> bool
        requires { core < length self.now.program.cores }
        ensures { IsTrue result ↔ IsDone self.now.program.cores self.now.state core }
    {
        self.units[core as usize]
            .next(self.program.ops(core))
            .is_none()
            && self.buffers[core as usize].is_empty()
    }

    /// Whether every operation was executed and no store waits.
    pub fn is_complete(&self) -> bool
        ensures { IsTrue result ↔ IsAtEnd self.now }
    {
        for core in 0..self.program.cores() {
            if !self.is_done(core as CoreId) {
                return false;
            }
        }
        true
    }

    /// The recording of a machine that is complete, which is one of its program and no larger; else the machine as it
    /// is. It can't run out of memory.
    pub fn finish(self) -> Result<Recording, Unfinished>
        ensures recording { IfOk result (λ r. r ≡ recording_of self) }
        ensures short { IfOk result IsShortRecording }
        ensures program { IfOk result (λ r. IsProgramOf self.program r) }
        ensures complete { OnOk result (IsAtEnd self) }
        // Without fault, the order of what was performed is one that TSO allows.
        ensures tso { OnOk result (self.fault ≡ fault.None
            → IsTsoOrder (recording_of self) self.state.performed) }
        ensures unfinished { IfErr result (λ u. u.machine ≡ self) }
        ensures incomplete { OnErr result (IsAtEnd self → ⊥) }
    {
        if !self.is_complete() {
            return Err(Unfinished { machine: self });
        }
        self.program.sound();
        let Machine {
            program,
            writes,
            reads,
            blank,
            ..
        } = self;
        let filled = blank.fill(program.lists(), reads.as_slice(), writes);
        drop(program);
        let Filled {
            places,
            cores,
            writes,
            init,
        } = filled;
        Ok(Recording::in_room(places, cores, writes, init))
    }
}
