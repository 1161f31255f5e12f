//! Litmus programs.

use crate::lawful::is_program;
use crate::name::Name;
use crate::op::{Op, Ops, copies_of};
use crate::same::{are_same_cores, are_same_names, are_same_values};
use common::{CoreId, MAX_ADDRESSES, MAX_CORES, MAX_EVENTS, OutOfMemory};
use indexmap::IndexSet;
use std::alloc::Global;
use std::marker::Model;

/// A litmus program: the names of its addresses in order of first use, the operations of each core in
/// program order, and the initial value of each address.
pub struct Program {
    names: IndexSet<Name>,
    cores: Vec<Ops>,
    init: Vec<u32>,
}

impl Model for Program {
    ghost use Rattle.program.specs.Parts.{Parts, IsProgram, parts_of};

    ghost Value = { Parts };

    ghost view = { λ p. parts_of p.names.keys p.cores.items p.init.items };

    ghost invariant = { λ p. IsProgram (parts_of p.names.keys p.cores.items p.init.items) };
}

impl Drop for Program {
    fn drop(self) {
        let Program {
            names: _,
            cores: _,
            init: _,
        } = self;
    }
}

impl Program {
    ghost use Rattle.std.specs.Prelude.{◌≡◌, ◌<◌, ◌≤◌, ◌↔◌, length, slice_index_or, []};
    ghost use Rattle.std.specs.Prelude.{IsTrue, IfOk, IfSome, IsSome, None, All};
    ghost use Rattle.program.specs.Parts.{IsProgram, IsWithin, op_count, parts_of};

    /// The program of these names, operations and initial values. None exactly where they are none:
    /// where a limit is passed, an address has no name, a name is unused, the names aren't in order of
    /// first use, or there isn't one initial value for each name. It takes no memory.
    pub fn new(names: IndexSet<Name>, cores: Vec<Ops>, init: Vec<u32>) -> Option<Program>
        ensures some { IfSome result (λ p. p ≡ parts_of names.keys cores.items init.items) }
        ensures lawful { IsSome result → IsProgram (parts_of names.keys cores.items init.items) }
        ensures none { result ≡ None → ¬ IsProgram (parts_of names.keys cores.items init.items) }
    {
        if !is_program(&names, &cores, &init) {
            return None;
        }
        Some(Program::of_lawful(names, cores, init))
    }

    /// The program of these names, operations and initial values, which have to be one.
    pub fn of_lawful(names: IndexSet<Name>, cores: Vec<Ops>, init: Vec<u32>) -> Program
        requires { IsProgram (parts_of names.keys cores.items init.items) }
        ensures { result ≡ parts_of names.keys cores.items init.items }
    {
        Program { names, cores, init }
    }

    /// A copy of the program. Fails only if out of memory.
    pub fn copy(&self, alloc: Global) -> Result<Program, OutOfMemory>
        ensures { IfOk result (λ p. p ≡ self.now) }
    {
        let names = self.names.clone()?;
        let cores = copies_of(alloc, &self.cores)?;
        let init = Vec::from_slice(alloc, &self.init)?;
        Ok(Program { names, cores, init })
    }

    /// Whether the other program is the same: its names, its operations and its initial values, in their
    /// order.
    pub fn is_same(&self, other: &Program) -> bool
        ensures { IsTrue result ↔ (self.now ≡ other.now) }
    {
        are_same_names(&self.names, &other.names)
            && are_same_cores(&self.cores, &other.cores)
            && are_same_values(&self.init, &other.init)
    }

    /// What every program keeps. It does nothing.
    pub fn sound(&self)
        ensures lawful { IsProgram self.now }
        ensures within { All (λ ops. All (IsWithin (length self.now.names)) ops) self.now.cores }
        ensures few { op_count self.now.cores ≤ MAX_EVENTS }
    {
        let _cores = &self.cores;
    }

    /// The names of the addresses, in order of first use; at most `MAX_ADDRESSES`.
    pub fn names(&self) -> &IndexSet<Name>
        ensures keys { result.now.keys ≡ self.now.names }
        ensures few { length result.now.keys ≤ MAX_ADDRESSES }
    {
        &self.names
    }

    /// How many cores there are; at most `MAX_CORES`.
    pub fn cores(&self) -> usize
        ensures count { result ≡ length self.now.cores }
        ensures few { result ≤ MAX_CORES }
    {
        self.cores.len()
    }

    /// The operations of a core of the program, in program order.
    pub fn ops(&self, core: CoreId) -> &[Op]
        requires { core < length self.now.cores }
        ensures { result.now ≡ slice_index_or self.now.cores core [] }
    {
        self.cores[core as usize].as_slice()
    }

    /// The operations of each core, in program order.
    pub fn lists(&self) -> &[Ops]
        ensures { result.now ≡ self.now.cores }
    {
        &self.cores
    }

    /// The initial values of the addresses, one for each name.
    pub fn init(&self) -> &[u32]
        ensures values { result.now ≡ self.now.init }
        ensures count { length result.now ≡ length self.now.names }
    {
        &self.init
    }
}
