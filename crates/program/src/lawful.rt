//! Whether names, operations and initial values are those of a program.

ghost use Rattle.std.specs.Prelude.{◌≡◌, ◌<◌, ◌^◌, IsTrue, IsSome, true, false, nat_lt};
ghost use Rattle.std.specs.List.{AllByRecursion};
ghost use Rattle.program.specs.Names.{AreLawful};
ghost use Rattle.program.specs.Parts.{IsProgram, IsSmall, Small, addr_of, op_count, parts_of};
ghost use Rattle.program.specs.Parts.{use_addr, use_cores, use_ops};

use crate::name::{Name, is_lawful, name_at};
use crate::op::{Op, Ops};
use common::{Addr, MAX_ADDRESSES, MAX_CORES, MAX_EVENTS};
use indexmap::IndexSet;

/// Whether the cores have fewer operations than `limit`.
#[tactic(auto, using(crate::proofs::CoreLemmas::count_more))]
pub fn are_below(cores: &[Ops], limit: usize) -> bool
    ensures { result ≡ nat_lt (op_count cores.now) limit }
{
    let mut room = limit;
    for core in cores {
        let len = core.as_slice().len();
        if room <= len {
            return false;
        }
        room -= len;
    }
    0 < room
}

fn are_lawful(names: &IndexSet<Name>) -> bool
    ensures yes { result ≡ true → AreLawful names.now.keys }
    ensures other { result ≡ false → AreLawful names.now.keys → ⊥ }
{
    for i in 0..names.len() {
        if !is_lawful(name_at(names, i)) {
            return false;
        }
    }
    true
}

// How many addresses were used after the operation.
fn use_op(used: usize, op: Op) -> Option<usize>
    ensures value { result ≡ use_addr used (addr_of op) }
    ensures small { Small op }
{
    let addr = match op {
        Op::St(addr, _) => addr,
        Op::Ld(addr) => addr,
        Op::Fence => return Some(used),
        Op::Swap(addr, _) => addr,
        Op::Add(addr, _) => addr,
        Op::Cas(addr, _, _) => addr,
    };
    use_addr(used, addr)
}

fn use_addr(used: usize, addr: Addr) -> Option<usize>
    ensures { result ≡ use_addr used (Some addr) }
{
    let addr = addr as usize;
    if addr < used {
        return Some(used);
    }
    if addr == used { Some(used + 1) } else { None }
}

fn use_ops(first: usize, ops: &[Op]) -> Option<usize>
    ensures value { result ≡ use_ops first ops.now }
    ensures small { IsSome result → AllByRecursion Small ops.now }
{
    let mut used = first;
    for op in ops {
        used = use_op(used, *op)?;
    }
    Some(used)
}

fn use_cores(cores: &[Ops]) -> Option<usize>
    ensures value { result ≡ use_cores 0 cores.now }
    ensures small { IsSome result → AllByRecursion (AllByRecursion Small) cores.now }
{
    let mut used = 0;
    for core in cores {
        used = use_ops(used, core.as_slice())?;
    }
    Some(used)
}

// What every list of values keeps. It does nothing.
fn are_small(init: &[u32])
    ensures { AllByRecursion IsSmall init.now }
{
    for value in init {
        let _value = value;
    }
}

/// Whether these are the names, operations and initial values of a program.
pub(crate) fn is_program(names: &IndexSet<Name>, cores: &[Ops], init: &[u32]) -> bool
    ensures yes { result ≡ true → IsProgram (parts_of names.now.keys cores.now init.now) }
    ensures other { result ≡ false → IsProgram (parts_of names.now.keys cores.now init.now) → ⊥ }
{
    are_small(init);
    if init.len() != names.len() {
        return false;
    }
    if MAX_CORES < cores.len() {
        return false;
    }
    if !are_below(cores, MAX_EVENTS + 1) {
        return false;
    }
    if MAX_ADDRESSES < names.len() {
        return false;
    }
    if !are_lawful(names) {
        return false;
    }
    match use_cores(cores) {
        Some(used) => used == names.len(),
        None => false,
    }
}
