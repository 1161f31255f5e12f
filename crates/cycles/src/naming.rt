//! The names that diy gives addresses.

ghost use Rattle.std.specs.Prelude.{◌≡◌, ◌<◌, ◌∷◌, [], ℕ, IsTrue, codes, length};
ghost use Rattle.program.specs.Names.{name_at, name_text};
ghost use Rattle.cycles.specs.Made.{HasLetter, HaveLetters};

use common::OutOfMemory;
use indexmap::IndexSet;
use program::{Name, Ops, Program, name_at};
use program_events::named_program;
use recording::Recording;
use std::alloc::Global;

/// The names of addresses, in the order in which they are used.
const LETTERS: &[u8] = b"xyzabcdefghijklm";

/// The names of this many addresses, as many as there are letters at most.
fn letters(alloc: Global, count: usize) -> Result<IndexSet<Name>, OutOfMemory> {
    let mut names = IndexSet::new(alloc);
    for i in 0..count.min(LETTERS.len()) {
        if let Some(name) = Name::new(&LETTERS[i..i + 1]) {
            let _new = names.insert(name)?;
        }
    }
    Ok(names)
}

/// The operations of each core, in memory of their own.
fn copy_cores(alloc: Global, cores: &[Ops]) -> Result<Vec<Ops>, OutOfMemory> {
    let mut copies = Vec::new(alloc);
    for ops in cores {
        let one = Ops::copy_of(alloc, ops.as_slice())?;
        copies.push(one)?;
    }
    Ok(copies)
}

/// A program with other names of its addresses.
pub(crate) fn rename_addresses(
    alloc: Global,
    program: &Program,
) -> Result<Option<Program>, OutOfMemory> {
    let names = letters(alloc, program.names().len())?;
    let cores = copy_cores(alloc, program.lists())?;
    let init = Vec::from_slice(alloc, program.init())?;
    Ok(Program::new(names, cores, init))
}

/// Whether the name of an address is its letter.
fn has_letter(names: &IndexSet<Name>, address: usize) -> bool
    ensures { IsTrue result → HasLetter names.now.keys address }
{
    if address >= LETTERS.len() {
        return false;
    }
    name_at(names, address).text() == &LETTERS[address..address + 1]
}

/// Whether the name of each address is its letter.
pub(crate) fn have_letters(program: &Program) -> bool
    ensures { IsTrue result → HaveLetters program.now.names }
{
    let names = program.names();
    for address in 0..names.len() {
        if !has_letter(names, address) {
            return false;
        }
    }
    true
}
