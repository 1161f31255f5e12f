//! Random programs.

ghost use Rattle.std.specs.Prelude.{◌≡◌, ◌<◌, ◌≤◌, ◌+◌, ◌*◌, ◌==◌, ◌%◌, IfOk, OnOk, length};
ghost use Rattle.rand_core.specs.Steps.{first_words};
ghost use Rattle.rand_xoshiro.specs.Xoshiro256.{plus_plus};
ghost use Rattle.litmus.specs.Built.{state};
ghost use Rattle.program.specs.Parts.{op_count};
ghost use Rattle.litmus.specs.Random.{IsDrawn, after_words, drawn_op, program_of_words, with_core};
ghost use Rattle.litmus.specs.Random.{with_word, with_words};

use crate::builder::Builder;
use crate::reader::Reader;
use common::{Addr, MAX_ADDRESSES, MAX_CORES, MAX_EVENTS, OutOfMemory};
use program::{Op, Program, Shape, address_name};
use rand_core::utils::NextWord;
use rand_xoshiro::Xoshiro256PlusPlus;
use std::alloc::Global;

/// The operation of an event that a word makes, where it is not a fence.
fn drawn_op(word: u64, event: usize, addr: Addr) -> Op
    requires { event < MAX_EVENTS }
    ensures { result ≡ drawn_op word event addr }
{
    let value = event as u32 + 1;
    if word % 8 < 3 {
        return Op::Ld(addr);
    }
    if word % 8 < 6 {
        return Op::St(addr, value);
    }
    if word / 8 % 2 == 0 {
        Op::Swap(addr, value)
    } else {
        Op::Add(addr, value)
    }
}

/// Adds the operation of event `event` that a word makes.
fn add_word(
    builder: &mut Builder,
    addresses: usize,
    event: usize,
    word: u64,
) -> Result<(), OutOfMemory>
    requires addresses { (0 < addresses) × (addresses ≤ MAX_ADDRESSES) }
    requires drawn { IsDrawn addresses (state builder.old) }
    requires event { (event ≡ op_count builder.old.cores.items) × (event < MAX_EVENTS) }
    requires some_core { 0 < length builder.old.cores.items }
    ensures ok { OnOk result (state builder.new ≡ with_word addresses (state builder.old) word) }
{
    if word % 8 == 6 {
        return builder.add(Op::Fence);
    }
    let name = address_name((word / 16 % addresses as u64) as Addr);
    let (addr, _) = builder.names.insert_full(name)?;
    builder.add(drawn_op(word, event, addr as Addr))?;
    Ok(())
}

/// Adds a core with the operations that the next words make; `first` is the number of its first event.
fn add_core(
    alloc: Global,
    builder: &mut Builder,
    shape: &Shape,
    first: usize,
    rng: &mut Xoshiro256PlusPlus,
) -> Result<(), OutOfMemory>
    requires drawn { IsDrawn shape.now.addresses (state builder.old) }
    requires first { first ≡ op_count builder.old.cores.items }
    requires few { first + shape.now.ops ≤ MAX_EVENTS }
    requires cores { length builder.old.cores.items < MAX_CORES }
    ensures ok { OnOk result (state builder.new ≡ with_words shape.now.addresses
        (with_core (state builder.old)) (first_words plus_plus shape.now.ops rng.old)) }
    ensures words { OnOk result (rng.new ≡ after_words shape.now.ops rng.old) }
    ensures drawn { OnOk result (IsDrawn shape.now.addresses (state builder.new)) }
    ensures count { OnOk result (op_count builder.new.cores.items ≡ first + shape.now.ops) }
    ensures cores { OnOk result
        (length builder.new.cores.items ≡ length builder.old.cores.items + 1) }
{
    shape.sound();
    builder.add_core(alloc)?;
    for i in 0..shape.ops() {
        let word = rng.next_word();
        add_word(builder, shape.addresses(), first + i, word)?;
    }
    Ok(())
}

/// The random program of a shape. Each event takes one word of the generator: its remainder by 8 is
/// the operation (0 to 2 a load, 3 to 5 a store, 6 a fence, 7 a `swap`, or an `add` where an eighth of
/// the word is odd), a sixteenth of it names the address, and the value is the event's number and 1.
/// Each address begins with 0.
/// Fails only if out of memory; what the generator then gives is open.
pub fn generate(
    alloc: Global,
    shape: &Shape,
    rng: &mut Xoshiro256PlusPlus,
) -> Result<Program, OutOfMemory>
    ensures program { IfOk result (λ p. p ≡ program_of_words shape.now
        (first_words plus_plus (shape.now.cores * shape.now.ops) rng.old)) }
    ensures words { OnOk result (rng.new ≡ after_words (shape.now.cores * shape.now.ops) rng.old) }
{
    shape.sound();
    let mut builder = Builder::new(alloc);
    for core in 0..shape.cores() {
        add_core(alloc, &mut builder, shape, core * shape.ops(), rng)?;
    }
    Reader::of(alloc, builder).finish()
}
