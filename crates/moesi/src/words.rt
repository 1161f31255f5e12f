//! The words of one address, in the words of all.

ghost use Rattle.std.specs.Prelude.{◌≡◌, ◌<◌, ◌+◌, ◌*◌, ◌^◌, ℕ, IfOk, length, replicate, slice_index};
ghost use Rattle.moesi.specs.Block.{has_copy, supplied, block_by, with_line};
ghost use Rattle.moesi.specs.State.{with_block};
ghost use Rattle.moesi.specs.Rows.{turned};
ghost use Rattle.moesi.specs.Words.{cell_in, memory_cell, AreWords, block_in, caches_in};

use crate::word::{INVALID, Turn, turn_word, unpack};
use common::OutOfMemory;
use std::alloc::Global;

/// The words of caches where no line is valid and memory is 0.
pub(crate) fn words_for(
    alloc: Global,
    cores: usize,
    addresses: usize,
) -> Result<Vec<u64>, OutOfMemory>
    ensures { IfOk result (λ ws. ws.items ≡ replicate ((cores + 1) * addresses) 0) }
{
    let Some(rows) = cores.checked_add(1) else {
        return Err(OutOfMemory);
    };
    let Some(size) = rows.checked_mul(addresses) else {
        return Err(OutOfMemory);
    };
    Ok(vec![in alloc; INVALID; size]?)
}

/// The place of a core's word of an address, and for the number of cores of memory's word.
pub(crate) fn place(core: usize, addresses: usize, addr: usize) -> usize
    requires { core * addresses + addr < 2 ^ 64 }
    ensures { result ≡ core * addresses + addr }
{
    core * addresses + addr
}

/// Gives each address in memory its value, with no event.
pub(crate) fn fill_memory(words: &mut [u64], cores: usize, init: &[u32])
    requires { AreWords cores (length init.now) words.old }
    ensures size { length words.new ≡ length words.old }
    ensures lines { (i : ℕ) → i < cores * length init.now
        → slice_index words.new i ≡ slice_index words.old i }
    ensures memory { (a : ℕ) → a < length init.now
        → cell_in (slice_index words.new (cores * length init.now + a))
        ≡ memory_cell (slice_index init.now a) }
{
    let addresses = init.len();
    for addr in 0..addresses {
        words[place(cores, addresses, addr)] = init[addr] as u64;
    }
}

/// What a core that asks for a line learns of the address: whether some line is valid, and the word whose
/// data it is given, that of the first line that supplies them, else memory's.
pub(crate) fn ask(words: &[u64], cores: usize, addresses: usize, addr: usize) -> (bool, u64)
    requires words { AreWords cores addresses words.now }
    requires address { addr < addresses }
    ensures valid { result.0 ≡ has_copy (block_in cores addresses words.now addr) }
    ensures given { (cell_in result.1).copy ≡ supplied (block_in cores addresses words.now addr) }
{
    let mut valid = false;
    let mut at = addr;
    for _ in 0..cores {
        let line = unpack(words[at]).line;
        if line.supplies() {
            return (true, words[at]);
        }
        valid |= line.is_valid();
        at += addresses;
    }
    (valid, words[at])
}

/// Turns each line of the address, and then gives a core's line another word.
pub(crate) fn turn_all(
    words: &mut [u64],
    cores: usize,
    addresses: usize,
    core: usize,
    addr: usize,
    turn: Turn,
    own: u64,
)
    requires words { AreWords cores addresses words.old }
    requires core { core < cores }
    requires address { addr < addresses }
    ensures size { length words.new ≡ length words.old }
    ensures turned { caches_in cores addresses words.new ≡ with_block (caches_in cores addresses words.old) addr
        (with_line (block_by (turned turn) (block_in cores addresses words.old addr)) core (cell_in own)) }
{
    let mut at = addr;
    for _ in 0..cores {
        words[at] = turn_word(words[at], turn);
        at += addresses;
    }
    words[place(core, addresses, addr)] = own;
}
