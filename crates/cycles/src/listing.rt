//! Critical cycles, each once.

ghost use Rattle.std.specs.Prelude.{◌≡◌, ◌++◌, ◌≤◌, ◌∷◌, [], IfOk, OnOk, length, map};
ghost use Rattle.std.specs.List.{flat_map};
ghost use Rattle.cycles.specs.Blocks.{block_text};
ghost use Rattle.cycles.specs.Listing.{closes, cycle_of, cycle_text, extended, follows, is_first, is_least, is_listed};
ghost use Rattle.cycles.specs.Listing.{is_passed, is_whole, listed, listed_if, rotated, start_chain, with_block};
ghost use Rattle.cycles.specs.Listing.{with_space};

use crate::blocks::{BLOCK_COUNT, block_end, block_events, block_start, block_text, is_alone};
use common::OutOfMemory;
use std::alloc::Global;
use std::cmp::Ordering;
use std::marker::Model;
use texts::put_text;

/// Blocks of which each ends with what the next starts with, and how many events there may be after them.
#[derive(Drop)]
struct Chain {
    blocks: Vec<u8>,
    left: usize,
}

impl Model for Chain {
    ghost use Rattle.cycles.specs.Listing.{Chain};

    ghost Value = { Chain };

    ghost view = { λ c. record { blocks = c.blocks.items; left = c.left } };
}

/// Whether a block starts with what the last of these ends with.
fn follows(blocks: &[u8], block: u8) -> bool
    ensures { result ≡ follows blocks.now block }
{
    match blocks.last() {
        Some(last) => block_end(*last) == block_start(block),
        None => true,
    }
}

/// A chain with one block more, if it follows and there may be so many events.
fn with_block(alloc: Global, chain: &Chain, block: u8) -> Result<Option<Chain>, OutOfMemory>
    ensures { IfOk result (λ o. o ≡ with_block chain.now block) }
{
    if !follows(&chain.blocks, block) || block_events(block) as usize > chain.left {
        return Ok(None);
    }
    let mut blocks = Vec::from_slice(alloc, &chain.blocks)?;
    blocks.push(block)?;
    Ok(Some(Chain {
        blocks,
        left: chain.left - block_events(block) as usize,
    }))
}

/// Adds a chain, if there is one.
fn add(chains: &mut Vec<Chain>, chain: Option<Chain>) -> Result<(), OutOfMemory>
    ensures { OnOk result (chains.new.items ≡ chains.old.items ++ listed_if chain) }
{
    if let Some(chain) = chain {
        chains.push(chain)?;
    }
    Ok(())
}

/// Adds a chain with each block more that it can have.
fn extend(alloc: Global, found: &mut Vec<Chain>, chain: &Chain) -> Result<(), OutOfMemory>
    ensures { OnOk result (found.new.items ≡ found.old.items ++ extended chain.now) }
{
    for block in 0..BLOCK_COUNT {
        let longer = with_block(alloc, chain, block)?;
        add(found, longer)?;
    }
    Ok(())
}

/// Chains with a block more.
fn longer(alloc: Global, chains: &[Chain]) -> Result<Vec<Chain>, OutOfMemory>
    ensures { IfOk result (λ found. found.items ≡ flat_map extended chains.now) }
{
    let mut found = Vec::new(alloc);
    for chain in chains {
        extend(alloc, &mut found, chain)?;
    }
    Ok(found)
}

/// Whether the last block ends with what the first starts with.
fn closes(blocks: &[u8]) -> bool
    ensures { result ≡ closes blocks.now }
{
    match blocks.first() {
        Some(first) => follows(blocks, *first),
        None => false,
    }
}

/// Blocks from a place on, and then those before it.
fn rotate_blocks(alloc: Global, blocks: &[u8], first: usize) -> Result<Vec<u8>, OutOfMemory>
    requires { first ≤ length blocks.now }
    ensures { IfOk result (λ turned. turned.items ≡ rotated blocks.now first) }
{
    let mut turned = Vec::from_slice(alloc, &blocks[first..])?;
    turned.extend_from_slice(&blocks[..first])?;
    Ok(turned)
}

/// Whether an order is that of what comes first.
fn is_first(order: Ordering) -> bool
    ensures { result ≡ is_first order }
{
    matches!(order, Ordering::Less)
}

/// Whether the rotation at a place does not come before the blocks in dictionary order.
fn is_passed(alloc: Global, blocks: &[u8], first: usize) -> Result<bool, OutOfMemory>
    requires { first ≤ length blocks.now }
    ensures { IfOk result (λ b. b ≡ is_passed blocks.now first) }
{
    let turned = rotate_blocks(alloc, blocks, first)?;
    Ok(!is_first(turned.as_slice().cmp(blocks)))
}

/// Whether no rotation does.
fn is_least(alloc: Global, blocks: &[u8]) -> Result<bool, OutOfMemory>
    ensures { IfOk result (λ b. b ≡ is_least blocks.now) }
{
    for i in 0..blocks.len() {
        if !is_passed(alloc, blocks, i)? {
            return Ok(false);
        }
    }
    Ok(true)
}

/// Whether one block is a cycle alone, or more are none of which is one.
fn is_whole(blocks: &[u8]) -> bool
    ensures { result ≡ is_whole blocks.now }
{
    match blocks {
        [] => false,
        [one] => is_alone(*one),
        [first, ..] => !is_alone(*first),
    }
}

/// Whether a chain is a cycle, and the least of its rotations.
fn is_listed(alloc: Global, chain: &Chain) -> Result<bool, OutOfMemory>
    ensures { IfOk result (λ b. b ≡ is_listed chain.now) }
{
    if !is_whole(&chain.blocks) || !closes(&chain.blocks) {
        return Ok(false);
    }
    is_least(alloc, &chain.blocks)
}

/// Adds the blocks of a chain, if it is listed.
fn list_cycle(alloc: Global, found: &mut Vec<Vec<u8>>, chain: &Chain) -> Result<(), OutOfMemory>
    ensures { OnOk result (map (λ v. v.items) found.new.items
        ≡ map (λ v. v.items) found.old.items ++ cycle_of chain.now) }
{
    if is_listed(alloc, chain)? {
        let blocks = Vec::from_slice(alloc, &chain.blocks)?;
        found.push(blocks)?;
    }
    Ok(())
}

/// Adds the cycles among chains.
fn list_cycles(alloc: Global, found: &mut Vec<Vec<u8>>, chains: &[Chain]) -> Result<(), OutOfMemory>
    ensures { OnOk result (map (λ v. v.items) found.new.items
        ≡ map (λ v. v.items) found.old.items ++ flat_map cycle_of chains.now) }
{
    for chain in chains {
        list_cycle(alloc, found, chain)?;
    }
    Ok(())
}

/// The chain without a block, which may have this many events.
fn start_chain(alloc: Global, events: usize) -> Result<Vec<Chain>, OutOfMemory>
    ensures { IfOk result (λ chains. chains.items ≡ start_chain events ∷ []) }
{
    let mut chains = Vec::new(alloc);
    chains.push(Chain {
        blocks: Vec::new(alloc),
        left: events,
    })?;
    Ok(chains)
}

/// The critical cycles of at most this many events, each once, as numbers of blocks. Fails only if out of memory.
pub fn critical_cycles(alloc: Global, events: usize) -> Result<Vec<Vec<u8>>, OutOfMemory>
    ensures { IfOk result (λ found. map (λ v. v.items) found.items ≡ listed events) }
{
    let mut found = Vec::new(alloc);
    let mut chains = start_chain(alloc, events)?;
    for _ in 0..events / 2 {
        chains = longer(alloc, &chains)?;
        list_cycles(alloc, &mut found, &chains)?;
    }
    Ok(found)
}

/// Adds the words of a block, after a space unless they are the first.
fn put_block(text: &mut Vec<u8>, block: u8) -> Result<(), OutOfMemory>
    ensures { OnOk result (text.new.items ≡ with_space text.old.items ++ block_text block) }
{
    if !text.is_empty() {
        text.push(b' ')?;
    }
    put_text(text, block_text(block).as_bytes())
}

/// The words of a cycle of these blocks. Fails only if out of memory.
pub fn cycle_text(alloc: Global, blocks: &[u8]) -> Result<Vec<u8>, OutOfMemory>
    ensures { IfOk result (λ text. text.items ≡ cycle_text blocks.now) }
{
    let mut text = Vec::new(alloc);
    for block in blocks {
        put_block(&mut text, *block)?;
    }
    Ok(text)
}
