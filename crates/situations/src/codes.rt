//! Numbers as codes of a byte each.

ghost use Rattle.std.specs.Prelude.{◌≡◌, ◌+◌, ◌++◌, ◌<◌, ◌≤◌, ℕ, All, Contains, IfNone, IfOk, IfSome, List, OnOk, Some};
ghost use Rattle.std.specs.Prelude.{length};
ghost use Rattle.std.specs.Prelude.{slice_get};
ghost use Rattle.situations.specs.Numbers.{number_of};

use crate::packed_list::{PackedList, part};
use common::OutOfMemory;
use std::alloc::Global;
use std::marker::Model;

/// The number of a code: below 128 the code itself, from then on one of the large numbers.
pub(crate) fn number_of(code: u8, large: &[u32]) -> u32
    ensures { result ≡ number_of large.now code }
{
    if code < 128 {
        return u32::from(code);
    }
    let at = usize::from(code) - 128;
    if at < large.len() { large[at] } else { 0 }
}

/// Where a number stands among others, if it does.
fn place_of(number: u32, others: &[u32]) -> Option<usize>
    ensures some { IfSome result (λ i. slice_get others.now i ≡ Some number) }
    ensures none { IfNone result (Contains others.now number → ⊥) }
{
    for (i, other) in others.iter().enumerate() {
        if *other == number {
            return Some(i);
        }
    }
    None
}

/// The code of a number, which is one of the large numbers from then on if it is 128 or more; none where 128 others
/// are.
fn code_of(number: u32, large: &mut Vec<u32>) -> Result<Option<u8>, OutOfMemory>
    requires few { length large.old.items ≤ 128 }
    ensures code { IfOk result (λ o. IfSome o (λ code. number_of large.new.items code ≡ number)) }
    ensures within { IfOk result (λ o. IfSome o (λ code. code < 128 + length large.new.items)) }
    ensures none { IfOk result (λ o. IfNone o (128 ≤ number)) }
    ensures grows { OnOk result ((more : List ℕ) × (large.new.items ≡ large.old.items ++ more)) }
    ensures few { OnOk result (length large.new.items ≤ 128) }
{
    if number < 128 {
        return Ok(Some(number as u8));
    }
    let count = large.len();
    match place_of(number, large) {
        Some(at) => Ok(Some((128 + at) as u8)),
        None => {
            if count >= 128 {
                return Ok(None);
            }
            large.push(number)?;
            Ok(Some((128 + count) as u8))
        }
    }
}

/// Numbers, each as a code, and the large numbers among them.
#[derive(Drop)]
pub(crate) struct Coded {
    /// The code of each.
    codes: Vec<u8>,
    /// The numbers from 128 on, each once.
    large: Vec<u32>,
}

impl Model for Coded {
    ghost use Rattle.std.specs.Prelude.{List, ℕ, map};
    ghost use Rattle.situations.specs.Numbers.{number_of};

    ghost Value = { List ℕ };

    ghost view = { λ c. map (number_of c.large.items) c.codes.items };
}

impl Coded {
    ghost use Rattle.std.specs.Prelude.{◌≡◌, ◌+◌, ◌<◌, ◌≤◌, All, IfNone, IfOk, IfSome, drop, length, take};
    ghost use Rattle.situations.specs.Numbers.{numbers_of};

    /// These numbers; none where more than 128 of them are large. Fails only if out of memory.
    pub(crate) fn of(alloc: Global, words: &[u32]) -> Result<Option<Coded>, OutOfMemory>
        ensures some { IfOk result (λ o. IfSome o (λ coded. coded ≡ words.now)) }
        ensures none { IfOk result (λ o. IfNone o (All (λ n. n < 128) words.now → ⊥)) }
    {
        let mut codes = vec![in alloc; 0u8; words.len()]?;
        let mut large = Vec::new(alloc);
        for (i, word) in words.iter().enumerate() {
            let Some(code) = code_of(*word, &mut large)? else {
                return Ok(None);
            };
            codes[i] = code;
        }
        Ok(Some(Coded { codes, large }))
    }

    /// This many of them, from a place on.
    pub(crate) fn part(&self, from: usize, count: usize) -> PackedList
        requires { from + count ≤ length self.now }
        ensures { numbers_of result ≡ take count (drop from self.now) }
    {
        PackedList::Codes(part(&self.codes, from, count), &self.large)
    }
}
