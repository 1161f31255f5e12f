//! Lists of equally many numbers that are found by their numbers.

ghost use Rattle.std.specs.Prelude.{◌≡◌, ◌+◌, ◌^◌, ◌<◌, ◌≤◌, Contains, IfNone, IfSome, Some, length, replicate};
ghost use Rattle.std.specs.Prelude.{slice_get, slice_index, slice_set};
ghost use Rattle.situations.specs.Chains.{AreChained, bucket_of, hash_from, mixed};
ghost use Rattle.situations.specs.Numbers.{numbers_of};

use crate::packed::Packed;
use crate::packed_list::PackedList;
use common::OutOfMemory;
use std::alloc::Global;
use std::marker::Model;

/// A number by which a list is found, after two words more.
fn mix(hash: u64, first: u32, second: u32) -> u64
    ensures { result ≡ mixed hash first second }
{
    let both = u64::from(first) + (u64::from(second) << 32);
    hash.wrapping_add(both)
        .wrapping_mul(11_400_714_819_323_198_485)
}

/// The number by which a list is found.
fn hash_of(list: &[u32]) -> u64
    ensures { result ≡ hash_from 0 list.now }
{
    let mut hash = 0;
    let half = list.len() / 2;
    for i in 0..half {
        hash = mix(hash, list[2 * i], list[2 * i + 1]);
    }
    if list.len() % 2 == 1 {
        hash = mix(hash, list[2 * half], 0);
    }
    hash
}

/// The bucket of a list, of this many.
fn bucket_of(list: &[u32], size: usize) -> usize
    requires { 0 < size }
    ensures value { result ≡ bucket_of size list.now }
    ensures within { result < size }
{
    (hash_of(list) >> 32) as usize % size
}

/// Puts a list before the others in its bucket.
fn link(list: &[u32], number: usize, heads: &mut Vec<u32>, next: &mut Vec<u32>)
    requires some { 0 < length heads.old.items }
    requires room { number < length next.old.items }
    requires few { number + 1 < 2 ^ 32 }
    ensures heads { heads.new.items
        ≡ slice_set heads.old.items (bucket_of (length heads.old.items) list.now) (number + 1) }
    ensures next { next.new.items ≡ slice_set next.old.items number
        (slice_index heads.old.items (bucket_of (length heads.old.items) list.now)) }
{
    let bucket = bucket_of(list, heads.len());
    next[number] = heads[bucket];
    heads[bucket] = number as u32 + 1;
}

/// Puts each list into its bucket; `words` is room for one.
fn link_all(lists: &Packed, heads: &mut Vec<u32>, next: &mut Vec<u32>, words: &mut [u32])
    requires some { 0 < length heads.old.items }
    requires empty { heads.old.items ≡ replicate (length heads.old.items) 0 }
    requires room { length lists.now.lists ≤ length next.old.items }
    requires few { length lists.now.lists < 2 ^ 32 }
    requires width { length words.old ≡ lists.now.width }
    ensures { AreChained lists.now.lists (length lists.now.lists) heads.new.items next.new.items }
{
    lists.sound();
    for number in 0..lists.len() {
        lists.list(number).read(words);
        link(words, number, heads, next);
    }
}

/// The number of a list among those that are linked; none where it is not there. `words` is room for one.
fn linked_number(
    lists: &Packed,
    heads: &[u32],
    next: &[u32],
    list: &[u32],
    words: &mut [u32],
) -> Option<usize>
    requires chained { AreChained lists.now.lists (length lists.now.lists) heads.now next.now }
    requires width { length words.old ≡ lists.now.width }
    ensures found { IfSome result (λ n. slice_get lists.now.lists n ≡ Some list.now) }
    ensures none { IfNone result (¬ Contains lists.now.lists list.now) }
{
    lists.sound();
    let mut at = heads[bucket_of(list, heads.len())] as usize;
    while at != 0 {
        let number = at - 1;
        lists.list(number).read(words);
        if *words == *list {
            return Some(number);
        }
        at = next[number] as usize;
    }
    None
}

/// Lists of equally many numbers below 2^32, each once, that are found by their numbers: each bucket has a chain of its
/// lists. A list takes 8 to 12 bytes and one for each of its numbers; four for each where its block of 64 lists has a
/// number above 255 and more than 128 numbers above 127.
#[derive(Drop)]
pub struct ListSet {
    /// The lists.
    lists: Packed,
    /// For each bucket the number of its last list, from 1, and 0 where it has none.
    heads: Vec<u32>,
    /// For each list the number of the one before it in its bucket, from 1, and 0 where it is the first.
    next: Vec<u32>,
    /// Room for the numbers of a list.
    words: Vec<u32>,
}

impl Model for ListSet {
    ghost use Rattle.std.specs.Prelude.{length};
    ghost use Rattle.situations.specs.Chains.{IsLinked};
    ghost use Rattle.situations.specs.Packed.{PackedLists};

    ghost Value = { PackedLists };

    ghost view = { λ s. s.lists };

    ghost invariant = { λ s. IsLinked s.lists.width s.lists.lists s.heads.items s.next.items s.words.items };
}

impl ListSet {
    ghost use Rattle.std.specs.Prelude.{◌≡◌, ◌^◌, ◌+◌, ◌<◌, ◌++◌, ◌∷◌, [], All, Contains, IfNone, IfOk, IfSome, OnErr};
    ghost use Rattle.std.specs.Prelude.{OnOk, Some, length, slice_get, slice_index_or};
    ghost use Rattle.situations.specs.Chains.{with_list};
    ghost use Rattle.situations.specs.Numbers.{numbers_of};

    /// No lists yet, of this many numbers each. Fails only if out of memory.
    pub fn new(alloc: Global, width: usize) -> Result<ListSet, OutOfMemory>
        requires { width < 2 ^ 32 }
        ensures { IfOk result (λ s. s ≡ record { width = width; lists = [] }) }
    {
        Ok(ListSet {
            lists: Packed::new(alloc, width),
            heads: vec![in alloc; 0u32; 64]?,
            next: Vec::new(alloc),
            words: vec![in alloc; 0u32; width]?,
        })
    }

    /// How many lists there are.
    pub fn len(&self) -> usize
        ensures { result ≡ length self.now.lists }
    {
        self.lists.len()
    }

    /// What all lists keep. It does nothing.
    pub fn sound(&self)
        ensures { All (λ l. length l ≡ self.now.width) self.now.lists }
    {
        self.lists.sound();
    }

    /// The list with a number.
    pub fn list(&self, number: usize) -> PackedList
        requires { number < length self.now.lists }
        ensures { numbers_of result ≡ slice_index_or self.now.lists number [] }
    {
        self.lists.list(number)
    }

    /// The number of a list; none where it is not among them.
    pub fn number(&mut self, list: &[u32]) -> Option<usize>
        ensures found { IfSome result (λ n. slice_get self.old.lists n ≡ Some list.now) }
        ensures none { IfNone result (¬ Contains self.old.lists list.now) }
        ensures kept { self.new ≡ self.old }
    {
        linked_number(&self.lists, &self.heads, &self.next, list, &mut self.words)
    }

    /// Twice as many buckets.
    fn grow(&mut self, alloc: Global) -> Result<(), OutOfMemory>
        requires { length self.old.lists < 2 ^ 32 }
        ensures { self.new ≡ self.old }
    {
        let mut heads = vec![in alloc; 0u32; self.heads.len().saturating_mul(2)]?;
        link_all(&self.lists, &mut heads, &mut self.next, &mut self.words);
        self.heads = heads;
        Ok(())
    }

    /// Adds a list.
    fn add(&mut self, alloc: Global, list: &[u32]) -> Result<(), OutOfMemory>
        requires width { length list.now ≡ self.old.width }
        requires few { length self.old.lists + 1 < 2 ^ 32 }
        ensures err { OnErr result (self.new ≡ self.old) }
        ensures ok { OnOk result (self.new ≡ record {
          width = self.old.width;
          lists = self.old.lists ++ list.now ∷ [];
        }) }
    {
        let number = self.lists.len();
        if self.next.len() == number {
            self.next.push(0)?;
        }
        self.lists.push(alloc, list)?;
        link(list, number, &mut self.heads, &mut self.next);
        Ok(())
    }

    /// Adds a list that is not among them. Fails only if out of memory, or with 2^32 - 1 lists.
    pub fn push(&mut self, alloc: Global, list: &[u32]) -> Result<(), OutOfMemory>
        requires width { length list.now ≡ self.old.width }
        requires new { ¬ Contains self.old.lists list.now }
        ensures err { OnErr result (self.new ≡ self.old) }
        ensures ok { OnOk result (self.new ≡ record {
          width = self.old.width;
          lists = self.old.lists ++ list.now ∷ [];
        }) }
    {
        if self.len() >= u32::MAX as usize {
            return Err(OutOfMemory);
        }
        if self.len() >= self.heads.len() {
            self.grow(alloc)?;
        }
        self.add(alloc, list)
    }

    /// Adds a list, unless it is there. Fails only if out of memory, or with 2^32 - 1 lists.
    pub fn insert(&mut self, alloc: Global, list: &[u32]) -> Result<(), OutOfMemory>
        requires { length list.now ≡ self.old.width }
        ensures err { OnErr result (self.new ≡ self.old) }
        ensures ok { OnOk result (self.new ≡ record {
          width = self.old.width;
          lists = with_list self.old.lists list.now;
        }) }
    {
        match self.number(list) {
            Some(_) => Ok(()),
            None => self.push(alloc, list),
        }
    }
}
