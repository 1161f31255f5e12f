//! Pairs of events as rows of bits: for each event those that come after it.

ghost use Rattle.std.specs.Prelude.{◌≡◌, ◌-◌, ◌^◌, ◌<◌, ℕ, IfOk, IsTrue, true, length};
ghost use Rattle.bitrow.specs.Bits.{is_in};
ghost use Rattle.values.specs.Values.{Values};
ghost use Rattle.completion.specs.Inferred.{AreShown, IsShown};
ghost use Rattle.completion.specs.Pairs.{HasPair, IsSquare};

use bitrow::BitRow;
use common::OutOfMemory;
use std::alloc::Global;

/// No pair of `count` events. Fails only if out of memory.
pub(crate) fn no_pairs(alloc: Global, count: usize) -> Result<Vec<BitRow>, OutOfMemory>
    ensures square { IfOk result (λ rows. IsSquare rows.items) }
    ensures shown { IfOk result (λ rows. (v : Values) → AreShown v rows.items) }
{
    let mut rows = Vec::new(alloc);
    for _ in 0..count {
        rows.push(BitRow::new(alloc, count)?)?;
    }
    Ok(rows)
}

/// Whether a pair is there.
pub(crate) fn has(rows: &[BitRow], e: usize, f: usize) -> bool
    requires { IsSquare rows.now }
    ensures pair { IsTrue result → HasPair rows.now e f }
    ensures first { IsTrue result → e < 2 ^ 64 - 1 }
    ensures second { IsTrue result → f < 2 ^ 64 - 1 }
{
    if e >= rows.len() || f >= rows.len() {
        return false;
    }
    rows[e].test(f)
}

/// Puts a pair, if both events are there. Whether it is new.
pub(crate) fn put(rows: &mut [BitRow], e: usize, f: usize) -> bool
    requires { IsSquare rows.old }
    ensures square { IsSquare rows.new }
    ensures size { length rows.new ≡ length rows.old }
    ensures shown { (v : Values) → AreShown v rows.old → IsShown v e f → AreShown v rows.new }
{
    if e >= rows.len() || f >= rows.len() || rows[e].test(f) {
        return false;
    }
    rows[e].set(f);
    true
}

/// What comes after an event, which a row has, comes after an event where that one does.
fn join_one(rows: &mut [BitRow], e: usize, middle: usize, later: &BitRow)
    requires square { IsSquare rows.old }
    requires there { e < length rows.old }
    requires middle { middle < length rows.old }
    requires later { length later.now ≡ length rows.old }
    ensures square { IsSquare rows.new }
    ensures size { length rows.new ≡ length rows.old }
    ensures shown { (v : Values) → AreShown v rows.old
        → ((f : ℕ) → is_in later.now f ≡ true → IsShown v middle f) → AreShown v rows.new }
{
    if rows[e].test(middle) {
        later.or_into(&mut rows[e]);
    }
}

/// What comes after an event, which a row has, comes after each event before that one.
fn join(rows: &mut [BitRow], middle: usize, later: &BitRow)
    requires square { IsSquare rows.old }
    requires middle { middle < length rows.old }
    requires later { length later.now ≡ length rows.old }
    ensures square { IsSquare rows.new }
    ensures size { length rows.new ≡ length rows.old }
    ensures shown { (v : Values) → AreShown v rows.old
        → ((f : ℕ) → is_in later.now f ≡ true → IsShown v middle f) → AreShown v rows.new }
{
    for e in 0..rows.len() {
        join_one(rows, e, middle, later);
    }
}

/// The same row in memory of its own.
pub(crate) fn copy(alloc: Global, row: &BitRow, count: usize) -> Result<BitRow, OutOfMemory>
    requires { length row.now ≡ count }
    ensures size { IfOk result (λ r. length r ≡ count) }
    ensures numbers { IfOk result (λ r. (j : ℕ) → is_in r j ≡ is_in row.now j) }
{
    let mut made = BitRow::new(alloc, count)?;
    row.or_into(&mut made);
    Ok(made)
}

/// Puts all pairs that follow by two pairs. Fails only if out of memory.
pub(crate) fn close(alloc: Global, rows: &mut [BitRow]) -> Result<(), OutOfMemory>
    requires { IsSquare rows.old }
    ensures square { IsSquare rows.new }
    ensures size { length rows.new ≡ length rows.old }
    ensures shown { (v : Values) → AreShown v rows.old → AreShown v rows.new }
{
    let count = rows.len();
    for middle in 0..count {
        let later = copy(alloc, &rows[middle], count)?;
        join(rows, middle, &later);
    }
    Ok(())
}

/// Whether some event comes before itself.
pub(crate) fn has_circle(rows: &[BitRow]) -> bool
    requires { IsSquare rows.now }
    ensures { IsTrue result → (e : ℕ) × HasPair rows.now e e }
{
    for e in 0..rows.len() {
        if has(rows, e, e) {
            return true;
        }
    }
    false
}
