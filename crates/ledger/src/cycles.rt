//! The lines of the lengths of cycles.

ghost use Rattle.std.specs.Prelude.{◌≡◌, ◌≤◌, ◌<◌, ◌^◌, ◌+◌, ◌++◌, ◌∷◌, ℕ, List, IfOk, codes, decimal, length};
ghost use Rattle.std.specs.Prelude.{slice_index};
ghost use Rattle.ledger.specs.declared.code.TheConstants.{LONG_CYCLE};
ghost use Rattle.ledger.specs.Counted.{cycle_lines, length_name};
ghost use Rattle.ledger.specs.Parts.{Are64Bit};

use crate::code::LONG_CYCLE;
use crate::words::{cycle_length, number};
use common::OutOfMemory;
use std::alloc::Global;
use texts::Cursor;

/// Reads a length of cycles and how many recordings have one.
fn cycle_count(rest: &mut Cursor<'_>) -> (usize, usize)
    ensures { (n m : ℕ) (more : List ℕ) → n ≤ LONG_CYCLE → m < 2 ^ 64
        → rest.old ≡ length_name n ++ (codes ": " ++ (decimal m ++ 10 ∷ more))
        → (result ≡ (n, m)) × (rest.new ≡ more) }
{
    let cycle = cycle_length(rest);
    rest.take(b": ");
    let count = number(rest);
    rest.take(b"\n");
    (cycle, count)
}

/// Reads how many recordings have a cycle of each length, by the lines of those that occur, as far as they ascend.
/// Fails only if out of memory.
pub(crate) fn cycle_counts(rest: &mut Cursor<'_>, alloc: Global) -> Result<Vec<usize>, OutOfMemory>
    ensures size { IfOk result (λ v. length v.items ≡ LONG_CYCLE + 1) }
    ensures only { IfOk result (λ v. (counts more : List ℕ) → length counts ≡ LONG_CYCLE + 1 → Are64Bit counts
        → slice_index more 0 ≡ 102 → rest.old ≡ cycle_lines counts (length counts) ++ more
        → (v.items ≡ counts) × (rest.new ≡ more)) }
{
    let mut counts = Vec::new(alloc);
    counts.resize(LONG_CYCLE + 1, 0)?;
    let mut least = 0;
    'lines: while rest.take(b"cycle ") {
        let (cycle, count) = cycle_count(rest);
        if cycle < least || cycle > LONG_CYCLE {
            break;
        }
        counts[cycle] = count;
        least = cycle + 1;
    }
    Ok(counts)
}
