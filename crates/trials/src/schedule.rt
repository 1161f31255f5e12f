//! The steps that words name.

ghost use Rattle.std.specs.Prelude.{◌≡◌, ◌<◌, ◌≤◌, ◌*◌, ◌/◌, ◌%◌, ◌^◌, length};
ghost use Rattle.trials.specs.Schedule.{AreSteps, step_at, step_count, step_of_word, transaction_at};

use crate::divisor::Divisor;
use common::{Addr, CoreId, MAX_ADDRESSES, MAX_CORES};
use machine::Step;

/// How many steps a machine has at most.
pub(crate) const MOST_STEPS: usize = 2 * MAX_CORES + 3 * MAX_CORES * MAX_ADDRESSES;

/// How many steps a machine has.
#[tactic(auto, using(crate::proofs::Lines::few_lines))]
pub(crate) fn step_count(cores: usize, addresses: usize) -> usize
    requires few { (cores ≤ MAX_CORES) × (addresses ≤ MAX_ADDRESSES) }
    ensures { result ≡ step_count cores addresses }
{
    2 * cores + 3 * (cores * addresses)
}

/// The core and the address of line i.
#[tactic(auto, using(crate::proofs::Lines::quotient_le))]
fn line_at(addresses: usize, i: usize) -> (CoreId, Addr)
    requires some { 0 < addresses }
    requires few { i ≤ MAX_CORES * MAX_ADDRESSES }
    ensures core { result.0 ≡ i / addresses }
    ensures address { result.1 ≡ i % addresses }
{
    ((i / addresses) as CoreId, (i % addresses) as Addr)
}

/// Step i of the transactions.
fn transaction_at(cores: usize, addresses: usize, i: usize) -> Step
    requires some { 0 < addresses }
    requires few { cores * addresses ≤ MAX_CORES * MAX_ADDRESSES }
    requires within { i < 3 * (cores * addresses) }
    ensures { result ≡ transaction_at cores addresses i }
{
    let lines = cores * addresses;
    if i < lines {
        let (core, addr) = line_at(addresses, i);
        return Step::GetS(core, addr);
    }
    if i < 2 * lines {
        let (core, addr) = line_at(addresses, i - lines);
        return Step::GetM(core, addr);
    }
    let (core, addr) = line_at(addresses, i - 2 * lines);
    Step::Put(core, addr)
}

/// Step i: Exec of each core, Drain of each core, and the transactions.
#[tactic(auto, using(crate::proofs::Lines::few_lines))]
fn step_at(cores: usize, addresses: usize, i: usize) -> Step
    requires few { (cores ≤ MAX_CORES) × (addresses ≤ MAX_ADDRESSES) }
    requires within { i < step_count cores addresses }
    ensures { result ≡ step_at cores addresses i }
{
    if i < cores {
        return Step::Exec(i as CoreId);
    }
    if i < 2 * cores {
        return Step::Drain((i - cores) as CoreId);
    }
    transaction_at(cores, addresses, i - 2 * cores)
}

/// Puts the steps of a machine, by their numbers, to the front of a table.
pub(crate) fn fill(cores: usize, addresses: usize, table: &mut [Step])
    requires few { (cores ≤ MAX_CORES) × (addresses ≤ MAX_ADDRESSES) }
    requires room { step_count cores addresses ≤ length table.old }
    ensures steps { AreSteps cores addresses table.new }
    ensures room { length table.new ≡ length table.old }
{
    for i in 0..step_count(cores, addresses) {
        table[i] = step_at(cores, addresses, i);
    }
}

/// The divisor by which words name steps, where there is a core.
#[tactic(auto, using(crate::proofs::Lines::few_lines))]
pub(crate) fn steps_divisor(cores: usize, addresses: usize) -> Divisor
    requires few { (cores ≤ MAX_CORES) × (addresses ≤ MAX_ADDRESSES) }
    ensures number { 0 < cores → result.number ≡ step_count cores addresses }
    ensures share { result.share * result.number ≤ 2 ^ 64 }
{
    Divisor::new(step_count(cores, addresses).max(1) as u64)
}

/// The step that a word names, from the table of steps; without a core there is none, and this one is
/// blocked.
pub(crate) fn step_of_word(
    cores: usize,
    _addresses: usize,
    table: &[Step],
    count: Divisor,
    word: u64,
) -> Step
    requires table { AreSteps cores _addresses table.now }
    requires room { step_count cores _addresses ≤ length table.now }
    requires count { 0 < cores → count.number ≡ step_count cores _addresses }
    requires share { count.share * count.number ≤ 2 ^ 64 }
    ensures { result ≡ step_of_word cores _addresses word }
{
    if cores == 0 {
        return Step::Exec(0);
    }
    table[count.remainder(word) as usize]
}
