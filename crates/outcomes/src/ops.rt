//! The plain stores that come first among a core's operations.

ghost use Rattle.std.specs.Prelude.{◌≡◌, ◌≤◌, length};
ghost use Rattle.program_events.specs.Operations.{is_st};
ghost use Rattle.outcomes.specs.Situation.{past_stores, stores_first};

use program::Op;

/// Whether an operation is a plain store.
fn is_store(op: Op) -> bool
    ensures { result ≡ is_st op }
{
    match op {
        Op::St(_, _) => true,
        Op::Ld(_) => false,
        Op::Fence => false,
        Op::Swap(_, _) => false,
        Op::Add(_, _) => false,
        Op::Cas(_, _, _) => false,
    }
}

/// How many plain stores come first.
pub(crate) fn stores_first(ops: &[Op]) -> usize
    ensures value { result ≡ stores_first ops.now }
    ensures within { result ≤ length ops.now }
{
    let mut count = 0;
    for op in ops {
        if !is_store(*op) {
            return count;
        }
        count += 1;
    }
    count
}

/// The first place from this one on where no plain store stands.
pub(crate) fn past_stores(ops: &[Op], place: usize) -> usize
    requires { place ≤ length ops.now }
    ensures value { result ≡ past_stores ops.now place }
    ensures within { result ≤ length ops.now }
{
    place + stores_first(&ops[place..])
}
