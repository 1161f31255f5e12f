//! What TSO allows, the machine does.

ghost use Rattle.std.specs.Prelude.{ℕ, List};
ghost use Rattle.recording.specs.Execution.{Execution};
ghost use Rattle.replay.specs.OrderReplay.{EveryOrderIsReplayed, MakesExactlyTso};

use machine::{every_run_is_tso, every_state_is_orderly};

/// A machine without fault, with any capacity of at least 1 that holds the plain stores of a core,
/// takes each step of the replay of a TSO order of a recording whose addresses are numbered by first
/// use, none unused; it comes to its end, and makes this recording again. So with such a capacity,
/// among the recordings whose addresses are so numbered, a program makes exactly those that have a TSO
/// order. It does nothing.
pub fn every_order_is_replayed()
    ensures replay { (x : Execution) (m : List ℕ) (capacity : ℕ) → EveryOrderIsReplayed x m capacity }
    ensures exactly { (x : Execution) (capacity : ℕ) → MakesExactlyTso x capacity }
{
    every_run_is_tso();
    every_state_is_orderly();
}
