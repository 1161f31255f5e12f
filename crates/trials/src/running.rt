//! Random runs.

ghost use Rattle.std.specs.Prelude.{◌≡◌, ◌≤◌, ◌∷◌, ◌↔◌, [], false, length, IsTrue};
ghost use Rattle.machine.specs.Configuration.{IsAtEnd};
ghost use Rattle.trials.specs.Judged.{ran};
ghost use Rattle.trials.specs.Schedule.{IsRandomRun, step_count};

use crate::schedule::{MOST_STEPS, fill, step_count, step_of_word, steps_divisor};
use machine::{Machine, Step};
use rand_core::utils::NextWord;
use rand_xoshiro::Xoshiro256PlusPlus;

/// A machine of no more steps is small, and a table of this many is enough for it.
const FEW_STEPS: usize = 64;

/// Attempts this many steps at most, each named by the next word of the generator, until the machine is
/// complete; a blocked attempt counts. It can't run out of memory.
pub fn run_seeded(machine: &mut Machine, rng: &mut Xoshiro256PlusPlus, attempts: usize)
    ensures { IsRandomRun attempts machine.old rng.old machine.new rng.new }
{
    let cores = machine.program().cores();
    let addresses = machine.program().names().len();
    if step_count(cores, addresses) <= FEW_STEPS {
        run_by(&mut [Step::Exec(0); FEW_STEPS], machine, rng, attempts);
    } else {
        run_by(&mut [Step::Exec(0); MOST_STEPS], machine, rng, attempts);
    }
}

/// Whether the machine is complete, where it can only be so once a core went on.
fn is_at_end(machine: &Machine, went_on: bool) -> bool
    requires { went_on ≡ false → ¬ IsAtEnd machine.now }
    ensures { IsTrue result ↔ IsAtEnd machine.now }
{
    went_on && machine.is_complete()
}

/// Attempts a step, and tells whether a core went on by it: a blocked step changes nothing, and a
/// transaction leaves every core where it is.
fn attempt(machine: &mut Machine, step: Step) -> bool
    ensures ran { machine.new ≡ ran machine.old (step ∷ []) }
    ensures still { result ≡ false → IsAtEnd machine.new → IsAtEnd machine.old }
{
    machine.step(step).is_ok() && matches!(step, Step::Exec(_) | Step::Drain(_))
}

/// Takes random steps, as `run_seeded` does, with a table that has room for the machine's steps.
fn run_by(table: &mut [Step], machine: &mut Machine, rng: &mut Xoshiro256PlusPlus, attempts: usize)
    requires room { step_count (length machine.old.program.cores) (length machine.old.program.names)
        ≤ length table.old }
    ensures { IsRandomRun attempts machine.old rng.old machine.new rng.new }
{
    let cores = machine.program().cores();
    let addresses = machine.program().names().len();
    fill(cores, addresses, table);
    let count = steps_divisor(cores, addresses);
    let mut went_on = true;
    'attempts: for _taken in 0..attempts {
        if is_at_end(machine, went_on) {
            return;
        }
        let step = step_of_word(cores, addresses, table, count, rng.next_word());
        went_on = attempt(machine, step);
    }
}
