//! What words of a generator name: operations of programs, and steps of runs.

use common::OutOfMemory;
use litmus::{generate, parse, print};
use machine::{Blocked, Machine, Step};
use program::{Fault, Shape};
use rand_core::SeedableRng;
use rand_xoshiro::Xoshiro256PlusPlus;
use std::alloc::Global;
use std::test::Fail;
use trials::run_seeded;

/// A generator whose next word is this one.
fn generator(word: u64) -> Xoshiro256PlusPlus {
    let [b0, b1, b2, b3, b4, b5, b6, b7] = word.rotate_right(23).to_le_bytes();
    Xoshiro256PlusPlus::from_seed([
        0, 0, 0, 0, 0, 0, 0, 0, 1, 0, 0, 0, 0, 0, 0, 0, 0, 0, 0, 0, 0, 0, 0, 0, b0, b1, b2, b3, b4,
        b5, b6, b7,
    ])
}

// Whether the operation of event 0 that a word makes, over two addresses, has the text.
fn makes(alloc: Global, word: u64, text: &str) -> Result<bool, OutOfMemory> {
    let Ok(shape) = Shape::new(1, 1, 2) else {
        return Ok(false);
    };
    let program = generate(alloc, &shape, &mut generator(word))?;
    let printed = print(alloc, &program)?;
    Ok(printed.as_slice() == text.as_bytes())
}

#[test]
fn a_word_makes_an_operation(rt: HostRuntime) -> Result<(), Fail> {
    let alloc = rt.alloc();
    assert!(rt; makes(alloc, 3, "core\nst a0 1\n")?);
    assert!(rt; makes(alloc, 7, "core\nswap a0 1\n")?);
    assert!(rt; makes(alloc, 16, "core\nld a1\n")?);
    assert!(rt; makes(alloc, 22, "core\nfence\n")?);
    assert!(rt; makes(alloc, 31, "core\nadd a1 1\n")?);
    Ok(())
}

// Why a step is blocked after these and the one that the word names.
fn blocked_after(machine: Machine, steps: &[Step], word: u64, step: Step) -> Option<Blocked> {
    let mut machine = machine;
    machine.run(steps);
    run_seeded(&mut machine, &mut generator(word), 1);
    machine.step(step).err()
}

// Whether this is why, in store buffering.
fn is_why(
    alloc: Global,
    steps: &[Step],
    word: u64,
    step: Step,
    why: Option<Blocked>,
) -> Result<bool, Fail> {
    let Ok(program) = parse(alloc, b"core\nst x 1\nld y\ncore\nst y 1\nld x\n") else {
        return Err("a program")?;
    };
    let machine = Machine::new(alloc, program, 8, Fault::None)?;
    Ok(blocked_after(machine, steps, word, step) == why)
}

/// The steps that come first, the word, a step after its own, and why that is blocked.
type Row = (&'static [Step], u64, Step, Option<Blocked>);

const ROWS: &[Row] = &[
    (&[], 0, Step::Drain(0), Some(Blocked::B5)),
    (
        &[Step::Exec(1), Step::GetM(1, 1)],
        3,
        Step::Drain(1),
        Some(Blocked::B6),
    ),
    (&[Step::GetS(1, 0)], 4, Step::GetS(0, 0), Some(Blocked::B7)),
    (&[Step::GetS(1, 0)], 4, Step::GetM(0, 0), None),
    (&[Step::GetS(0, 1)], 7, Step::GetS(1, 1), Some(Blocked::B7)),
    (&[Step::GetS(1, 0)], 8, Step::GetM(0, 0), Some(Blocked::B7)),
    (&[Step::GetS(0, 1)], 11, Step::GetM(1, 1), Some(Blocked::B7)),
    (&[Step::GetS(0, 0)], 12, Step::GetS(0, 0), None),
    (&[Step::GetS(1, 1)], 15, Step::GetS(1, 1), None),
];

#[test]
fn a_word_names_a_step(rt: HostRuntime) -> Result<(), Fail> {
    for &(steps, word, step, why) in ROWS {
        assert!(rt; is_why(rt.alloc(), steps, word, step, why)?);
    }
    Ok(())
}
