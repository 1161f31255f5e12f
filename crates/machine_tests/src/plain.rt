//! Calls without a clause, for tests that hand them written texts and steps: with the exact clauses of the
//! calls themselves such a test took minutes to prove.

use common::EventId;
use litmus::parse;
use machine::Machine;
use order::check;
use program::Program;
use std::alloc::{AllocError, Global};
use std::test::Fail;

/// Store buffering.
pub const STORE_BUFFERING: &str = "core\nst x 1\nld y\ncore\nst y 1\nld x\n";

/// The program of a text.
pub fn program(alloc: Global, text: &str) -> Result<Program, Fail> {
    Ok(parse(alloc, text.as_bytes()).ok().ok_or("a program")?)
}

/// Whether a machine is complete, and TSO allows this order of its recording.
pub fn is_order(machine: Machine, order: &[EventId]) -> bool {
    match machine.finish() {
        Ok(recording) => check(&recording, order),
        Err(_) => false,
    }
}

/// Whether a machine is complete, and TSO allows the order of what it performed.
pub fn performs_an_order(alloc: Global, machine: Machine) -> Result<bool, AllocError> {
    let performed = Vec::from_slice(alloc, machine.performed())?;
    Ok(is_order(machine, performed.as_slice()))
}
