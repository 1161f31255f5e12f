//! Whether two programs are one.

ghost use Rattle.std.specs.Prelude.{◌≡◌, ◌↔◌, IsTrue};

use crate::name::Name;
use crate::op::{Op, Ops};
use indexmap::IndexSet;

/// Whether these are the same names in the same order.
pub(crate) fn are_same_names(a: &IndexSet<Name>, b: &IndexSet<Name>) -> bool
    ensures { IsTrue result ↔ (a.now.keys ≡ b.now.keys) }
{
    a.as_slice() == b.as_slice()
}

/// Whether these are the same values in the same order.
pub(crate) fn are_same_values(a: &[u32], b: &[u32]) -> bool
    ensures { IsTrue result ↔ (a.now ≡ b.now) }
{
    a == b
}

/// Whether these are one operation.
fn is_same_op(a: Op, b: Op) -> bool
    ensures { IsTrue result ↔ (a ≡ b) }
{
    a == b
}

/// Whether these are the same operations in the same order.
fn are_same_ops(a: &[Op], b: &[Op]) -> bool
    ensures { IsTrue result ↔ (a.now ≡ b.now) }
{
    if a.len() != b.len() {
        return false;
    }
    for (i, op) in a.iter().enumerate() {
        if !is_same_op(*op, b[i]) {
            return false;
        }
    }
    true
}

/// Whether the cores have the same operations.
pub(crate) fn are_same_cores(first: &[Ops], second: &[Ops]) -> bool
    ensures { IsTrue result ↔ (first.now ≡ second.now) }
{
    if first.len() != second.len() {
        return false;
    }
    for (i, ops) in first.iter().enumerate() {
        if !are_same_ops(ops.as_slice(), second[i].as_slice()) {
            return false;
        }
    }
    true
}
