//! How large random programs are.

ghost use Rattle.std.specs.Prelude.{◌≡◌};
ghost use Rattle.program.specs.Shapes.{is_outside};

use crate::shape_error::ShapeError;
use common::{MAX_ADDRESSES, MAX_CORES, MAX_EVENTS};
use std::marker::Model;

/// How many cores a random program has, how many operations each of them, and how many addresses
/// they are drawn from.
#[derive(Clone, Copy, PartialEq, Eq)]
pub struct Shape {
    cores: usize,
    ops: usize,
    addresses: usize,
}

impl Model for Shape {
    ghost use Rattle.program.specs.Shapes.{Sizes, IsShape};

    ghost Value = { Sizes };

    ghost view = { λ s. record { cores = s.cores; ops = s.ops; addresses = s.addresses } };

    ghost inverse = { λ s. record { cores = s.cores; ops = s.ops; addresses = s.addresses } };

    ghost invariant = { λ s. IsShape (record { cores = s.cores; ops = s.ops; addresses = s.addresses }) };
}

impl Shape {
    ghost use Rattle.std.specs.Prelude.{◌≡◌};
    ghost use Rattle.program.specs.Shapes.{IsShape, shape_of};

    /// The shape of these sizes: at most `MAX_CORES` cores, `MAX_ADDRESSES` addresses and
    /// `MAX_EVENTS` operations over all cores, and at least one of each; else the first refusal, K1
    /// to K4. It can't run out of memory.
    pub fn new(cores: usize, ops: usize, addresses: usize) -> Result<Shape, ShapeError>
        ensures { result ≡ shape_of cores ops addresses }
    {
        if is_outside(MAX_CORES, cores) {
            return Err(ShapeError::K1);
        }
        if is_outside(MAX_EVENTS, ops) {
            return Err(ShapeError::K2);
        }
        if is_outside(MAX_ADDRESSES, addresses) {
            return Err(ShapeError::K3);
        }
        if MAX_EVENTS < cores * ops {
            return Err(ShapeError::K4);
        }
        Ok(Shape {
            cores,
            ops,
            addresses,
        })
    }

    /// What every shape keeps. It does nothing.
    pub fn sound(&self)
        ensures { IsShape self.now }
    {
        let _cores = &self.cores;
    }

    /// How many cores; from 1 to `MAX_CORES`.
    pub fn cores(&self) -> usize
        ensures { result ≡ self.now.cores }
    {
        self.cores
    }

    /// How many operations each core has; from 1 to `MAX_EVENTS`.
    pub fn ops(&self) -> usize
        ensures { result ≡ self.now.ops }
    {
        self.ops
    }

    /// How many addresses operations are drawn from; from 1 to `MAX_ADDRESSES`.
    pub fn addresses(&self) -> usize
        ensures { result ≡ self.now.addresses }
    {
        self.addresses
    }
}

/// Whether the number is not from 1 to the limit.
pub fn is_outside(limit: usize, number: usize) -> bool
    ensures { result ≡ is_outside limit number }
{
    number < 1 || limit < number
}
