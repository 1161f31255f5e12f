//! Campaigns.

use crate::fault::Fault;
use crate::shape::{Shape, is_outside};
use crate::shape_error::ShapeError;
use common::{MAX_CAPACITY, MAX_STEPS, MAX_TRIALS};
use std::marker::Model;

/// What the trials of a campaign have in common: the shape of their programs, the seed of the first,
/// how many trials there are, how many steps each attempts at most, the capacity of store buffers and
/// the fault of the machine.
#[derive(Clone, Copy, PartialEq, Eq)]
pub struct Campaign {
    shape: Shape,
    base: u64,
    trials: usize,
    attempts: usize,
    capacity: usize,
    fault: Fault,
}

impl Model for Campaign {
    ghost use Rattle.program.specs.Campaigns.{Plan, IsPlan};

    ghost Value = { Plan };

    ghost view = { λ c. record {
      shape = c.shape;
      base = c.base;
      trials = c.trials;
      attempts = c.attempts;
      capacity = c.capacity;
      fault = c.fault;
    } };

    ghost inverse = { λ c. record {
      shape = c.shape;
      base = c.base;
      trials = c.trials;
      attempts = c.attempts;
      capacity = c.capacity;
      fault = c.fault;
    } };

    ghost invariant = { λ c. IsPlan (record {
      shape = c.shape;
      base = c.base;
      trials = c.trials;
      attempts = c.attempts;
      capacity = c.capacity;
      fault = c.fault;
    }) };
}

impl Campaign {
    ghost use Rattle.std.specs.Prelude.{◌≡◌};
    ghost use Rattle.program.specs.Campaigns.{IsPlan, plan_of};

    /// The campaign of 1 to `MAX_TRIALS` trials, each of 1 to `MAX_STEPS` attempts, on machines with a
    /// capacity of 1 to `MAX_CAPACITY`; else the first refusal, K5 to K7. It can't run out of memory.
    pub fn new(
        shape: Shape,
        base: u64,
        trials: usize,
        attempts: usize,
        capacity: usize,
        fault: Fault,
    ) -> Result<Campaign, ShapeError>
        ensures { result ≡ plan_of (record {
          shape = shape;
          base = base;
          trials = trials;
          attempts = attempts;
          capacity = capacity;
          fault = fault;
        }) }
    {
        shape.sound();
        if is_outside(MAX_TRIALS, trials) {
            return Err(ShapeError::K5);
        }
        if is_outside(MAX_STEPS, attempts) {
            return Err(ShapeError::K6);
        }
        if is_outside(MAX_CAPACITY, capacity) {
            return Err(ShapeError::K7);
        }
        Ok(Campaign {
            shape,
            base,
            trials,
            attempts,
            capacity,
            fault,
        })
    }

    /// The campaign of these numbers, which have to be within the limits.
    pub fn of_plan(
        shape: Shape,
        base: u64,
        trials: usize,
        attempts: usize,
        capacity: usize,
        fault: Fault,
    ) -> Campaign
        requires { IsPlan (record {
          shape = shape;
          base = base;
          trials = trials;
          attempts = attempts;
          capacity = capacity;
          fault = fault;
        }) }
        ensures { result ≡ record {
          shape = shape;
          base = base;
          trials = trials;
          attempts = attempts;
          capacity = capacity;
          fault = fault;
        } }
    {
        Campaign {
            shape,
            base,
            trials,
            attempts,
            capacity,
            fault,
        }
    }

    /// What every campaign keeps. It does nothing.
    pub fn sound(&self)
        ensures { IsPlan self.now }
    {
        let _trials = &self.trials;
    }

    /// The shape of the programs.
    pub fn shape(&self) -> &Shape
        ensures { result.now ≡ self.now.shape }
    {
        &self.shape
    }

    /// The seed of the first trial.
    pub fn base(&self) -> u64
        ensures { result ≡ self.now.base }
    {
        self.base
    }

    /// How many trials there are; from 1 to `MAX_TRIALS`.
    pub fn trials(&self) -> usize
        ensures { result ≡ self.now.trials }
    {
        self.trials
    }

    /// How many steps a trial attempts at most; from 1 to `MAX_STEPS`.
    pub fn attempts(&self) -> usize
        ensures { result ≡ self.now.attempts }
    {
        self.attempts
    }

    /// How many stores may wait in each store buffer; from 1 to `MAX_CAPACITY`.
    pub fn capacity(&self) -> usize
        ensures { result ≡ self.now.capacity }
    {
        self.capacity
    }

    /// What is wrong with the machine.
    pub fn fault(&self) -> Fault
        ensures { result ≡ self.now.fault }
    {
        self.fault
    }
}
