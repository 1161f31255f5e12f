//! How often runs come to each outcome.

ghost use Rattle.std.specs.Prelude.{◌≡◌, ◌+◌, ◌++◌, ◌∷◌, ◌^◌, ◌<◌, [], List, OnOk, Option, Some, length, slice_get};
ghost use Rattle.histograms.specs.declared.seen.Seen.{Seen};
ghost use Rattle.histograms.specs.Histogram.{IsHistogram, IsRanked, has_violation, ranked};

use crate::seen::Seen;
use crate::tally::{Tally, with_run};
use common::OutOfMemory;
use indexmap::IndexMap;
use outcomes::Outcome;
use std::alloc::Global;
use std::cmp::Ordering;
use std::marker::Model;

/// The outcomes to which runs came, each with the tally of its runs, and how many runs are unfinished.
#[derive(Drop)]
pub struct Histogram {
    bars: IndexMap<Outcome, Tally>,
    unfinished: usize,
}

impl Model for Histogram {
    ghost use Rattle.histograms.specs.Histogram.{Histogram};

    ghost Value = { Histogram };

    ghost view = { λ h. record { bars = h.bars.entries; unfinished = h.unfinished } };
}

impl Histogram {
    /// Of no run.
    pub(crate) fn new(alloc: Global) -> Histogram
        ensures { IsHistogram [] result }
    {
        Histogram {
            bars: IndexMap::new(alloc),
            unfinished: 0,
        }
    }

    /// Adds a run with its number: none where it is unfinished.
    pub(crate) fn add(&mut self, run: u64, seen: Option<Seen>) -> Result<(), OutOfMemory>
        requires { (runs : List (Option Seen)) × IsHistogram runs self.old × (length runs ≡ run) × (run + 1 < 2 ^ 64) }
        ensures { OnOk result ((runs : List (Option Seen)) → IsHistogram runs self.old → length runs ≡ run
            → IsHistogram (runs ++ seen ∷ []) self.new) }
    {
        match seen {
            Some(Seen { outcome, violation }) => {
                let known = self.bars.get(&outcome).copied();
                let _before = self.bars.insert(outcome, with_run(known, run, violation))?;
            }
            None => self.unfinished += 1,
        }
        Ok(())
    }

    /// How many outcomes there are.
    pub fn len(&self) -> usize
        ensures { result ≡ length self.now.bars }
    {
        self.bars.len()
    }

    /// The outcome at an index, with the tally of its runs.
    pub fn bar(&self, index: usize) -> (&Outcome, &Tally)
        requires { index < length self.now.bars }
        ensures { slice_get self.now.bars index ≡ Some (result.0.now, result.1.now) }
    {
        match self.bars.get_index(index) {
            Some(bar) => bar,
            None => unreachable!(),
        }
    }

    /// How many runs are unfinished.
    pub fn unfinished_runs(&self) -> usize
        ensures { result ≡ self.now.unfinished }
    {
        self.unfinished
    }

    /// Whether a run is a violation.
    pub fn has_violation(&self) -> bool
        ensures { result ≡ has_violation self.now }
    {
        for i in 0..self.len() {
            if self.bar(i).1.violation {
                return true;
            }
        }
        false
    }

    /// Puts the more frequent outcome first, and of two that are equally frequent the first in dictionary order.
    pub(crate) fn rank(&mut self) -> Result<(), OutOfMemory>
        ensures same { OnOk result ((runs : List (Option Seen)) → IsHistogram runs self.old
            → IsHistogram runs self.new) }
        ensures ranked { OnOk result (IsRanked self.new) }
    {
        self.bars.sort_by(
            |first: &Outcome, one: &Tally, second: &Outcome, other: &Tally| -> Ordering
                ensures { result ≡ ranked (first.now, one.now) (second.now, other.now) }
            { other.count.cmp(&one.count).then(first.cmp(second)) },
        )?;
        Ok(())
    }
}
