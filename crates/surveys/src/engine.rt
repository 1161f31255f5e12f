//! What a survey works by.

use crate::batch::{Batch, Extent};
use crate::filling::FillUntil;
use crate::judged::LineJudge;
use crate::kind::LineKind;
use crate::queue::{Turn, WhenLate, WorkQueue};
use crate::reports::Reports;
use common::Gate;
use std::alloc::Global;
use std::sync::Wait;

/// How many recordings lie on the queue at most where each is reported, so that its line is written before the one that
/// comes so many after it begins.
const REPORTED_AT_ONCE: usize = 64;

/// How many batches a worker has then at least.
const BATCHES_OF_WORKER: usize = 4;

/// How many recordings lie on the queue at most.
pub(crate) fn room_of(reports: Reports) -> usize {
    match reports {
        Reports::EachLine => REPORTED_AT_ONCE,
        Reports::NoLine => usize::MAX,
    }
}

/// How many recordings are in a batch at most, for this many workers.
pub(crate) fn batch_of(reports: Reports, workers: usize) -> usize {
    let batches = BATCHES_OF_WORKER.saturating_mul(workers.max(1));
    (room_of(reports) / batches.min(REPORTED_AT_ONCE)).max(1)
}

/// What is done where a worker is late with lines of this kind: what may take long, or much memory, is judged once.
pub(crate) fn when_late(kind: LineKind) -> WhenLate {
    match kind {
        LineKind::Recording => WhenLate::OfferAgain,
        LineKind::LongRecording | LineKind::Values(_) => WhenLate::Wait,
    }
}

/// Until when a block is filled: what is reported does not wait for a read that may wait.
pub(crate) fn fill_until(reports: Reports) -> FillUntil {
    match reports {
        Reports::EachLine => FillUntil::ShortRead,
        Reports::NoLine => FillUntil::Doubled,
    }
}

/// What a survey works by: what waits, memory, what the lines are, which of them are reported, who hears of them, where
/// batches of lines wait for workers, and how many recordings are in a batch at most.
#[derive(Drop)]
pub(crate) struct Engine<'a, R, G> {
    pub(crate) rt: &'a R,
    pub(crate) alloc: Global,
    pub(crate) kind: LineKind,
    pub(crate) reports: Reports,
    pub(crate) gate: &'a G,
    pub(crate) queue: &'a WorkQueue,
    pub(crate) batch: usize,
}

impl<R: Wait, G: Gate> Engine<'_, R, G> {
    ghost use Rattle.std.specs.Prelude.{◌≡◌};

    /// Puts these lines on the queue, of which those that lie there are the first; false where there is no more room or
    /// memory runs out before.
    pub(crate) fn offer(&self, lines: &[u8]) -> bool {
        self.queue.offer(self.rt, self.alloc, lines, self.batch)
    }

    /// What judges lines as this worker.
    pub(crate) fn line_judge(&self, worker: usize) -> LineJudge<'_, G>
        ensures kind { result.kind ≡ self.now.kind }
        ensures worker { result.worker ≡ worker }
    {
        LineJudge {
            alloc: self.alloc,
            kind: self.kind,
            gate: self.gate,
            worker,
        }
    }

    /// Judges the batch with this number by this worker, and puts it back to where it lay.
    fn judge(&self, number: usize, mut batch: Batch, worker: usize) {
        batch.judge(&self.line_judge(worker));
        self.queue.put_back(self.rt, number, batch);
    }

    /// The first of these lines, of this extent, as a batch of which no gate hears; none where memory runs out.
    fn first_again(&self, lines: &[u8], extent: Extent) -> Option<Batch> {
        let Ok(bytes) = Vec::from_slice(self.alloc, lines.get(..extent.bytes)?) else {
            return None;
        };
        Some(Batch::new(bytes, None, extent.recordings))
    }

    /// Judges batches until the queue is closed, or 2^64 - 1 of them.
    pub(crate) fn work(&self, worker: usize) {
        for _ in 0..u64::MAX {
            let Some((number, batch)) = self.queue.take(self.rt) else {
                break;
            };
            self.judge(number, batch, worker);
        }
    }

    /// Whether the oldest batch on the queue is judged, and there is room for its lines in this one.
    fn has_room(&self, batch: &mut Batch) -> bool {
        match self.queue.judged_length(self.rt) {
            Some(length) => batch.make_room(length),
            None => false,
        }
    }

    /// A judged batch and those after it that are judged, as one where each recording is reported, so that all their
    /// lines are written at once.
    fn join_judged(&self, mut batch: Batch) -> Batch {
        for _ in 0..REPORTED_AT_ONCE {
            if self.reports == Reports::NoLine || !self.has_room(&mut batch) {
                break;
            }
            let Some(more) = self.queue.collect(self.rt) else {
                break;
            };
            batch = batch.join(more);
        }
        batch
    }

    /// The oldest batch, with which these lines begin, judged; none where no more than this many bytes lie on the
    /// queue, or after 2^64 - 1 turns. The calling thread judges those that wait as worker 0 where it would have to
    /// wait itself.
    pub(crate) fn collect(&self, lines: &[u8], kept: usize) -> Option<Batch> {
        for _ in 0..u64::MAX {
            match self.queue.turn(self.rt, kept) {
                Turn::Over => return None,
                Turn::Collected(batch) => return Some(self.join_judged(batch)),
                Turn::Judge(number, batch) => self.judge(number, batch, 0),
                Turn::OfferAgain(extent) => {
                    let again = self.first_again(lines, extent);
                    self.queue.offer_again(self.rt, again);
                }
            }
        }
        None
    }
}
