//! Batches that are offered to workers, and counted in order.

use crate::counting::Counted;
use crate::engine::Engine;
use crate::error::SurveyError;
use crate::filling::{keep_rest, last_end};
use common::Gate;
use devices::Sink;
use std::sync::Wait;

impl<R: Wait, G: Gate> Engine<'_, R, G> {
    ghost use Rattle.std.specs.Prelude.{◌≡◌, ◌≢◌, ◌<◌, ◌≤◌, ◌+◌, ◌^◌, ℕ, List, Option, IfErr, IfOk, OnOk};
    ghost use Rattle.std.specs.Prelude.{drop, false, length};
    ghost use Rattle.devices.specs.Bytes.{FailsBy};
    ghost use Rattle.surveys.specs.declared.reports.Reports.TheVariants.{EachLine};
    ghost use Rattle.surveys.specs.Surveys.{IsLong, is_read_failure, is_write_failure};
    ghost use Rattle.surveys.specs.Tallies.{IsTallied, IsTally};

    /// Offers the lines with which these bytes begin, up to an end, to workers, and counts those of the first batches,
    /// in order, until at most this many bytes lie on the queue; answers how many bytes those are.
    fn count_batches<W: Sink>(
        &self,
        sink: &mut W,
        counted: &mut Counted,
        bytes: &[u8],
        end: usize,
        kept: usize,
    ) -> Result<usize, SurveyError>
        requires tally { (front : List ℕ) × (start : Option (List ℕ))
            × IsTally self.now.kind self.now.reports front counted.old.ledger counted.old.bytes start
            (W.written sink.old) }
        requires end { end ≤ length bytes.now }
        ensures within { IfOk result (λ n. n ≤ length bytes.now) }
        ensures ok { IfOk result (λ n. IsTallied self.now.kind self.now.reports bytes.now (drop n bytes.now)
            counted.old.ledger counted.old.bytes (W.written sink.old)
            counted.new.ledger counted.new.bytes (W.written sink.new)) }
        ensures size { IfOk result (λ n. counted.new.bytes ≡ counted.old.bytes + n) }
        ensures fits { OnOk result (counted.old.bytes < 2 ^ 64 → counted.new.bytes < 2 ^ 64) }
        ensures long { IfErr result (λ e. IsLong e (counted.old.bytes + length bytes.now)) }
        ensures reads { IfErr result (λ e. is_read_failure e ≡ false) }
        ensures writes { FailsBy is_write_failure (W.write_failed sink.old) (W.write_failed sink.new) result }
        ensures silent { self.now.reports ≢ EachLine → sink.new ≡ sink.old }
    {
        let mut from = 0;
        'batches: while from < bytes.len() {
            let lines = &bytes[from.min(end)..end];
            let is_offered = self.offer(lines);
            // A batch that is counted leaves room for one that had none.
            let Some(batch) = self.collect(lines, if is_offered { kept } else { 0 }) else {
                break;
            };
            let length = self.count_first(sink, counted, &bytes[from..], batch)?;
            from += length;
            if length == 0 {
                break;
            }
        }
        Ok(from)
    }

    /// Offers the whole lines of a block to workers, of which this many bytes have no end of a line that was not
    /// offered, and counts those of the first batches, until at most this many bytes lie on the queue; leaves in the
    /// block what comes after these.
    pub(crate) fn count_offered<W: Sink>(
        &self,
        sink: &mut W,
        counted: &mut Counted,
        block: &mut Vec<u8>,
        seen: usize,
        kept: usize,
    ) -> Result<(), SurveyError>
        requires { (front : List ℕ) × (start : Option (List ℕ))
            × IsTally self.now.kind self.now.reports front counted.old.ledger counted.old.bytes start
            (W.written sink.old) }
        ensures ok { OnOk result (IsTallied self.now.kind self.now.reports block.old.items block.new.items
            counted.old.ledger counted.old.bytes (W.written sink.old)
            counted.new.ledger counted.new.bytes (W.written sink.new)) }
        ensures fits { OnOk result (counted.old.bytes < 2 ^ 64 → counted.new.bytes < 2 ^ 64) }
        ensures long { IfErr result (λ e. IsLong e (counted.old.bytes + length block.old.items)) }
        ensures reads { IfErr result (λ e. is_read_failure e ≡ false) }
        ensures writes { FailsBy is_write_failure (W.write_failed sink.old) (W.write_failed sink.new) result }
        ensures silent { self.now.reports ≢ EachLine → sink.new ≡ sink.old }
    {
        let end = last_end(block, seen);
        let length = self.count_batches(sink, counted, block, end, kept)?;
        keep_rest(block, length);
        Ok(())
    }
}
