//! What is found in lines, counted, and written where each recording is reported.

ghost use Rattle.std.specs.Prelude.{IfOk};
ghost use Rattle.ledger.specs.Surveyed.{IsSurveyLedger};
ghost use Rattle.surveys.specs.Found.{codes_of};

use crate::batch::Batch;
use crate::coded::codes_of;
use crate::each::each_text;
use crate::engine::Engine;
use crate::error::SurveyError;
use crate::filling::last_end;
use crate::reports::Reports;
use common::OutOfMemory;
use devices::{Failed, Sink, write_all};
use ledger::{Finding, SurveyLedger};
use std::alloc::Global;

/// What was counted so far: the ledger, and the number of bytes.
#[derive(Drop)]
pub(crate) struct Counted {
    pub(crate) ledger: SurveyLedger,
    pub(crate) bytes: usize,
}

/// The ledger of what is found, in order. Fails only if out of memory.
fn ledger_of(alloc: Global, findings: &[Finding]) -> Result<SurveyLedger, OutOfMemory>
    ensures { IfOk result (IsSurveyLedger (codes_of findings.now)) }
{
    let codes = codes_of(alloc, findings)?;
    SurveyLedger::count(alloc, &codes)
}

impl<R, G> Engine<'_, R, G> {
    ghost use Rattle.std.specs.Prelude.{◌≡◌, ◌≢◌, ◌<◌, ◌≤◌, ◌+◌, ◌^◌, [], ℕ, List, Option, IfErr, IfOk, OnOk};
    ghost use Rattle.std.specs.Prelude.{drop, length, false};
    ghost use Rattle.std.specs.Io.KnownBytes.{Appends};
    ghost use Rattle.devices.specs.Bytes.{FailsBy};
    ghost use Rattle.surveys.specs.declared.reports.Reports.TheVariants.{EachLine};
    ghost use Rattle.surveys.specs.Lines.{IsWhole};
    ghost use Rattle.surveys.specs.Surveys.{ExtendsSurvey, IsLong, IsSurveyUpTo, told_text};
    ghost use Rattle.surveys.specs.Surveys.{is_read_failure, is_write_failure};
    ghost use Rattle.surveys.specs.Tallies.{Ends, Grows, IsTallied, IsTally};

    /// Writes the lines of what is found, the first of which has this number, where each is reported, and flushes them.
    fn write_findings<W: Sink>(
        &self,
        sink: &mut W,
        first: usize,
        findings: &[Finding],
    ) -> Result<(), SurveyError>
        requires numbers { first + length findings.now < 2 ^ 64 }
        ensures ok { OnOk result
            (Appends (W.written sink.old) (W.written sink.new) (told_text self.now.reports first findings.now)) }
        ensures short { IfErr result (λ e. IsLong e 0) }
        ensures reads { IfErr result (λ e. is_read_failure e ≡ false) }
        ensures writes { FailsBy is_write_failure (W.write_failed sink.old) (W.write_failed sink.new) result }
        ensures silent { self.now.reports ≢ EachLine → sink.new ≡ sink.old }
    {
        if self.reports == Reports::NoLine {
            return Ok(());
        }
        let text = each_text(self.alloc, first, findings)?;
        let Ok(()) = write_all(sink, &text) else {
            return Err(SurveyError::WriteFailed);
        };
        match sink.flush() {
            Ok(()) => Ok(()),
            Err(Failed) => Err(SurveyError::WriteFailed),
        }
    }

    /// Adds what is found in a batch to the ledger of the lines before it, and reports it.
    fn add_findings<W: Sink>(
        &self,
        sink: &mut W,
        ledger: &mut SurveyLedger,
        batch: Batch,
    ) -> Result<(), SurveyError>
        requires { (all : List ℕ) × (start : Option (List ℕ)) × (length all < 2 ^ 64)
            × IsSurveyUpTo self.now.kind all batch ledger.old self.now.reports start (W.written sink.old) }
        ensures ok { OnOk result (ExtendsSurvey self.now.kind batch [] self.now.reports
            ledger.old (W.written sink.old) ledger.new (W.written sink.new)) }
        ensures short { IfErr result (λ e. IsLong e 0) }
        ensures reads { IfErr result (λ e. is_read_failure e ≡ false) }
        ensures writes { FailsBy is_write_failure (W.write_failed sink.old) (W.write_failed sink.new) result }
        ensures silent { self.now.reports ≢ EachLine → sink.new ≡ sink.old }
    {
        let findings = batch.into_findings(self.alloc, self.kind)?;
        let more = ledger_of(self.alloc, &findings)?;
        self.write_findings(sink, ledger.ledger.total, &findings)?;
        ledger.add(&more);
        Ok(())
    }

    /// Counts the lines of a batch, and reports them.
    pub(crate) fn count_batch<W: Sink>(
        &self,
        sink: &mut W,
        counted: &mut Counted,
        batch: Batch,
    ) -> Result<(), SurveyError>
        requires { (front : List ℕ) × (start : Option (List ℕ))
            × IsTally self.now.kind self.now.reports front counted.old.ledger counted.old.bytes start
            (W.written sink.old) }
        ensures grows { OnOk result (IsWhole batch → Grows self.now.kind self.now.reports batch counted.old.ledger
            counted.old.bytes (W.written sink.old) counted.new.ledger counted.new.bytes (W.written sink.new)) }
        ensures ends { OnOk result (Ends self.now.kind self.now.reports batch counted.old.ledger counted.old.bytes
            (W.written sink.old) counted.new.ledger (W.written sink.new)) }
        ensures size { OnOk result (counted.new.bytes ≡ counted.old.bytes + length batch) }
        ensures fits { OnOk result (counted.new.bytes < 2 ^ 64) }
        ensures long { IfErr result (λ e. IsLong e (counted.old.bytes + length batch)) }
        ensures reads { IfErr result (λ e. is_read_failure e ≡ false) }
        ensures writes { FailsBy is_write_failure (W.write_failed sink.old) (W.write_failed sink.new) result }
        ensures silent { self.now.reports ≢ EachLine → sink.new ≡ sink.old }
    {
        let Some(bytes) = counted.bytes.checked_add(batch.bytes().len()) else {
            return Err(SurveyError::TooLong);
        };
        self.add_findings(sink, &mut counted.ledger, batch)?;
        counted.bytes = bytes;
        Ok(())
    }

    /// Counts the lines of a batch, and answers its length; 0 where the bytes do not begin with it, whole.
    pub(crate) fn count_first<W: Sink>(
        &self,
        sink: &mut W,
        counted: &mut Counted,
        bytes: &[u8],
        batch: Batch,
    ) -> Result<usize, SurveyError>
        requires { (front : List ℕ) × (start : Option (List ℕ))
            × IsTally self.now.kind self.now.reports front counted.old.ledger counted.old.bytes start
            (W.written sink.old) }
        ensures within { IfOk result (λ n. n ≤ length bytes.now) }
        ensures ok { IfOk result (λ n. IsTallied self.now.kind self.now.reports bytes.now (drop n bytes.now)
            counted.old.ledger counted.old.bytes (W.written sink.old)
            counted.new.ledger counted.new.bytes (W.written sink.new)) }
        ensures size { IfOk result (λ n. counted.new.bytes ≡ counted.old.bytes + n) }
        ensures fits { OnOk result (counted.old.bytes < 2 ^ 64 → counted.new.bytes < 2 ^ 64) }
        ensures long { IfErr result (λ e. IsLong e (counted.old.bytes + length bytes.now)) }
        ensures reads { IfErr result (λ e. is_read_failure e ≡ false) }
        ensures writes { FailsBy is_write_failure (W.write_failed sink.old) (W.write_failed sink.new) result }
        ensures silent { self.now.reports ≢ EachLine → sink.new ≡ sink.old }
    {
        let length = batch.bytes().len();
        if !bytes.starts_with(batch.bytes()) || last_end(batch.bytes(), 0) != length {
            return Ok(0);
        }
        self.count_batch(sink, counted, batch)?;
        Ok(length)
    }
}
