//! What is found in many lines in memory, and its codes.

ghost use Rattle.std.specs.Prelude.{◌≡◌, IfOk};
ghost use Rattle.surveys.specs.Coded.{AreLineCodes};
ghost use Rattle.surveys.specs.Found.{AreLineFindings, codes_of};
ghost use Rattle.surveys.specs.declared.kind.LineKind.TheVariants.{Recording};

use crate::judged::LineJudge;
use crate::kind::LineKind;
use crate::lines::split_line;
use common::{Gate, OpenGate, OutOfMemory};
use ledger::Finding;
use std::alloc::Global;

impl<G: Gate> LineJudge<'_, G> {
    ghost use Rattle.std.specs.Prelude.{◌≡◌, ◌++◌, ◌∷◌, [], List, IfOk, OnOk, filter};
    ghost use Rattle.ledger.specs.declared.finding.Finding.{Finding};
    ghost use Rattle.surveys.specs.Found.{AreFindings, AreLineFindings};
    ghost use Rattle.surveys.specs.Lines.{is_some_line};

    /// Adds what is found in a line, unless it is empty. The first finding is that of the recording of this number.
    fn add_finding(
        &self,
        findings: &mut Vec<Finding>,
        line: &[u8],
        first: usize,
    ) -> Result<(), OutOfMemory>
        ensures { OnOk result ((found : List Finding)
            × AreFindings self.now.kind (filter is_some_line (line.now ∷ [])) found
            × (findings.new.items ≡ findings.old.items ++ found)) }
    {
        if line.is_empty() {
            return Ok(());
        }
        let number = first.wrapping_add(findings.len());
        findings.push(self.judge_line(line, number)?)?;
        Ok(())
    }

    /// What is found in the lines of some bytes, in order; the gate hears of each recording, the first of which has
    /// this number. Fails only if out of memory.
    pub(crate) fn judge_lines(
        &self,
        bytes: &[u8],
        first: usize,
    ) -> Result<Vec<Finding>, OutOfMemory>
        ensures { IfOk result (λ findings. AreLineFindings self.now.kind bytes.now findings.items) }
    {
        let mut findings = Vec::new(self.alloc);
        let mut rest = bytes;
        'lines: while !rest.is_empty() {
            let (line, more) = split_line(rest);
            self.add_finding(&mut findings, line, first)?;
            rest = more;
        }
        Ok(findings)
    }
}

/// What is found in the lines of some bytes, in order, of which no gate hears. Fails only if out of memory.
pub(crate) fn judge_unheard(
    alloc: Global,
    kind: LineKind,
    bytes: &[u8],
) -> Result<Vec<Finding>, OutOfMemory>
    ensures { IfOk result (λ findings. AreLineFindings kind bytes.now findings.items) }
{
    let judge = LineJudge {
        alloc,
        kind,
        gate: &OpenGate,
        worker: 0,
    };
    judge.judge_lines(bytes, 0)
}

/// The codes of findings, in order. Fails only if out of memory.
pub(crate) fn codes_of(alloc: Global, findings: &[Finding]) -> Result<Vec<u64>, OutOfMemory>
    ensures { IfOk result (λ codes. codes.items ≡ codes_of findings.now) }
{
    let mut codes = Vec::with_capacity(alloc, findings.len())?;
    for finding in findings {
        codes.push(finding.code())?;
    }
    Ok(codes)
}

/// The codes of what is found in the lines of some bytes, a recording each, in order, as `Finding::code` has them; an
/// empty line has none. It does not block and starts no thread. Fails only if out of memory.
pub fn codes_of_lines(alloc: Global, bytes: &[u8]) -> Result<Vec<u64>, OutOfMemory>
    ensures { IfOk result (λ codes. AreLineCodes Recording bytes.now codes.items) }
{
    let findings = judge_unheard(alloc, LineKind::Recording, bytes)?;
    codes_of(alloc, &findings)
}
