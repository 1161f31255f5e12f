//! Batches of a block.

ghost use Rattle.std.specs.Prelude.{◌≡◌, ◌++◌, IfOk, IfSome, IsTrue};
ghost use Rattle.surveys.specs.Found.{AreLineFindings};

use crate::coded::judge_unheard;
use crate::filling::last_end;
use crate::judged::LineJudge;
use crate::kind::LineKind;
use common::{Gate, OutOfMemory};
use ledger::Finding;
use std::alloc::Global;
use std::marker::Model;

/// What is found in lines of this kind.
#[derive(Drop)]
struct Judged {
    kind: LineKind,
    findings: Vec<Finding>,
}

/// How many bytes lines have, and how many recordings they are said to be.
#[derive(Clone, Copy)]
pub(crate) struct Extent {
    pub(crate) bytes: usize,
    pub(crate) recordings: usize,
}

/// Lines, and what is found in them where they are judged. Contracts see the bytes.
#[derive(Drop)]
pub(crate) struct Batch {
    bytes: Vec<u8>,
    first: Option<usize>,
    recordings: usize,
    judged: Option<Judged>,
}

impl Model for Batch {
    ghost use Rattle.std.specs.Prelude.{ℕ, List, IfSome};
    ghost use Rattle.surveys.specs.Found.{AreLineFindings};

    ghost Value = { List ℕ };

    ghost view = { λ p. p.bytes.items };

    ghost invariant = { λ p. IfSome p.judged (λ j. AreLineFindings j.kind p.bytes.items j.findings.items) };
}

impl Batch {
    /// Lines that are not judged, with this many recordings, the first of which has this number, or of which no gate
    /// hears.
    pub(crate) fn new(bytes: Vec<u8>, first: Option<usize>, recordings: usize) -> Batch
        ensures { result ≡ bytes.items }
    {
        Batch {
            bytes,
            first,
            recordings,
            judged: None,
        }
    }

    /// Its bytes.
    pub(crate) fn bytes(&self) -> &[u8]
        ensures { result.now ≡ self.now }
    {
        &self.bytes
    }

    /// How many recordings its lines were said to be.
    pub(crate) fn recordings(&self) -> usize {
        self.recordings
    }

    /// Its extent.
    pub(crate) fn extent(&self) -> Extent {
        Extent {
            bytes: self.bytes.len(),
            recordings: self.recordings,
        }
    }

    /// Judges the lines, of which the gate hears if they have numbers, unless memory runs out.
    pub(crate) fn judge<G: Gate>(&mut self, judge: &LineJudge<'_, G>)
        ensures { self.new ≡ self.old }
    {
        let found = match self.first {
            Some(first) => judge.judge_lines(&self.bytes, first),
            None => judge_unheard(judge.alloc, judge.kind, &self.bytes),
        };
        let Ok(findings) = found else {
            return;
        };
        self.judged = Some(Judged {
            kind: judge.kind,
            findings,
        });
    }

    /// Makes room for this many bytes more; false where memory runs out.
    pub(crate) fn make_room(&mut self, more: usize) -> bool
        ensures { self.new ≡ self.old }
    {
        self.bytes.reserve(more).is_ok()
    }

    /// A batch of the lines of both, in order, which is judged where both are. Where memory runs out before there is
    /// room for the second ones it lacks them.
    pub(crate) fn join(self, more: Batch) -> Batch {
        let Batch {
            mut bytes,
            first,
            recordings,
            judged,
        } = self;
        let Batch {
            bytes: after,
            first: _,
            recordings: count,
            judged: other,
        } = more;
        let judged = both_judged(&bytes, judged, &after, other);
        let Ok(()) = bytes.extend_from_slice(&after) else {
            return Batch::new(bytes, first, recordings);
        };
        Batch {
            bytes,
            first,
            recordings: recordings.wrapping_add(count),
            judged,
        }
    }

    /// What is found in the lines, which are judged here where they are not. Fails only if out of memory.
    pub(crate) fn into_findings(
        self,
        alloc: Global,
        kind: LineKind,
    ) -> Result<Vec<Finding>, OutOfMemory>
        ensures { IfOk result (λ findings. AreLineFindings kind self findings.items) }
    {
        let Batch {
            bytes,
            first: _,
            recordings: _,
            judged,
        } = self;
        match judged {
            Some(Judged { kind: of, findings }) if is_same(of, kind) => Ok(findings),
            _ => judge_unheard(alloc, kind, &bytes),
        }
    }
}

/// What is found in lines and in more lines after them; none where one of them is not judged, where their kinds differ,
/// where the first ones do not end with an end of a line, or where memory runs out.
fn both_judged(
    front: &[u8],
    one: Option<Judged>,
    back: &[u8],
    other: Option<Judged>,
) -> Option<Judged>
    requires { IfSome one (λ j. AreLineFindings j.kind front.now j.findings.items)
        × IfSome other (λ j. AreLineFindings j.kind back.now j.findings.items) }
    ensures { IfSome result (λ j. AreLineFindings j.kind (front.now ++ back.now) j.findings.items) }
{
    if last_end(front, 0) != front.len() {
        return None;
    }
    let Judged { kind, mut findings } = one?;
    let Judged {
        kind: of,
        findings: more,
    } = other?;
    if !is_same(of, kind) {
        return None;
    }
    let Ok(()) = findings.extend_from_slice(&more) else {
        return None;
    };
    Some(Judged { kind, findings })
}

/// Whether two kinds are the same.
fn is_same(one: LineKind, other: LineKind) -> bool
    ensures { IsTrue result → one ≡ other }
{
    match (one, other) {
        (LineKind::Recording, LineKind::Recording) => true,
        (LineKind::LongRecording, LineKind::LongRecording) => true,
        (LineKind::Values(most), LineKind::Values(states)) => most == states,
        _ => false,
    }
}
