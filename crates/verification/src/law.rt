//! What judges print holds.

ghost use Rattle.verification.specs.FaultLaws.{FaultIsOne, ProofLinesHold};
ghost use Rattle.verification.specs.Proof.{EveryAnswerHolds, EveryVerdictHolds};

/// The text of the verdict on a recording holds of it: a verdict passes its check, and its labels have 16 bits.
/// It does nothing.
pub fn every_verdict_holds()
    ensures { EveryVerdictHolds }
{}

/// The text of the answer to a recording of any length holds of it. It does nothing.
pub fn every_answer_holds()
    ensures { EveryAnswerHolds }
{}

/// The first lines of a text that holds of a recording hold, and so no such text begins with whole lines of which the
/// last is at fault. It does nothing.
pub fn proof_lines_hold()
    ensures { ProofLinesHold }
{}

/// What is found of a text that does not hold is no choice: one line is the first at fault, or none is.
/// It does nothing.
pub fn fault_is_one()
    ensures { FaultIsOne }
{}
