//! What is written into a caller's buffers.

ghost use Rattle.std.specs.Prelude.{◌≡◌, IfErr, IfOk};
ghost use Rattle.verdicts.specs.Outcomes.{status_of};
ghost use Rattle.tsotest_library.specs.Given.{IsNothing, IsWrittenWhole};

use common::OutOfMemory;
use verdicts::{Answer, Outcome};

/// Writes a text to the front of `out` where it has room, and its length to `len`.
pub(crate) fn put_text(text: &[u8], out: &mut [u8], len: &mut usize)
    ensures { IsWrittenWhole text.now out.old out.new len.new }
{
    *len = text.len();
    if text.len() <= out.len() {
        out[..text.len()].copy_from_slice(text);
    }
}

/// Writes codes to the front of `out` where it has room, and their number to `len`.
pub(crate) fn put_codes(found: &[u64], codes: &mut [u64], count: &mut usize)
    ensures { IsWrittenWhole found.now codes.old codes.new count.new }
{
    *count = found.len();
    if found.len() <= codes.len() {
        codes[..found.len()].copy_from_slice(found);
    }
}

/// Writes the text of an answer, and gives its exit status; without an answer, since there is no memory, nothing is
/// written, and the status is 1.
pub(crate) fn put_answer(answer: Result<Answer, OutOfMemory>, out: &mut [u8], len: &mut usize) -> u8
    ensures given { IfOk answer (λ a. result ≡ status_of a.outcome) }
    ensures written { IfOk answer (λ a. IsWrittenWhole a.text.items out.old out.new len.new) }
    ensures error { IfErr answer (λ _. result ≡ 1) }
    ensures nothing { IfErr answer (λ _. IsNothing out.old out.new len.new) }
{
    match answer {
        Ok(Answer { outcome, text }) => {
            put_text(&text, out, len);
            outcome.status()
        }
        Err(_) => {
            *len = 0;
            Outcome::Error.status()
        }
    }
}
