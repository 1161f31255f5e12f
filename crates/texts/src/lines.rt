//! Texts that are read line by line.

ghost use Rattle.std.specs.Prelude.{◌≡◌, []};
ghost use Rattle.texts.specs.Reading.{Answers, read_from, seen_as};

use crate::line_error::LineError;

/// What is read of a text, line by line.
pub trait ReadLines {
    ghost use Rattle.std.specs.Prelude.{◌≡◌, ℕ, List, Result};
    ghost use Rattle.texts.specs.Reading.{AnswersLine, seen_as};

    /// Why a line is refused.
    type Refusal: Drop;

    /// What lines are read for.
    ghost Subject: { Type 0 };

    ghost subject: { Self → Subject };

    /// What was read so far.
    ghost State: { Type 0 };

    ghost state: { Self → State };

    /// What a line does.
    ghost step: { Subject → State → List ℕ → Result State Self.Refusal };

    /// Takes line `number`. After an error what was read so far is of no use.
    fn take_line(&mut self, line: &[u8], number: usize) -> Result<(), LineError<Self::Refusal>>
        ensures line { AnswersLine (seen_as result (λ _. state self.new)) number
            (step (subject self.old) (state self.old) line.now) }
        ensures subject { subject self.new ≡ subject self.old };
}

/// Reads a text to its end, or up to the first line at fault; `unended` is the refusal of a last line without its
/// newline.
pub fn read_lines<L: ReadLines>(
    lines: &mut L,
    text: &[u8],
    unended: L::Refusal,
) -> Result<(), LineError<L::Refusal>>
    ensures { Answers (seen_as result (λ _. L.state lines.new))
        (read_from (L.step (L.subject lines.old)) unended 1 (L.state lines.old) [] text.now) }
{
    let mut start: usize = 0;
    let mut number: usize = 1;
    for (i, b) in text.iter().enumerate() {
        if *b == b'\n' {
            lines.take_line(&text[start..i], number)?;
            start = i + 1;
            number += 1;
        }
    }
    if start < text.len() {
        return Err(LineError::AtLine(unended, number));
    }
    Ok(())
}
