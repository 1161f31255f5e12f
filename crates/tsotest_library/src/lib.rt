//! The commands of the program as calls for C: bytes in, the command's text and exit status out.
#![tactic(auto)]

ghost use Rattle.std.specs.Prelude.{◌≡◌, ◌≢◌, ◌≤◌};
ghost use Rattle.verdicts.specs.declared.outcome.Outcome.TheVariants.{Done, Ordered, Refused, Unfinished, Violation};
ghost use Rattle.answers.specs.declared.rendering.Rendering.TheVariants.{Told, Reduction};
ghost use Rattle.answers.specs.declared.rendering.Telling.TheVariants.{Words};
ghost use Rattle.answers.specs.Rendered.{picture_form};
ghost use Rattle.tsotest_library.specs.Given.{AreCodeNumbers, AreCodesAnswered, IsAnswered, IsNothing, IsWrittenWhole};
ghost use Rattle.text_judge.specs.Answer.{IsLongAnswerOf};
ghost use Rattle.tsotest_library.specs.Judged.{IsJudgedOf};
ghost use Rattle.tsotest_library.specs.Rendered.{IsLongRenderedOf, IsRenderedOf};
ghost use Rattle.tsotest_library.specs.Checked.{IsCheckOf};
ghost use Rattle.tsotest_library.specs.Listed.{IsListedOf};
ghost use Rattle.tsotest_library.specs.Completed.{IsCompletedOf};

mod buffers;
mod checking;
mod completing;
mod counting;
mod judging;
mod listing;
mod rendering;
mod states;

use answers::{Rendering, Telling, picture_form};
use common::VERSION_LINE;
use std::alloc::Global;
use surveys::codes_of_lines;
use text_judge::long_answer;
use verdicts::Outcome;

/// What `tsotest judge` prints of the recording that the bytes are, and its exit status: 0 where TSO allows it, 2
/// where not, 3 where the bytes are refused, by N1 to N7; 1 where there is no memory, and then nothing is printed.
///
/// What is printed is written to the front of `out`, of which the rest stays, where it has room; else `out` stays.
/// `len` is its length in bytes, in either case. So are the text and the status of each call here; none waits for
/// anybody, starts a thread, or keeps anything.
#[unsafe(no_mangle)]
pub extern "C" fn tsotest_judge(
    alloc: Global,
    recording: &[u8],
    out: &mut [u8],
    len: &mut usize,
) -> u8
    // The numbers are those that a caller in C has: no constant stands for them.
    ensures status { result ≤ 3 }
    ensures allowed { result ≡ 0 → IsAnswered (IsJudgedOf recording.now) Ordered out.old out.new len.new }
    ensures no_memory { result ≡ 1 → IsNothing out.old out.new len.new }
    ensures violation { result ≡ 2 → IsAnswered (IsJudgedOf recording.now) Violation out.old out.new len.new }
    ensures refused { result ≡ 3 → IsAnswered (IsJudgedOf recording.now) Refused out.old out.new len.new }
{
    buffers::put_answer(judging::judged_answer(alloc, recording), out, len)
}

/// What `tsotest judge --long` prints of the recording that the bytes are, and its status: those of `tsotest_judge`,
/// for recordings of up to 16,777,216 events of 1,024 cores over 65,536 addresses.
#[unsafe(no_mangle)]
pub extern "C" fn tsotest_judge_long(
    alloc: Global,
    recording: &[u8],
    out: &mut [u8],
    len: &mut usize,
) -> u8
    ensures status { result ≤ 3 }
    ensures allowed { result ≡ 0 → IsAnswered (IsLongAnswerOf recording.now) Ordered out.old out.new len.new }
    ensures no_memory { result ≡ 1 → IsNothing out.old out.new len.new }
    ensures violation { result ≡ 2 → IsAnswered (IsLongAnswerOf recording.now) Violation out.old out.new len.new }
    ensures refused { result ≡ 3 → IsAnswered (IsLongAnswerOf recording.now) Refused out.old out.new len.new }
{
    buffers::put_answer(long_answer(alloc, recording), out, len)
}

/// What `tsotest explain` prints of a recording, and its status: those of `tsotest_judge`, and 3 also where the text
/// of the program is refused, by L1 to L8, or the recording is none of the program, N9. An empty text stands for no
/// program.
#[unsafe(no_mangle)]
pub extern "C" fn tsotest_explain(
    alloc: Global,
    recording: &[u8],
    program: &[u8],
    out: &mut [u8],
    len: &mut usize,
) -> u8
    ensures status { result ≤ 3 }
    ensures allowed { result ≡ 0 →
        IsAnswered (IsRenderedOf (Told Words) recording.now program.now) Ordered out.old out.new len.new }
    ensures no_memory { result ≡ 1 → IsNothing out.old out.new len.new }
    ensures violation { result ≡ 2 →
        IsAnswered (IsRenderedOf (Told Words) recording.now program.now) Violation out.old out.new len.new }
    ensures refused { result ≡ 3 →
        IsAnswered (IsRenderedOf (Told Words) recording.now program.now) Refused out.old out.new len.new }
{
    let answer = rendering::rendered_answer_of(
        alloc,
        Rendering::Told(Telling::Words),
        recording,
        program,
    );
    buffers::put_answer(answer, out, len)
}

/// What `tsotest draw` prints of a recording, with `all` what it prints with `--all`, and its status: those of
/// `tsotest_explain`.
#[unsafe(no_mangle)]
pub extern "C" fn tsotest_draw(
    alloc: Global,
    recording: &[u8],
    program: &[u8],
    all: bool,
    out: &mut [u8],
    len: &mut usize,
) -> u8
    ensures status { result ≤ 3 }
    ensures allowed { result ≡ 0 →
        IsAnswered (IsRenderedOf (Told (picture_form all)) recording.now program.now) Ordered out.old out.new len.new }
    ensures no_memory { result ≡ 1 → IsNothing out.old out.new len.new }
    ensures violation { result ≡ 2 →
        IsAnswered (IsRenderedOf (Told (picture_form all)) recording.now program.now) Violation out.old out.new
        len.new }
    ensures refused { result ≡ 3 →
        IsAnswered (IsRenderedOf (Told (picture_form all)) recording.now program.now) Refused out.old out.new len.new }
{
    let answer = rendering::rendered_answer_of(
        alloc,
        Rendering::Told(picture_form(all)),
        recording,
        program,
    );
    buffers::put_answer(answer, out, len)
}

/// What `tsotest reduce` prints of a recording, and its status: those of `tsotest_explain`.
#[unsafe(no_mangle)]
pub extern "C" fn tsotest_reduce(
    alloc: Global,
    recording: &[u8],
    program: &[u8],
    out: &mut [u8],
    len: &mut usize,
) -> u8
    ensures status { result ≤ 3 }
    ensures allowed { result ≡ 0 →
        IsAnswered (IsRenderedOf Reduction recording.now program.now) Ordered out.old out.new len.new }
    ensures no_memory { result ≡ 1 → IsNothing out.old out.new len.new }
    ensures violation { result ≡ 2 →
        IsAnswered (IsRenderedOf Reduction recording.now program.now) Violation out.old out.new len.new }
    ensures refused { result ≡ 3 →
        IsAnswered (IsRenderedOf Reduction recording.now program.now) Refused out.old out.new len.new }
{
    let answer = rendering::rendered_answer_of(alloc, Rendering::Reduction, recording, program);
    buffers::put_answer(answer, out, len)
}

/// What `tsotest explain --long` prints of a recording, and its status: those of `tsotest_judge_long`.
#[unsafe(no_mangle)]
pub extern "C" fn tsotest_explain_long(
    alloc: Global,
    recording: &[u8],
    out: &mut [u8],
    len: &mut usize,
) -> u8
    ensures status { result ≤ 3 }
    ensures allowed { result ≡ 0 →
        IsAnswered (IsLongRenderedOf (Told Words) recording.now) Ordered out.old out.new len.new }
    ensures no_memory { result ≡ 1 → IsNothing out.old out.new len.new }
    ensures violation { result ≡ 2 →
        IsAnswered (IsLongRenderedOf (Told Words) recording.now) Violation out.old out.new len.new }
    ensures refused { result ≡ 3 →
        IsAnswered (IsLongRenderedOf (Told Words) recording.now) Refused out.old out.new len.new }
{
    buffers::put_answer(
        rendering::long_rendered_answer_of(alloc, Rendering::Told(Telling::Words), recording),
        out,
        len,
    )
}

/// What `tsotest reduce --long` prints of a recording, and its status: those of `tsotest_judge_long`.
#[unsafe(no_mangle)]
pub extern "C" fn tsotest_reduce_long(
    alloc: Global,
    recording: &[u8],
    out: &mut [u8],
    len: &mut usize,
) -> u8
    ensures status { result ≤ 3 }
    ensures allowed { result ≡ 0 → IsAnswered (IsLongRenderedOf Reduction recording.now) Ordered out.old out.new
        len.new }
    ensures no_memory { result ≡ 1 → IsNothing out.old out.new len.new }
    ensures violation { result ≡ 2 → IsAnswered (IsLongRenderedOf Reduction recording.now) Violation out.old out.new
        len.new }
    ensures refused { result ≡ 3 → IsAnswered (IsLongRenderedOf Reduction recording.now) Refused out.old out.new
        len.new }
{
    buffers::put_answer(
        rendering::long_rendered_answer_of(alloc, Rendering::Reduction, recording),
        out,
        len,
    )
}

/// What `tsotest verify` prints of a recording and the text of a verdict, and its status: 0 where the verdict holds
/// of the recording, 2 where it does not, 3 where the recording is refused; 1 where there is no memory.
#[unsafe(no_mangle)]
pub extern "C" fn tsotest_verify(
    alloc: Global,
    recording: &[u8],
    verdict: &[u8],
    out: &mut [u8],
    len: &mut usize,
) -> u8
    ensures status { result ≤ 3 }
    ensures holds { result ≡ 0 →
        IsAnswered (IsCheckOf recording.now verdict.now) Done out.old out.new len.new }
    ensures no_memory { result ≡ 1 → IsNothing out.old out.new len.new }
    ensures fails { result ≡ 2 →
        IsAnswered (IsCheckOf recording.now verdict.now) Violation out.old out.new len.new }
    ensures refused { result ≡ 3 →
        IsAnswered (IsCheckOf recording.now verdict.now) Refused out.old out.new len.new }
{
    buffers::put_answer(checking::check_answer(alloc, recording, verdict), out, len)
}

/// Judges many recordings, one a line, as `tsotest survey` does: an empty line is none. The code of each is 3 of an
/// order, 16 and K of a cycle of K events, 1,048,576 and 1,024 times the load and the store of an overlook, and
/// 65,536 times 1 to 7 and the event or the address of a refusal by N1 to N7. They are written in order to the front
/// of `codes`, of which the rest stays, where it has room; else `codes` stays. `count` is how many there are, in
/// either case. The status is 2 where a recording is a violation, else 3 where one is refused, else 0; 1 where there
/// is no memory.
#[unsafe(no_mangle)]
pub extern "C" fn tsotest_survey(
    alloc: Global,
    lines: &[u8],
    codes: &mut [u64],
    count: &mut usize,
) -> u8
    ensures status { result ≤ 3 }
    ensures allowed { result ≡ 0 → AreCodesAnswered lines.now Done codes.old codes.new count.new }
    ensures no_memory { result ≡ 1 → IsNothing codes.old codes.new count.new }
    ensures violation { result ≡ 2 → AreCodesAnswered lines.now Violation codes.old codes.new count.new }
    ensures refused { result ≡ 3 → AreCodesAnswered lines.now Refused codes.old codes.new count.new }
    ensures numbers { AreCodeNumbers }
{
    *count = 0;
    let Ok(found) = codes_of_lines(alloc, lines) else {
        return Outcome::Error.status();
    };
    let Ok(outcome) = counting::outcome_of(alloc, &found) else {
        return Outcome::Error.status();
    };
    buffers::put_codes(&found, codes, count);
    outcome.status()
}

/// What `tsotest outcomes --states` prints of the program that the text is, and its exit status: 0 where its outcomes
/// are listed, 3 where the number of states is refused, by K12, or the text, by L1 to L8, 4 where there are more states
/// than this; 1 where there is no memory.
#[unsafe(no_mangle)]
pub extern "C" fn tsotest_outcomes(
    alloc: Global,
    program: &[u8],
    states: usize,
    out: &mut [u8],
    len: &mut usize,
) -> u8
    ensures status { result ≤ 4 }
    ensures listed { result ≡ 0 →
        IsAnswered (IsListedOf program.now states) Done out.old out.new len.new }
    ensures no_memory { result ≡ 1 → IsNothing out.old out.new len.new }
    ensures others { result ≢ 2 }
    ensures refused { result ≡ 3 →
        IsAnswered (IsListedOf program.now states) Refused out.old out.new len.new }
    ensures unfinished { result ≡ 4 →
        IsAnswered (IsListedOf program.now states) Unfinished out.old out.new len.new }
{
    buffers::put_answer(listing::listed_answer(alloc, program, states), out, len)
}

/// What `tsotest complete --states` prints of the values that the text gives, and its exit status: 0 where a recording
/// completes them, 2 where TSO does not allow them, 3 where the number of states is refused, by K12, or the text, by N1
/// to N6, 4 where more states than this would have to be looked at; 1 where there is no memory.
#[unsafe(no_mangle)]
pub extern "C" fn tsotest_complete(
    alloc: Global,
    values: &[u8],
    states: usize,
    out: &mut [u8],
    len: &mut usize,
) -> u8
    ensures status { result ≤ 4 }
    ensures completed { result ≡ 0 →
        IsAnswered (IsCompletedOf values.now states) Ordered out.old out.new len.new }
    ensures no_memory { result ≡ 1 → IsNothing out.old out.new len.new }
    ensures impossible { result ≡ 2 →
        IsAnswered (IsCompletedOf values.now states) Violation out.old out.new len.new }
    ensures refused { result ≡ 3 →
        IsAnswered (IsCompletedOf values.now states) Refused out.old out.new len.new }
    ensures unfinished { result ≡ 4 →
        IsAnswered (IsCompletedOf values.now states) Unfinished out.old out.new len.new }
{
    buffers::put_answer(
        completing::completed_answer(alloc, values, states),
        out,
        len,
    )
}

/// What `tsotest --version` prints; the status is 0.
#[unsafe(no_mangle)]
pub extern "C" fn tsotest_version(out: &mut [u8], len: &mut usize) -> u8
    ensures status { result ≡ 0 }
    ensures text { IsWrittenWhole VERSION_LINE.now out.old out.new len.new }
{
    buffers::put_text(VERSION_LINE.as_bytes(), out, len);
    0
}
