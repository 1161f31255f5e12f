//! The command `replay`.
ghost use Rattle.std.specs.Prelude.{◌≡◌, ◌∷◌, [], IfErr, IfOk, string_bytes};
ghost use Rattle.verdicts.specs.Judgement.{IsVerdict};
ghost use Rattle.verdicts.specs.Verified.{Verifies};
ghost use Rattle.recording.specs.Tso.{IsTsoOrder};
ghost use Rattle.recording.specs.FirstUse.{IsNumberedByFirstUse};
ghost use Rattle.recording.specs.Recording.{IsShortRecording};
ghost use Rattle.inputs.specs.Inputs.{ReadsNamed};
ghost use Rattle.commands.specs.Replay.{IsReplayedInput, IsReplayOf, IsReplayStop, IsReplayText, parts_text};

use command_line::FileOptions;
use common::{EventId, OutOfMemory};
use devices::Host;
use inputs::{CommandStop, recording_at};
use judge::{Verdict, judge_alone};
use litmus::{has_one_text, print};
use machine::steps_text;
use program_events::is_numbered;
use recording::{Recording, RecordingSize};
use refusals::N8;
use replay::{most_stores, replay_steps};
use report::{Answer, Outcome, verdict_answer};
use std::alloc::Global;

/// A capacity, the text of a program and a script, with an empty line between them.
fn parts_text(
    alloc: Global,
    capacity: usize,
    program: &[u8],
    script: &[u8],
) -> Result<Vec<u8>, OutOfMemory>
    ensures { IfOk result (λ text. text.items ≡ parts_text capacity program.now script.now) }
{
    let mut text = format!(in alloc; "buffer {capacity}\n\n")?.into_bytes();
    text.extend_from_slice(program)?;
    text.push(b'\n')?;
    text.extend_from_slice(script)?;
    Ok(text)
}

/// The capacity, the program and the script that replay a TSO order, as they are printed; the program and the script
/// are read back.
fn replay_text(
    alloc: Global,
    recording: &Recording,
    order: &[EventId],
) -> Result<Vec<u8>, OutOfMemory>
    requires short { IsShortRecording recording.now }
    requires numbered { IsNumberedByFirstUse recording.now }
    requires order { IsTsoOrder recording.now order.now }
    ensures { IfOk result (λ text. IsReplayText recording.now order.now text.items) }
{
    has_one_text();
    recording.sound();
    let (program, steps) = replay_steps(alloc, recording, order)?;
    program.sound();
    let text = print(alloc, &program)?;
    let script = steps_text(alloc, &steps, &program)?;
    parts_text(alloc, most_stores(recording), &text, &script)
}

/// The replay of the least order of a recording, or the verdict on a violation.
pub(crate) fn replay_of(
    alloc: Global,
    recording: &Recording,
    verdict: &Verdict,
) -> Result<Answer, OutOfMemory>
    requires short { IsShortRecording recording.now }
    requires numbered { IsNumberedByFirstUse recording.now }
    requires found { IsVerdict recording.now verdict.now }
    requires verified { Verifies recording.now verdict.now }
    ensures { IfOk result (IsReplayOf recording.now) }
{
    match verdict {
        Verdict::Ordered(order) => {
            let text = replay_text(alloc, recording, order)?;
            Ok(Answer {
                outcome: Outcome::Done,
                text,
            })
        }
        Verdict::Overlook { .. } | Verdict::Cycle(_) => {
            verdict_answer(alloc, Vec::new(alloc), recording, verdict)
        }
    }
}

/// Replays the recording of a named input, whose addresses have to be numbered by first use.
pub fn replay_command<H: Host>(
    alloc: Global,
    options: &FileOptions,
    host: &mut H,
) -> Result<Answer, CommandStop>
    ensures ok { IfOk result (IsReplayedInput (H.bytes host.old) options.now) }
    ensures err { IfErr result (IsReplayStop (H.bytes host.old) options.now) }
    ensures reads { ReadsNamed (string_bytes options.now.file ∷ []) (H.log host.old) (H.log host.new) result }
{
    let recording = recording_at(alloc, host, options.file.as_str(), RecordingSize::Short)?;
    if is_numbered(&recording) {
        let verdict = judge_alone(alloc, &recording)?;
        Ok(replay_of(alloc, &recording, &verdict)?)
    } else {
        Err(CommandStop::of_name(alloc, N8.name))
    }
}
