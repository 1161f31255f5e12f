//! Files of counts, added up.
ghost use Rattle.std.specs.Prelude.{◌≡◌, ◌<◌, IfErr, IfOk, false, length, map, string_bytes, true};
ghost use Rattle.std.specs.List.{AllZip};
ghost use Rattle.inputs.specs.Inputs.{AreBytesOf, ReadsNamed};
ghost use Rattle.inputs.specs.Refusal.{IsFailure};
ghost use Rattle.merging.specs.Merge.{IsErrorAmong, IsJoinAnswer, IsMergeAnswer, IsMerged, IsMergeStop, IsTextsStop};
ghost use Rattle.merging.specs.Merge.{gaps_of, is_headed};

use crate::counts_answer::{joined_answer, merged_answer};
use crate::refusal_lines::{join_refusal, merge_refusal, name_at};
use command_line::MergeOptions;
use devices::Host;
use inputs::{CommandError, CommandStop, PrintedRefusal, quote_line, text_at};
use ledger::{Gaps, MergeError, join, merge};
use std::alloc::{AllocError, Global};
use verdicts::Answer;

/// All bytes of the inputs of these names, in order.
fn texts_at<H: Host>(
    alloc: Global,
    host: &mut H,
    names: &[String],
) -> Result<Vec<Vec<u8>>, CommandStop>
    ensures ok { IfOk result (λ texts. AllZip (AreBytesOf (H.bytes host.old)) (map string_bytes names.now)
        (map (λ v. v.items) texts.items)) }
    ensures err { IfErr result (IsFailure (IsErrorAmong (H.bytes host.old) (map string_bytes names.now))) }
    ensures reads { ReadsNamed (map string_bytes names.now) (H.log host.old) (H.log host.new) result }
{
    let mut texts = Vec::new(alloc);
    for i in 0..names.len() {
        let text = match text_at(alloc, host, names[i].as_str()) {
            Ok(text) => text,
            Err(error) => return Err(CommandStop::Failed(error)),
        };
        let Ok(()) = texts.push(text) else {
            return Err(CommandStop::Failed(CommandError::OutOfMemory));
        };
    }
    Ok(texts)
}

/// A line of a file, as a person is shown it, where there is such a file.
fn quote_of(
    alloc: Global,
    file: usize,
    line: usize,
    texts: &[Vec<u8>],
) -> Result<Option<String>, AllocError> {
    match texts.get(file) {
        Some(text) => Ok(Some(quote_line(alloc, text.as_slice(), line)?)),
        None => Ok(None),
    }
}

/// Adds up the counts of texts without headers, which are those of files of these names.
fn merged_texts(alloc: Global, names: &[String], texts: &[Vec<u8>]) -> Result<Answer, CommandStop>
    requires some { 0 < length texts.now }
    requires named { length names.now ≡ length texts.now }
    ensures ok { IfOk result (IsMergeAnswer (map (λ v. v.items) texts.now)) }
    ensures err { IfErr result (IsTextsStop false (map string_bytes names.now) (map (λ v. v.items) texts.now)) }
{
    match merge(alloc, texts) {
        Ok(merged) => Ok(merged_answer(alloc, merged.kind, &merged.ledger)?),
        Err(
            MergeError::Refused {
                refusal,
                file,
                line,
            },
        ) => {
            let printed = merge_refusal(alloc, refusal, line, name_at(names, file))?;
            let quote = quote_of(alloc, file, line, texts)?;
            Err(CommandStop::Refused(PrintedRefusal {
                line: printed,
                quote,
            }))
        }
        Err(_) => Err(CommandStop::Failed(CommandError::OutOfMemory)),
    }
}

/// Adds up the counts of texts with headers, which are those of files of these names.
fn joined_texts(
    alloc: Global,
    names: &[String],
    texts: &[Vec<u8>],
    gaps: Gaps,
) -> Result<Answer, CommandStop>
    requires some { 0 < length texts.now }
    ensures ok { IfOk result (IsJoinAnswer gaps (map (λ v. v.items) texts.now)) }
    ensures err { IfErr result (IsTextsStop true (map string_bytes names.now) (map (λ v. v.items) texts.now)) }
{
    match join(alloc, texts, gaps) {
        Ok(joined) => Ok(joined_answer(alloc, gaps, &joined)?),
        Err(MergeError::OutOfMemory) => Err(CommandStop::Failed(CommandError::OutOfMemory)),
        Err(error) => {
            let line = join_refusal(alloc, error, names)?;
            let quote = match error {
                MergeError::Refused { file, line, .. } => quote_of(alloc, file, line, texts)?,
                _ => None,
            };
            Err(CommandStop::Refused(PrintedRefusal { line, quote }))
        }
    }
}

/// Whether texts have headers.
fn is_headed(options: &MergeOptions, texts: &[Vec<u8>]) -> bool
    ensures { result ≡ is_headed options.now.partial (map (λ v. v.items) texts.now) }
{
    if options.partial {
        return true;
    }
    match texts.first() {
        Some(text) => text.first() == Some(&b'#'),
        None => false,
    }
}

/// What is done where seeds or lines are missing between texts.
fn gaps_of(options: &MergeOptions) -> Gaps
    ensures { result ≡ gaps_of options.now.partial }
{
    if options.partial {
        Gaps::Count
    } else {
        Gaps::Refuse
    }
}

/// Adds up the counts of the campaigns, or of the surveys, whose texts the named inputs are.
pub fn merge_command<H: Host>(
    alloc: Global,
    options: &MergeOptions,
    host: &mut H,
) -> Result<Answer, CommandStop>
    requires some { 0 < length options.now.files.items }
    ensures ok { IfOk result (IsMerged (H.bytes host.old) options.now) }
    ensures err { IfErr result (IsMergeStop (H.bytes host.old) options.now) }
    ensures reads { ReadsNamed (map string_bytes options.now.files.items) (H.log host.old) (H.log host.new) result }
{
    let texts = match texts_at(alloc, host, &options.files) {
        Ok(texts) => texts,
        Err(stop) => return Err(stop),
    };
    if is_headed(options, &texts) {
        return joined_texts(alloc, &options.files, &texts, gaps_of(options));
    }
    merged_texts(alloc, &options.files, &texts)
}
