//! The lines of texts that are not added up.
ghost use Rattle.std.specs.Prelude.{◌≡◌, [], IfOk, map, slice_index_or, string_bytes};
ghost use Rattle.merging.specs.Merge.{gap_line, join_line, merge_head, merge_line, merge_refusal_name, other_line};
ghost use Rattle.merging.specs.Merge.{overlap_line, seam_head, seam_noun, text_line};

use ledger::{Kind, MergeError, MergeRefusal, Seam};
use refusals::{M1, M2, M3, M4, M5, M6, M7, M8};
use std::alloc::{AllocError, Global};

/// The name of the refusal of a text.
fn merge_refusal_name(refusal: MergeRefusal) -> &'static str
    ensures { result.now ≡ merge_refusal_name refusal }
{
    match refusal {
        MergeRefusal::NoLine => M1.name,
        MergeRefusal::NoCodes => M2.name,
        MergeRefusal::OtherKind => M3.name,
        MergeRefusal::OtherCampaign => M4.name,
        MergeRefusal::TooMany => M7.name,
        MergeRefusal::NoHeader => M8.name,
    }
}

/// What is printed for a line of the input of this name, up to the end of the printed line.
fn merge_head(
    alloc: Global,
    refusal: MergeRefusal,
    line: usize,
    name: &str,
) -> Result<String, AllocError>
    ensures { IfOk result (λ printed. string_bytes printed ≡ merge_head refusal line name.now) }
{
    let number = merge_refusal_name(refusal);
    let printed = format!(in alloc; "refused: {number} line {line} of {name}")?;
    Ok(printed)
}

/// What is printed for a line of the input of this name.
pub(crate) fn merge_refusal(
    alloc: Global,
    refusal: MergeRefusal,
    line: usize,
    name: &str,
) -> Result<String, AllocError>
    ensures { IfOk result (λ printed. string_bytes printed ≡ merge_line refusal line name.now) }
{
    let head = merge_head(alloc, refusal, line, name)?;
    let printed = format!(in alloc; "{head}\n")?;
    Ok(printed)
}

/// The name of a file, of which there are these; the empty one past the last.
pub(crate) fn name_at(names: &[String], file: usize) -> &str
    ensures { result.now ≡ slice_index_or (map string_bytes names.now) file [] }
{
    match names.get(file) {
        Some(name) => name.as_str(),
        None => "",
    }
}

/// What seeds or lines are called.
fn seam_noun(kind: Kind) -> &'static str
    ensures { result.now ≡ seam_noun kind }
{
    match kind {
        Kind::Campaign => "seeds ",
        Kind::Survey => "lines ",
    }
}

/// What is printed for a seam, up to the names of files.
fn seam_head(alloc: Global, number: &str, seam: Seam) -> Result<String, AllocError>
    ensures { IfOk result (λ text. string_bytes text ≡ seam_head number.now seam) }
{
    let noun = seam_noun(seam.kind);
    let from = seam.from;
    let to = seam.to;
    let head = format!(in alloc; "refused: {number} {noun}{from} to {to}")?;
    Ok(head)
}

/// What is printed for a line of a text of another campaign than the first.
fn other_campaign(alloc: Global, head: &str, first: &str) -> Result<String, AllocError>
    ensures { IfOk result (λ printed. string_bytes printed ≡ other_line head.now first.now) }
{
    let printed = format!(in alloc; "{head} beside {first}\n")?;
    Ok(printed)
}

/// What is printed for a gap between texts of these files.
fn gap_line(alloc: Global, head: &str, name: &str, other: &str) -> Result<String, AllocError>
    ensures { IfOk result (λ printed. string_bytes printed ≡ gap_line head.now name.now other.now) }
{
    let printed = format!(in alloc; "{head} between {name} and {other}\n")?;
    Ok(printed)
}

/// What is printed for what texts of these files both have.
fn overlap_line(alloc: Global, head: &str, name: &str, other: &str) -> Result<String, AllocError>
    ensures { IfOk result (λ printed. string_bytes printed ≡ overlap_line head.now name.now other.now) }
{
    let printed = format!(in alloc; "{head} of {name} and {other}\n")?;
    Ok(printed)
}

/// What is printed for a line of a text with a header, of files of these names.
fn text_refusal(
    alloc: Global,
    refusal: MergeRefusal,
    line: usize,
    name: &str,
    first: &str,
) -> Result<String, AllocError>
    ensures { IfOk result (λ printed. string_bytes printed ≡ text_line refusal line name.now first.now) }
{
    match refusal {
        MergeRefusal::OtherCampaign => {
            let head = merge_head(alloc, refusal, line, name)?;
            let printed = other_campaign(alloc, head.as_str(), first)?;
            Ok(printed)
        }
        _ => merge_refusal(alloc, refusal, line, name),
    }
}

/// What is printed where texts with headers are not joined, whose files have these names.
pub(crate) fn join_refusal(
    alloc: Global,
    error: MergeError,
    names: &[String],
) -> Result<String, AllocError>
    ensures { IfOk result (λ line. string_bytes line ≡ join_line (map string_bytes names.now) error) }
{
    match error {
        MergeError::Refused {
            refusal,
            file,
            line,
        } => text_refusal(
            alloc,
            refusal,
            line,
            name_at(names, file),
            name_at(names, 0),
        ),
        MergeError::Gap(seam) => {
            let head = seam_head(alloc, M5.name, seam)?;
            let printed = gap_line(
                alloc,
                head.as_str(),
                name_at(names, seam.file),
                name_at(names, seam.other),
            )?;
            Ok(printed)
        }
        MergeError::Overlap(seam) => {
            let head = seam_head(alloc, M6.name, seam)?;
            let printed = overlap_line(
                alloc,
                head.as_str(),
                name_at(names, seam.file),
                name_at(names, seam.other),
            )?;
            Ok(printed)
        }
        MergeError::OutOfMemory => Ok(String::new(alloc)),
    }
}
