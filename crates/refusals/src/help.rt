//! What refusals mean, as the help prints it.
ghost use Rattle.std.specs.Prelude.{◌≡◌, ◌++◌, ◌∷◌, ◌-◌, [], IfOk, OnOk, codes, length, option_map};
ghost use Rattle.std.specs.List.{flat_map};
ghost use Rattle.refusals.specs.Meanings.{group_text, kind_text, meaning, meanings, numbered, said_text};
ghost use Rattle.refusals.specs.Table.{group_of, texts_of};
ghost use Rattle.texts.specs.Numbers.{spaces};

use crate::refusal::{Group, Refusal};
use crate::table::{KINDS, Kind, kind_group};
use common::OutOfMemory;
use std::alloc::Global;
use texts::{put_spaces, put_text};

/// What stands before all.
const INTRODUCTION: &str =
    "A line `refused: ..` of standard output names one of these. N is the number that it has.\n";

/// How many bytes a name has, with the spaces after it.
const NAME_WIDTH: usize = 5;

/// Adds what the number of a refusal counts, where it has one.
fn put_counted(out: &mut Vec<u8>, counts: Option<&str>) -> Result<(), OutOfMemory>
    ensures { OnOk result (out.new.items ≡ out.old.items ++ numbered (option_map (λ text. text.now) counts.entry)) }
{
    match counts {
        Some(counts) => {
            put_text(out, counts.as_bytes())?;
            put_text(out, b" N ")
        }
        None => Ok(()),
    }
}

/// Adds the name of a refusal, with spaces after it.
fn put_name(out: &mut Vec<u8>, name: &str) -> Result<(), OutOfMemory>
    ensures { OnOk result (out.new.items ≡ out.old.items ++ (name.now ++ spaces (NAME_WIDTH - length name.now))) }
{
    put_text(out, name.as_bytes())?;
    put_spaces(out, NAME_WIDTH.saturating_sub(name.len()))
}

/// Adds what is wrong, and between parentheses what to know about it.
fn put_said(out: &mut Vec<u8>, said: &str, advice: &str) -> Result<(), OutOfMemory>
    ensures { OnOk result (out.new.items ≡ out.old.items ++ said_text said.now advice.now) }
{
    put_text(out, said.as_bytes())?;
    put_text(out, b" (")?;
    put_text(out, advice.as_bytes())?;
    put_text(out, b")\n")
}

/// Adds the line that says what a refusal means.
fn put_meaning(out: &mut Vec<u8>, refusal: &Refusal<&str>) -> Result<(), OutOfMemory>
    ensures { OnOk result (out.new.items ≡ out.old.items ++ meaning (texts_of refusal.now)) }
{
    put_name(out, refusal.name)?;
    put_counted(out, refusal.counts)?;
    put_said(out, refusal.said, refusal.advice)
}

/// Adds what refusals are of, after an empty line.
fn put_heading(out: &mut Vec<u8>, heading: &str) -> Result<(), OutOfMemory>
    ensures { OnOk result (out.new.items ≡ out.old.items ++ (10 ∷ heading.now ++ codes ":" ++ 10 ∷ [])) }
{
    put_text(out, b"\n")?;
    put_text(out, heading.as_bytes())?;
    put_text(out, b":\n")
}

/// Adds what the refusals of a kind of text mean, under what they are of.
fn put_group(out: &mut Vec<u8>, group: &Group) -> Result<(), OutOfMemory>
    ensures { OnOk result (out.new.items ≡ out.old.items ++ group_text (group_of group.now)) }
{
    let (heading, refusals) = *group;
    put_heading(out, heading)?;
    for refusal in refusals {
        put_meaning(out, refusal)?;
    }
    Ok(())
}

/// The line that says what a refusal means: its name, what is wrong, and between parentheses what to know about it.
/// Fails only if out of memory.
pub fn meaning(alloc: Global, refusal: &Refusal<&str>) -> Result<Vec<u8>, OutOfMemory>
    ensures { IfOk result (λ text. text.items ≡ meaning (texts_of refusal.now)) }
{
    let mut out = Vec::new(alloc);
    put_meaning(&mut out, refusal)?;
    Ok(out)
}

/// Adds what the refusals of these kinds mean.
fn put_kinds(out: &mut Vec<u8>, kinds: &[Kind]) -> Result<(), OutOfMemory>
    ensures { OnOk result (out.new.items ≡ out.old.items ++ flat_map kind_text kinds.now) }
{
    for kind in kinds {
        put_group(out, &kind_group(*kind))?;
    }
    Ok(())
}

/// What all refusals mean. Fails only if out of memory.
pub fn meanings(alloc: Global) -> Result<Vec<u8>, OutOfMemory>
    ensures { IfOk result (λ text. text.items ≡ meanings) }
{
    let mut out = Vec::new(alloc);
    put_text(&mut out, INTRODUCTION.as_bytes())?;
    put_kinds(&mut out, KINDS)?;
    Ok(out)
}
