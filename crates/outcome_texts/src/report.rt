//! The report on what was observed.

ghost use Rattle.std.specs.Prelude.{◌≡◌, ◌++◌, ◌∷◌, [], IfOk, OnOk, codes, length};
ghost use Rattle.std.specs.List.{flat_map};
ghost use Rattle.outcome_texts.specs.OutcomeText.{outcome_text};
ghost use Rattle.outcome_texts.specs.Report.{allowed_count, forbidden_count, is_explained, is_shown, report_text};
ghost use Rattle.outcome_texts.specs.Report.{seen_line, total_line, unseen, unseen_lines, verdict_word};

use crate::seen::SeenLine;
use crate::text::put_outcome;
use common::OutOfMemory;
use outcomes::{Outcome, explains, shows_all};
use program::Program;
use std::alloc::Global;
use texts::{put_text, put_text_and_number};

/// Whether one of the outcomes has all that a line says.
fn is_explained(outcomes: &[Outcome], seen: &SeenLine) -> bool
    ensures { result ≡ is_explained outcomes.now seen.now }
{
    explains(outcomes, seen.items())
}

/// Whether a line says nothing but what an outcome has.
fn is_shown(lines: &[SeenLine], outcome: &Outcome) -> bool
    ensures { result ≡ is_shown lines.now outcome.now }
{
    for seen in lines {
        if shows_all(outcome, seen.items()) {
            return true;
        }
    }
    false
}

/// The word for a line that is allowed, or is not.
fn verdict_word(is_allowed: bool) -> &'static [u8]
    ensures { result.now ≡ verdict_word is_allowed }
{
    if is_allowed { b"allowed" } else { b"forbidden" }
}

/// Adds the line for one of the log's.
fn put_seen(out: &mut Vec<u8>, is_allowed: bool, seen: &SeenLine) -> Result<(), OutOfMemory>
    ensures { OnOk result (out.new.items
        ≡ out.old.items ++ (verdict_word is_allowed ++ (seen.now.text ++ 10 ∷ []))) }
{
    put_text(out, verdict_word(is_allowed))?;
    put_text(out, seen.text())?;
    out.push(b'\n')?;
    Ok(())
}

/// How many lines are allowed, and how many are not.
#[derive(Clone, Copy, Drop)]
struct Counts {
    allowed: usize,
    forbidden: usize,
}

/// Adds a line for each of the log's; how many are allowed, and how many are not.
fn put_lines(
    out: &mut Vec<u8>,
    outcomes: &[Outcome],
    lines: &[SeenLine],
) -> Result<Counts, OutOfMemory>
    ensures text { OnOk result (out.new.items ≡ out.old.items ++ flat_map (seen_line outcomes.now) lines.now) }
    ensures allowed { IfOk result (λ n. n.allowed ≡ allowed_count outcomes.now lines.now) }
    ensures forbidden { IfOk result (λ n. n.forbidden ≡ forbidden_count outcomes.now lines.now) }
{
    let mut allowed = 0;
    let mut forbidden = 0;
    for seen in lines {
        let is_allowed = is_explained(outcomes, seen);
        put_seen(out, is_allowed, seen)?;
        if is_allowed {
            allowed += 1;
        } else {
            forbidden += 1;
        }
    }
    Ok(Counts { allowed, forbidden })
}

/// The outcomes that no line shows: how many, and their lines.
#[derive(Drop)]
struct Unseen {
    count: usize,
    text: Vec<u8>,
}

/// The outcomes that no line shows.
fn unseen_outcomes(
    alloc: Global,
    program: &Program,
    outcomes: &[Outcome],
    lines: &[SeenLine],
) -> Result<Unseen, OutOfMemory>
    ensures count { IfOk result (λ u. u.count ≡ length (unseen outcomes.now lines.now)) }
    ensures text { IfOk result (λ u. u.text.items
        ≡ flat_map (outcome_text program.now) (unseen outcomes.now lines.now)) }
{
    let mut count = 0;
    let mut text = Vec::new(alloc);
    for outcome in outcomes {
        if !is_shown(lines, outcome) {
            put_outcome(&mut text, alloc, program, outcome)?;
            count += 1;
        }
    }
    Ok(Unseen { count, text })
}

/// Adds a name, a number and a newline.
fn put_total(out: &mut Vec<u8>, name: &[u8], number: usize) -> Result<(), OutOfMemory>
    ensures { OnOk result (out.new.items ≡ out.old.items ++ total_line name.now number) }
{
    put_text_and_number(out, name, number)?;
    out.push(b'\n')?;
    Ok(())
}

/// What is printed of the outcomes that no line shows.
#[derive(Clone, Copy, PartialEq, Eq)]
pub enum UnseenForm {
    /// How many they are.
    Count,
    /// How many they are, and their lines.
    Lines,
}

/// Adds how many outcomes no line shows, and their lines where they are asked for.
fn put_unseen(out: &mut Vec<u8>, unseen: &Unseen, form: UnseenForm) -> Result<(), OutOfMemory>
    ensures { OnOk result (out.new.items ≡ out.old.items ++ (total_line (codes "unseen: ") unseen.now.count
        ++ unseen_lines form unseen.now.text.items)) }
{
    put_total(out, b"unseen: ", unseen.count)?;
    match form {
        UnseenForm::Count => Ok(()),
        UnseenForm::Lines => put_text(out, &unseen.text),
    }
}

/// What is reported on a log.
#[derive(Drop)]
pub struct Report {
    /// The text.
    pub text: Vec<u8>,
    /// How many lines are forbidden.
    pub forbidden: usize,
}

/// A line for each of the log's, how many are allowed and how many forbidden, and how many outcomes no line shows, with
/// their lines where they are asked for. Fails only if out of memory.
pub fn report_on(
    alloc: Global,
    program: &Program,
    outcomes: &[Outcome],
    lines: &[SeenLine],
    form: UnseenForm,
) -> Result<Report, OutOfMemory>
    ensures text { IfOk result (λ r. r.text.items ≡ report_text form program.now outcomes.now lines.now) }
    ensures forbidden { IfOk result (λ r. r.forbidden ≡ forbidden_count outcomes.now lines.now) }
{
    let mut text = Vec::new(alloc);
    let counts = put_lines(&mut text, outcomes, lines)?;
    put_total(&mut text, b"allowed: ", counts.allowed)?;
    put_total(&mut text, b"forbidden: ", counts.forbidden)?;
    let unseen = unseen_outcomes(alloc, program, outcomes, lines)?;
    put_unseen(&mut text, &unseen, form)?;
    Ok(Report {
        text,
        forbidden: counts.forbidden,
    })
}
