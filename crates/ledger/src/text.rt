//! One text of a campaign or of a survey.

ghost use Rattle.std.specs.Prelude.{◌≡◌, ◌+◌, ◌++◌, ℕ, List, Option, IfErr, IfOk, length};
ghost use Rattle.ledger.specs.declared.code.TheConstants.{LONG_CYCLE};
ghost use Rattle.ledger.specs.Merges.{IsTextRead, IsNoText};
ghost use Rattle.ledger.specs.Parts.{Is64BitPlace, IsReadOf, place_beside, place_read, tail};
ghost use Rattle.ledger.specs.Texts.{BeginsWithLedger, text_of};

use crate::counted::{campaign_text, survey_text};
use crate::cycles::cycle_counts;
use crate::ledger::Ledger;
use crate::lines::{count, first};
use crate::merge_error::{MergeRefusal, TextError};
use crate::text_kind::Kind;
use common::OutOfMemory;
use std::alloc::Global;
use texts::Cursor;

/// A first place of what has no verdict beside the first violation, where some have none.
fn place_beside(first: Option<usize>, unjudged: usize) -> Option<usize>
    ensures { result ≡ place_beside first unjudged }
{
    if unjudged == 0 {
        return None;
    }
    match first {
        None => Some(0),
        Some(place) => Some(1usize.saturating_sub(place)),
    }
}

/// The first place of what has no verdict: of a survey it is read, of a campaign it is the other one.
fn unjudged_place(rest: &mut Cursor<'_>, kind: Kind, other: Option<usize>) -> Option<usize>
    ensures { (place : Option ℕ) (more : List ℕ) → Is64BitPlace place → rest.old ≡ tail kind place ++ more
        → result ≡ place_read kind other place }
{
    match kind {
        Kind::Campaign => other,
        Kind::Survey => first(rest, b"refused", Kind::Survey),
    }
}

/// Reads the counts and the first places with which a text begins, whatever stands between them. Fails only if out of
/// memory.
fn read_ledger(alloc: Global, kind: Kind, text: &[u8]) -> Result<Ledger, OutOfMemory>
    ensures size { IfOk result (λ l. length l.cycles.items ≡ LONG_CYCLE + 1) }
    ensures only { IfOk result (λ l. (codes more : List ℕ) → BeginsWithLedger kind codes text.now more
        → IsReadOf kind codes l) }
{
    let mut rest = Cursor::new(text);
    let total = count(&mut rest, kind.all_name());
    let ordered = count(&mut rest, b"ordered");
    let unjudged = count(&mut rest, kind.unjudged_name());
    let overlook = count(&mut rest, b"overlook");
    let cycles = cycle_counts(&mut rest, alloc)?;
    let first = first(&mut rest, b"violation", kind);
    let first_unjudged = unjudged_place(&mut rest, kind, place_beside(first, unjudged));
    Ok(Ledger {
        total,
        ordered,
        unjudged,
        overlook,
        cycles,
        first,
        first_unjudged,
    })
}

/// The text of a ledger. Fails only if out of memory.
fn text_of(alloc: Global, kind: Kind, ledger: &Ledger) -> Result<Vec<u8>, OutOfMemory>
    ensures { IfOk result (λ text. text.items ≡ text_of kind ledger.now) }
{
    match kind {
        Kind::Campaign => campaign_text(alloc, ledger),
        Kind::Survey => survey_text(alloc, ledger),
    }
}

/// Why a text is refused that has a line which is none of it: it begins as one of the other kind, or it doesn't.
fn line_refusal(text: &[u8], kind: Kind) -> MergeRefusal {
    if text.starts_with(kind.other().all_name()) {
        MergeRefusal::OtherKind
    } else {
        MergeRefusal::NoLine
    }
}

/// How many bytes are left of a text from the first that differs from what is printed.
fn left_from_difference(text: &[u8], printed: &[u8]) -> usize {
    for i in 0..text.len() {
        if i >= printed.len() || text[i] != printed[i] {
            return text.len() - i;
        }
    }
    0
}

/// Takes the text of the ledger of some codes.
pub(crate) fn read(rest: &mut Cursor<'_>, alloc: Global, kind: Kind) -> Result<Ledger, TextError>
    ensures ok { IfOk result (IsTextRead kind rest.old rest.new) }
    ensures err { IfErr result (IsNoText kind rest.old) }
{
    let text = rest.rest();
    let ledger = read_ledger(alloc, kind, text)?;
    let printed = text_of(alloc, kind, &ledger)?;
    if !rest.take(&printed) {
        return Err(TextError::Refused {
            refusal: line_refusal(text, kind),
            left: left_from_difference(text, &printed),
        });
    }
    if !ledger.has_codes() {
        return Err(TextError::Refused {
            refusal: MergeRefusal::NoCodes,
            left: text.len(),
        });
    }
    Ok(ledger)
}
