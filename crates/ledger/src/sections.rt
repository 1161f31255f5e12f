//! Texts with headers.

ghost use Rattle.std.specs.Prelude.{◌≡◌, ◌++◌, ◌<◌, ◌↔◌, ℕ, IfErr, IfOk, IsTrue, List, map};
ghost use Rattle.headers.specs.Headers.{IsHeader};
ghost use Rattle.ledger.specs.Sections.{AreAlike, AreSections, Fits, IsSection, bytes_of, kind_of, Section as Part};
ghost use Rattle.ledger.specs.Unread.{IsFileOfSections, IsNoneAdded, IsNoSection, IsNoSectionUnder, IsOther};
ghost use Rattle.ledger.specs.Unread.{IsSectionAdded, IsUnread, IsUnreadFile};
ghost use Rattle.ledger.specs.Merges.{IsTextRead};
ghost use Rattle.ledger.specs.declared.ledger.Ledger.{Ledger};

use crate::header::header;
use crate::merge_error::{MergeError, MergeRefusal, TextError};
use crate::merged::error_of_file;
use crate::text::read;
use crate::text_kind::Kind;
use common::OutOfMemory;
use headers::{Counted, Header};
use std::alloc::Global;
use std::marker::Model;
use texts::Cursor;

/// A text of counts with its header.
#[derive(Drop)]
pub(crate) struct Section<'a> {
    /// Its header.
    header: Header,
    /// Its text.
    text: &'a [u8],
    /// The first violation that it tells.
    violation: Option<usize>,
    /// The number of its file, from 0.
    file: usize,
    /// How many bytes of the file are left, from its header on.
    left: usize,
}

impl<'a> Model for Section<'a> {
    ghost use Rattle.ledger.specs.Sections.{Section, IsSection};

    ghost Value = { Section };

    ghost view = { λ s. record { header = s.header; text = s.text.now; violation = s.violation } };

    ghost invariant = { λ s. IsSection (record { header = s.header; text = s.text.now; violation = s.violation }) };
}

impl<'a> Section<'a> {
    ghost use Rattle.std.specs.Prelude.{◌≡◌};
    ghost use Rattle.ledger.specs.Sections.{IsSection};

    /// What every section keeps. It does nothing.
    pub(crate) fn sound(&self)
        ensures { IsSection self.now }
    {
        let _header = &self.header;
    }

    /// Its header.
    pub(crate) fn header(&self) -> Header
        ensures { result ≡ self.now.header }
    {
        self.header
    }

    /// Its text.
    pub(crate) fn text(&self) -> &'a [u8]
        ensures { result.now ≡ self.now.text }
    {
        self.text
    }

    /// The first violation that it tells.
    pub(crate) fn violation(&self) -> Option<usize>
        ensures { result ≡ self.now.violation }
    {
        self.violation
    }

    /// The number of its file, from 0.
    pub(crate) fn file(&self) -> usize {
        self.file
    }

    /// How many bytes of the file are left, from its header on.
    pub(crate) fn bytes_left(&self) -> usize {
        self.left
    }
}

/// The kind of what is counted.
pub fn kind_of(counted: &Counted) -> Kind
    ensures { result ≡ kind_of counted.now }
{
    match counted {
        Counted::Campaign(_) => Kind::Campaign,
        Counted::Survey => Kind::Survey,
        Counted::LongSurvey => Kind::Survey,
    }
}

/// Whether a header is that of so many codes.
fn fits(header: &Header, total: usize) -> bool
    ensures { IsTrue result ↔ Fits header.now.counted header.now.count total }
{
    match header.counted {
        Counted::Campaign(_) => total as u64 == header.count,
        Counted::Survey => total as u64 <= header.count,
        Counted::LongSurvey => total as u64 <= header.count,
    }
}

/// Why what stands next is no header.
fn header_refusal(rest: &Cursor<'_>) -> MergeRefusal {
    if rest.rest().starts_with(b"#") {
        MergeRefusal::NoLine
    } else {
        MergeRefusal::NoHeader
    }
}

/// Takes the counts that stand under a header. Answers the first violation that they tell.
fn counts_under(
    rest: &mut Cursor<'_>,
    alloc: Global,
    header: &Header,
) -> Result<Option<usize>, TextError>
    ensures ok { IfOk result (λ first. (l : Ledger) × IsTextRead (kind_of header.now.counted) rest.old rest.new l
        × Fits header.now.counted header.now.count l.total × (first ≡ l.first)) }
    ensures err { IfErr result (IsNoSectionUnder header.now rest.old) }
{
    let counts = rest.bytes_left();
    let ledger = match read(rest, alloc, kind_of(&header.counted)) {
        Ok(ledger) => ledger,
        Err(error) => return Err(error),
    };
    if !fits(header, ledger.total) {
        return Err(TextError::Refused {
            refusal: MergeRefusal::NoCodes,
            left: counts,
        });
    }
    Ok(ledger.first)
}

/// Takes the text that stands under a header, in the file of this number, of which so many bytes were left from the
/// header on.
fn section_under<'a>(
    rest: &mut Cursor<'a>,
    alloc: Global,
    header: Header,
    file: usize,
    left: usize,
) -> Result<Section<'a>, TextError>
    requires { IsHeader header }
    ensures ok { IfOk result (λ s. (s.header ≡ header) × (rest.old ≡ s.text ++ rest.new)) }
    ensures err { IfErr result (IsNoSectionUnder header rest.old) }
{
    let text = rest.rest();
    let counts = rest.bytes_left();
    match counts_under(rest, alloc, &header) {
        Ok(violation) => Ok(Section {
            header,
            text: &text[..counts - rest.bytes_left()],
            violation,
            file,
            left,
        }),
        Err(error) => Err(error),
    }
}

/// Takes the section that stands next, in the file of this number.
fn next_section<'a>(
    rest: &mut Cursor<'a>,
    alloc: Global,
    file: usize,
) -> Result<Section<'a>, TextError>
    ensures ok { IfOk result (λ s. rest.old ≡ bytes_of s ++ rest.new) }
    ensures only { IfOk result (λ s. (t : Part) (more : List ℕ) → IsSection t → rest.old ≡ bytes_of t ++ more
        → t.header ≡ s.header) }
    ensures err { IfErr result (IsNoSection rest.old) }
{
    let left = rest.bytes_left();
    let Some(header) = header(rest, alloc)? else {
        return Err(TextError::Refused {
            refusal: header_refusal(rest),
            left,
        });
    };
    section_under(rest, alloc, header, file, left)
}

/// Why a section is none of those before it, if it is not.
fn other(before: &[Section<'_>], section: &Section<'_>) -> Option<MergeRefusal>
    requires { AreAlike before.now }
    ensures { IsOther before.now section.now result }
{
    let Some(first) = before.first() else {
        return None;
    };
    if section.header.counted == first.header.counted {
        return None;
    }
    if kind_of(&section.header.counted) == kind_of(&first.header.counted) {
        Some(MergeRefusal::OtherCampaign)
    } else {
        Some(MergeRefusal::OtherKind)
    }
}

/// Adds the section that stands next in a file.
fn add_section<'a>(
    alloc: Global,
    rest: &mut Cursor<'a>,
    file: usize,
    found: &mut Vec<Section<'a>>,
) -> Result<(), TextError>
    requires { AreAlike found.old.items }
    ensures ok { IfOk result (λ _. IsSectionAdded found.old.items found.new.items rest.old rest.new) }
    ensures err { IfErr result (IsNoneAdded found.old.items rest.old) }
{
    let left = rest.bytes_left();
    let next = match next_section(rest, alloc, file) {
        Ok(next) => next,
        Err(error) => return Err(error),
    };
    next.sound();
    if let Some(refusal) = other(found.as_slice(), &next) {
        return Err(TextError::Refused { refusal, left });
    }
    let Ok(()) = found.push(next) else {
        return Err(TextError::OutOfMemory);
    };
    Ok(())
}

/// Adds the sections of a file.
fn add_sections<'a>(
    alloc: Global,
    bytes: &'a [u8],
    file: usize,
    found: &mut Vec<Section<'a>>,
) -> Result<(), TextError>
    requires { AreAlike found.old.items }
    ensures ok { IfOk result (λ _. IsFileOfSections found.old.items found.new.items bytes.now) }
    ensures err { IfErr result (IsUnreadFile found.old.items bytes.now) }
{
    if bytes.is_empty() {
        return Err(TextError::Refused {
            refusal: MergeRefusal::NoLine,
            left: 0,
        });
    }
    let mut rest = Cursor::new(bytes);
    'sections: while rest.bytes_left() > 0 {
        if let Err(error) = add_section(alloc, &mut rest, file, found) {
            return Err(error);
        }
    }
    Ok(())
}

/// The sections of these files, of which each has one or more and which all count the same; or the first refusal, in
/// the order in which they are read.
pub(crate) fn sections<'a>(
    alloc: Global,
    files: &'a [Vec<u8>],
) -> Result<Vec<Section<'a>>, MergeError>
    ensures ok { IfOk result (λ found. AreSections (map (λ v. v.items) files.now) found.items) }
    ensures err { IfErr result (IsUnread (map (λ v. v.items) files.now)) }
{
    let mut found = Vec::new(alloc);
    for i in 0..files.len() {
        let bytes = files[i].as_slice();
        if let Err(error) = add_sections(alloc, bytes, i, &mut found) {
            return Err(error_of_file(error, i, bytes));
        }
    }
    Ok(found)
}
