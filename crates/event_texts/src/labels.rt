//! Labels of a recording's events, and the text that has them.

ghost use Rattle.std.specs.Prelude.{◌≡◌, ◌<◌, IfErr, IfOk, IfSome, Ok, length, map, position};
ghost use Rattle.event_texts.specs.Labels.{IsLabelError, is_too_long, labels_in, lines_in};

use bstr::ByteSlice;
use common::{EventId, OutOfMemory};
use std::alloc::Global;
use std::marker::Model;

/// The most bytes that the label of an event has.
pub const MAX_LABEL_LEN: usize = 64;

/// The label of each event of a recording, by its number. An event has none where its label is empty, as past the last.
#[derive(Drop)]
pub struct Labels {
    texts: Vec<Vec<u8>>,
}

impl Model for Labels {
    ghost use Rattle.std.specs.Prelude.{List, map, ℕ};

    ghost Value = { List (List ℕ) };

    ghost view = { λ labels. map (λ text. text.items) labels.texts.items };
}

impl Labels {
    ghost use Rattle.std.specs.Prelude.{◌≡◌, [], length};
    ghost use Rattle.event_texts.specs.Labels.{label_at};

    /// No event has a label.
    pub fn none(alloc: Global) -> Labels
        ensures { result ≡ [] }
    {
        Labels {
            texts: Vec::new(alloc),
        }
    }

    /// How many there are, empty ones too.
    pub fn len(&self) -> usize
        ensures { result ≡ length self.now }
    {
        self.texts.len()
    }

    /// The label of an event; empty where it has none.
    pub fn label(&self, number: EventId) -> &[u8]
        ensures { result.now ≡ label_at self.now number }
    {
        if number as usize >= self.texts.len() {
            return &[];
        }
        self.texts[number as usize].as_slice()
    }
}

/// Whether a line is longer than a label may be.
fn is_too_long(line: &[u8]) -> bool
    ensures { result ≡ is_too_long line.now }
{
    line.len() > MAX_LABEL_LEN
}

/// The place of the first line that is too long for a label.
fn first_too_long(text: &[u8]) -> Option<usize>
    ensures place { result ≡ position is_too_long (lines_in text.now) }
    ensures within { IfSome result (λ i. i < length text.now) }
{
    text.lines().position(|line| is_too_long(line))
}

/// A copy of each line.
fn copied_lines(alloc: Global, text: &[u8]) -> Result<Vec<Vec<u8>>, OutOfMemory>
    ensures { IfOk result (λ lines. map (λ line. line.items) lines.items ≡ lines_in text.now) }
{
    let mut lines = Vec::new(alloc);
    for line in text.lines() {
        lines.push(Vec::from_slice(alloc, line)?)?;
    }
    Ok(lines)
}

/// Why a text has no labels.
#[derive(Clone, Copy, Drop, PartialEq, Eq)]
pub enum LabelError {
    /// This line is the first that has more than `MAX_LABEL_LEN` bytes; lines are counted from 1.
    TooLong(usize),
    /// There is no memory.
    OutOfMemory,
}

impl From<OutOfMemory> for LabelError {
    ghost use Rattle.std.specs.Prelude.{◌≡◌};
    ghost use Rattle.event_texts.specs.declared.labels.LabelError.TheVariants.{OutOfMemory};

    ghost from_gives = { λ _ e. e ≡ OutOfMemory };

    fn from(_refused: OutOfMemory) -> LabelError {
        LabelError::OutOfMemory
    }
}

/// The labels that a text has: its lines, each without the newline that ends it, and a carriage return before that.
pub fn labels_in(alloc: Global, text: &[u8]) -> Result<Labels, LabelError>
    ensures ok { IfOk result (λ labels. labels_in text.now ≡ Ok labels) }
    ensures err { IfErr result (IsLabelError text.now) }
{
    if let Some(place) = first_too_long(text) {
        return Err(LabelError::TooLong(place + 1));
    }
    Ok(Labels {
        texts: copied_lines(alloc, text)?,
    })
}
