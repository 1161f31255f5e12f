//! What a line of a log says.

use outcomes::Observation;
use std::marker::Model;

/// What was observed of a program, as a line of a log says it.
#[derive(Drop)]
pub struct SeenLine {
    /// How its count and its items are printed, each after a space.
    text: Vec<u8>,
    /// What was observed.
    items: Vec<Observation>,
}

impl Model for SeenLine {
    ghost use Rattle.outcome_texts.specs.Seen.{Seen};

    ghost Value = { Seen };

    ghost view = { λ s. record { text = s.text.items; items = s.items.items } };
}

impl SeenLine {
    ghost use Rattle.std.specs.Prelude.{◌≡◌};

    /// A line of these.
    pub(crate) fn new(text: Vec<u8>, items: Vec<Observation>) -> SeenLine
        ensures { result ≡ record { text = text.items; items = items.items } }
    {
        SeenLine { text, items }
    }

    /// How its count and its items are printed, each after a space.
    pub(crate) fn text(&self) -> &[u8]
        ensures { result.now ≡ self.now.text }
    {
        &self.text
    }

    /// What was observed.
    pub fn items(&self) -> &[Observation]
        ensures { result.now ≡ self.now.items }
    {
        &self.items
    }
}

/// What a line of a log says.
#[derive(Drop)]
pub(crate) enum LineSays {
    /// Nothing: it has no item, or it begins with `{`.
    Silent,
    /// It has a word that is no item of the program, or an item twice.
    Refused,
    /// What was observed.
    Says(SeenLine),
}
