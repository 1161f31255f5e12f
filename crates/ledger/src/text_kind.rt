//! Whose counts a text has.

use texts::Cursor;

/// Whose counts a text has.
#[derive(Clone, Copy, Drop, PartialEq, Eq)]
pub enum Kind {
    /// Those of the trials of a campaign.
    Campaign,
    /// Those of the recordings of a survey.
    Survey,
}

impl Kind {
    ghost use Rattle.std.specs.Prelude.{◌≡◌, ◌++◌, ◌∷◌, [], List, ℕ, codes};
    ghost use Rattle.ledger.specs.declared.ledger.Ledger.{Ledger};
    ghost use Rattle.ledger.specs.Texts.{all_name, noun, text_of, unjudged_name};

    /// The kind that a text begins as.
    pub(crate) fn of(text: &[u8]) -> Kind
        ensures { (kind : Kind) (l : Ledger) (more : List ℕ) → text.now ≡ text_of kind l ++ more → result ≡ kind }
    {
        let mut rest = Cursor::new(text);
        if rest.take(b"recordings ") {
            Kind::Survey
        } else {
            Kind::Campaign
        }
    }

    /// The other kind.
    pub(crate) fn other(self) -> Kind {
        match self {
            Kind::Campaign => Kind::Survey,
            Kind::Survey => Kind::Campaign,
        }
    }

    /// The name of all, as the first line has it.
    pub(crate) fn all_name(self) -> &'static [u8]
        ensures { result.now ≡ all_name self }
    {
        match self {
            Kind::Campaign => b"trials",
            Kind::Survey => b"recordings",
        }
    }

    /// The name of what has no verdict.
    pub(crate) fn unjudged_name(self) -> &'static [u8]
        ensures { result.now ≡ unjudged_name self }
    {
        match self {
            Kind::Campaign => b"unfinished",
            Kind::Survey => b"refused",
        }
    }

    /// The name of one, and a space.
    pub(crate) fn noun(self) -> &'static [u8]
        ensures { result.now ≡ noun self ++ 32 ∷ [] }
    {
        match self {
            Kind::Campaign => b"trial ",
            Kind::Survey => b"recording ",
        }
    }
}
