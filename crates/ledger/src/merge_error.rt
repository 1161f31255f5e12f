//! Why texts are not added up.

use crate::text_kind::Kind;
use common::OutOfMemory;

/// Why a text is refused.
#[derive(Clone, Copy, Drop, PartialEq, Eq)]
pub enum MergeRefusal {
    /// M1: a line is none of such a text.
    NoLine,
    /// M2: the counts and first places are those of no list of outcomes.
    NoCodes,
    /// M3: a text is of the other kind than the first.
    OtherKind,
    /// M4: a text is of another campaign than the first.
    OtherCampaign,
    /// M7: with a text there are 2^64 or more.
    TooMany,
    /// M8: a text has no header.
    NoHeader,
}

/// Why a text is not added: a refusal, with how many bytes are left from the line at fault on, or that memory ran out.
#[derive(Clone, Copy, Drop, PartialEq, Eq)]
pub(crate) enum TextError {
    /// It is refused.
    Refused {
        /// Why.
        refusal: MergeRefusal,
        /// How many bytes are left, from the line at fault on.
        left: usize,
    },
    /// There is no memory.
    OutOfMemory,
}

impl From<OutOfMemory> for TextError {
    ghost use Rattle.std.specs.Prelude.{◌≡◌};
    ghost use Rattle.ledger.specs.declared.merge_error.TextError.TheVariants.{OutOfMemory};

    ghost from_gives = { λ _ e. e ≡ OutOfMemory };

    fn from(_refused: OutOfMemory) -> TextError {
        TextError::OutOfMemory
    }
}

/// Seeds or lines that are missing between two texts, or that two have.
#[derive(Clone, Copy, Drop, PartialEq, Eq)]
pub struct Seam {
    /// The first of them.
    pub from: u64,
    /// The last of them.
    pub to: u64,
    /// The number of the file of the text with the lesser ones, from 0.
    pub file: usize,
    /// That of the other.
    pub other: usize,
    /// Whether they are seeds or lines.
    pub kind: Kind,
}

/// Why texts are not added up.
#[derive(Clone, Copy, Drop, PartialEq, Eq)]
pub enum MergeError {
    /// A text is refused.
    Refused {
        /// Why.
        refusal: MergeRefusal,
        /// The number of the file, from 0.
        file: usize,
        /// The line at fault, from 1.
        line: usize,
    },
    /// M5: some are missing between two texts.
    Gap(Seam),
    /// M6: two texts have the same.
    Overlap(Seam),
    /// There is no memory.
    OutOfMemory,
}

impl From<OutOfMemory> for MergeError {
    ghost use Rattle.std.specs.Prelude.{◌≡◌};
    ghost use Rattle.ledger.specs.declared.merge_error.MergeError.TheVariants.{OutOfMemory};

    ghost from_gives = { λ _ e. e ≡ OutOfMemory };

    fn from(_refused: OutOfMemory) -> MergeError {
        MergeError::OutOfMemory
    }
}
