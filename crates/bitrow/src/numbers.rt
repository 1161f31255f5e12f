//! The numbers of a set in turn.

use crate::word_bits::{first_word, next_word, without_lowest};
use std::marker::Model;

/// The numbers of a set in turn, the least first.
#[derive(Drop)]
pub struct Numbers<'a> {
    words: &'a [u64],
    len: usize,
    /// The place of the word that `rest` is of.
    at: usize,
    /// The bits of that word that are still to come.
    rest: u64,
    /// Where the next number is looked for.
    from: usize,
}

impl<'a> Model for Numbers<'a> {
    ghost use Rattle.std.specs.Prelude.{length};
    ghost use Rattle.bitrow.specs.Bits.{members_below, AreWordsOf};
    ghost use Rattle.bitrow.specs.Walks.{RowWalk, walk_of, IsRest};

    ghost Value = { RowWalk };

    ghost view = { λ n. walk_of (members_below n.words.now n.len) n.from };

    ghost invariant = { λ n. AreWordsOf n.words.now n.len × IsRest n.words.now n.at n.rest n.from };
}

impl<'a> Numbers<'a> {
    ghost use Rattle.std.specs.Prelude.{◌≡◌, ◌+◌, length, IfNone, IfSome};
    ghost use Rattle.bitrow.specs.Bits.{members_below, IsNext, AreWordsOf};
    ghost use Rattle.bitrow.specs.Walks.{walk_of};

    /// The numbers below a length whose bits are 1.
    pub(crate) fn new(words: &'a [u64], len: usize) -> Numbers<'a>
        requires { AreWordsOf words.now len }
        ensures { result ≡ walk_of (members_below words.now len) 0 }
    {
        Numbers {
            words,
            len,
            at: 0,
            rest: first_word(words),
            from: 0,
        }
    }

    /// The next number; none after the greatest.
    pub fn next(&mut self) -> Option<usize>
        ensures found { IsNext self.old.row self.old.from result }
        ensures row { self.new.row ≡ self.old.row }
        ensures from { IfSome result (λ e. self.new.from ≡ e + 1) }
        // After the greatest there is none for ever.
        ensures ended { IfNone result (self.new.from ≡ self.old.from) }
    {
        if self.rest != 0 {
            let bit = self.rest.trailing_zeros() as usize;
            let number = 64 * self.at + bit;
            self.rest = without_lowest(self.rest);
            self.from = number + 1;
            return Some(number);
        }
        let number = next_word(self.words, self.at + 1)?;
        self.at = number / 64;
        self.rest = without_lowest(self.words[number / 64]);
        self.from = number + 1;
        Some(number)
    }
}
