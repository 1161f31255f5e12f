//! Some of the lines that a source gives.

use devices::{Failed, Source};

/// Which lines of a source are surveyed.
#[derive(Clone, Copy, Drop, PartialEq, Eq)]
pub struct LineRange {
    /// The number of the first, from 1.
    pub first: u64,
    /// How many there are at most; none sets no limit.
    pub count: Option<u64>,
}

/// A source that gives the bytes of another, with an end of a line in the place of each byte outside some lines, so
/// that these lines alone are not empty.
#[derive(Drop)]
pub struct LinesOf<R> {
    source: R,
    before: u64,
    count: Option<u64>,
}

impl<R: Source> LinesOf<R> {
    ghost use Rattle.std.specs.Prelude.{◌≡◌, ◌++◌, ◌-◌, ◌∷◌, ℕ, List, length, true};
    ghost use Rattle.surveys.specs.Lines.{lines};
    ghost use Rattle.surveys.specs.Ranges.{lines_in, masked};

    /// The lines of a range.
    pub fn new(source: R, range: LineRange) -> LinesOf<R>
        ensures source { result.source ≡ source }
        ensures before { result.before ≡ range.first - 1 }
        ensures count { result.count ≡ range.count }
        ensures lines { (bytes : List ℕ) → lines (masked (range.first - 1) range.count bytes) ≡ lines_in range bytes }
        ensures size { (bytes : List ℕ) → length (masked (range.first - 1) range.count bytes) ≡ length bytes }
    {
        LinesOf {
            source,
            before: range.first.saturating_sub(1),
            count: range.count,
        }
    }

    /// The source.
    pub fn into_source(self) -> R
        ensures { result ≡ self.source }
    {
        let LinesOf { source, .. } = self;
        source
    }

    /// What stands for the next byte.
    fn next(&mut self, byte: u8) -> u8
        ensures source { self.new.source ≡ self.old.source }
        ensures byte { (more : List ℕ) → masked self.old.before self.old.count (byte ∷ more)
            ≡ result ∷ masked self.new.before self.new.count more }
    {
        let ends = byte == b'\n';
        if self.before > 0 {
            if ends {
                self.before -= 1;
            }
            return b'\n';
        }
        match self.count {
            None => byte,
            Some(0) => b'\n',
            Some(left) => {
                if ends {
                    self.count = Some(left - 1);
                }
                byte
            }
        }
    }

    /// Whether all bytes that come stay as they are.
    fn is_open(&self) -> bool
        ensures { (bytes : List ℕ) → result ≡ true → masked self.now.before self.now.count bytes ≡ bytes }
    {
        self.before == 0 && self.count.is_none()
    }

    /// Puts what stands for the next bytes in their places.
    fn mask(&mut self, bytes: &mut [u8])
        ensures source { self.new.source ≡ self.old.source }
        ensures bytes { (more : List ℕ) → masked self.old.before self.old.count (bytes.old ++ more)
            ≡ bytes.new ++ masked self.new.before self.new.count more }
    {
        let mut at = 0;
        'bytes: while at < bytes.len() && !self.is_open() {
            bytes[at] = self.next(bytes[at]);
            at += 1;
        }
    }
}

impl<R: Source> Source for LinesOf<R> {
    ghost use Rattle.std.specs.Prelude.{option_map};
    ghost use Rattle.surveys.specs.Ranges.{masked};

    ghost left = { λ lines. option_map (masked lines.before lines.count) (R.left lines.source) };

    ghost is_ended = { λ lines. R.is_ended lines.source };

    ghost read_failed = { λ lines. R.read_failed lines.source };

    fn pull(&mut self, buf: &mut [u8]) -> Result<usize, Failed> {
        let read = self.source.pull(buf)?;
        self.mask(&mut buf[..read]);
        Ok(read)
    }
}
