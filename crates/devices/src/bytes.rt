//! What gives and what takes bytes.

/// A read or a write failed.
#[derive(Clone, Copy, PartialEq, Eq)]
pub struct Failed;

/// What gives bytes, from the first to the last.
pub trait Source {
    ghost use Rattle.std.specs.Prelude.{ℕ, List, Option, Bool};
    ghost use Rattle.std.specs.Io.{ReadsAtMost};
    ghost use Rattle.std.specs.Io.KnownBytes.{ReadConsumes};
    ghost use Rattle.devices.specs.Bytes.{Fails, MeetsEnd};

    /// The bytes that are left, where they are known.
    ghost left: { Self → Option (List ℕ) };

    /// Whether the end was met.
    ghost is_ended: { Self → Bool };

    /// Whether a read failed.
    ghost read_failed: { Self → Bool };

    /// Reads bytes to the front of `buf` and answers how many; with room for one, none exactly at the end.
    /// An error loses no byte, and is noted.
    fn pull(&mut self, buf: &mut [u8]) -> Result<usize, Failed>
        ensures bound { ReadsAtMost result buf.new }
        ensures bytes { ReadConsumes (left self.old) (left self.new) result buf.new }
        ensures end { MeetsEnd (is_ended self.new) result buf.new }
        ensures failed { Fails (read_failed self.old) (read_failed self.new) result };
}

/// What takes bytes, one after the other.
pub trait Sink {
    ghost use Rattle.std.specs.Prelude.{ℕ, List, Option, Bool};
    ghost use Rattle.std.specs.Io.{WritesAtMost};
    ghost use Rattle.std.specs.Io.KnownBytes.{Keeps, WriteAppends};
    ghost use Rattle.devices.specs.Bytes.{Fails, TakesSome};

    /// The bytes that were written so far, where they are known.
    ghost written: { Self → Option (List ℕ) };

    /// Whether a write failed.
    ghost write_failed: { Self → Bool };

    /// Writes bytes from the front of `text` and answers how many: one at least, if there is one. An error
    /// adds no byte, and is noted.
    fn push(&mut self, text: &[u8]) -> Result<usize, Failed>
        ensures bound { WritesAtMost result text.now }
        ensures some { TakesSome result text.now }
        ensures bytes { WriteAppends (written self.old) (written self.new) result text.now }
        ensures failed { Fails (write_failed self.old) (write_failed self.new) result };

    /// Hands on what was written, where it was kept back; without a body of its own nothing was. A failure is
    /// noted, as that of `push`.
    fn flush(&mut self) -> Result<(), Failed>
        ensures kept { Keeps (written self.old) (written self.new) }
        ensures failed { Fails (write_failed self.old) (write_failed self.new) result }
    {
        Ok(())
    }
}
