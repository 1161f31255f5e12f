//! A sink that notes how its text begins.

use crate::bytes::{Failed, Sink};
use std::alloc::Global;

/// How many bytes of a text are noted.
const NOTED: usize = 65_536;

/// A sink, and the first 65,536 bytes of the text of the first `push` that did not fail, also where only a part of it
/// was taken; no byte where there is no memory.
#[derive(Drop)]
pub struct Noted<T> {
    inner: T,
    first: Vec<u8>,
}

impl<T> Noted<T> {
    ghost use Rattle.std.specs.Prelude.{◌≡◌};

    /// A sink that took nothing yet.
    pub fn new(alloc: Global, inner: T) -> Noted<T>
        ensures { result.inner ≡ inner }
    {
        Noted {
            inner,
            first: Vec::new(alloc),
        }
    }

    /// How the text begins that it was given first.
    pub fn first(&self) -> &[u8] {
        &self.first
    }
}

impl<T: Sink> Sink for Noted<T> {
    ghost written = { λ n. T.written n.inner };

    ghost write_failed = { λ n. T.write_failed n.inner };

    fn push(&mut self, text: &[u8]) -> Result<usize, Failed> {
        let n = self.inner.push(text)?;
        if self.first.is_empty() {
            let _ = self.first.extend_from_slice(&text[..text.len().min(NOTED)]);
        }
        Ok(n)
    }

    fn flush(&mut self) -> Result<(), Failed> {
        self.inner.flush()
    }
}
