//! Lines.

ghost use Rattle.std.specs.Prelude.{◌≡◌, ◌≢◌, ◌≤◌, ◌<◌, ◌++◌, ℕ, [], ◌∷◌, IfOk, OnOk};
ghost use Rattle.std.specs.Prelude.{filter, length, map};
ghost use Rattle.surveys.specs.Lines.{IsCut, IsSplit, is_some_line};

use common::OutOfMemory;
use memchr::memchr;
use std::alloc::Global;

/// The first line, and what comes after its end; without an end, all is the line.
pub(crate) fn split_line<'a>(bytes: &'a [u8]) -> (&'a [u8], &'a [u8])
    requires { 0 < length bytes.now }
    ensures { IsSplit bytes.now result.0.now result.1.now }
{
    match memchr(b'\n', bytes) {
        Some(end) => (&bytes[..end], &bytes[end + 1..]),
        None => (bytes, &[]),
    }
}
