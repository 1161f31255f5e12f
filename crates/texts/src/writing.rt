//! Texts by `write!`, whose only error is that memory ran out.

ghost use Rattle.std.specs.Prelude.{◌≡◌, ◌++◌, ℕ, List, OnOk, IfSome};

use common::OutOfMemory;
use std::fmt;
use std::fmt::{Display, Formatter};

/// A text to which formats write.
#[derive(Drop)]
struct Text {
    bytes: Vec<u8>,
}

impl fmt::Write for Text {
    ghost write_str_gives = { λ s bs t. t.bytes.items ≡ s.bytes.items ++ bs };

    fn write_str(&mut self, s: &str) -> fmt::Result {
        match self.bytes.extend_from_slice(s.as_bytes()) {
            Ok(()) => Ok(()),
            Err(_) => Err(fmt::Error),
        }
    }
}

/// What a text is with what `{}` writes of a value after it.
fn write_value<D: Display + Drop>(bytes: Vec<u8>, value: D) -> (Vec<u8>, fmt::Result)
    ensures { OnOk result.1 (IfSome (D.output value) (λ bs. result.0.items ≡ bytes.items ++ bs)) }
{
    let mut f = Formatter::new(Text { bytes });
    let result = f.write(value);
    let Text { bytes } = f.into_inner();
    (bytes, result)
}

/// Adds what `{}` writes of a value. Fails only if out of memory.
pub fn put<D: Display + Drop>(out: &mut Vec<u8>, value: D) -> Result<(), OutOfMemory>
    ensures { OnOk result (IfSome (D.output value) (λ bs. out.new.items ≡ out.old.items ++ bs)) }
{
    let empty = Vec::new(*out.allocator());
    let (bytes, result) = write_value(std::mem::replace(out, empty), value);
    *out = bytes;
    match result {
        Ok(()) => Ok(()),
        Err(_) => Err(OutOfMemory),
    }
}

/// A text to which `write!` adds. Fails only if out of memory.
pub trait Grow {
    ghost bytes: { Self → List ℕ };

    fn write_fmt<D: Display + Drop>(&mut self, value: D) -> Result<(), OutOfMemory>
        ensures { OnOk result (IfSome (D.output value) (λ bs. Self.bytes self.new ≡ Self.bytes self.old ++ bs)) };
}

impl Grow for Vec<u8> {
    ghost bytes = { λ v. v.items };

    fn write_fmt<D: Display + Drop>(&mut self, value: D) -> Result<(), OutOfMemory> {
        put(self, value)
    }
}
