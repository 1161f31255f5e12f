//! Pieces of a text, numbers and their widths.

ghost use Rattle.std.specs.Prelude.{◌≡◌, ◌++◌, ◌-◌, ◌<◌, ◌≤◌, ◌^◌, OnOk, decimal};
ghost use Rattle.texts.specs.Numbers.{digits, aligned, spaces};

use common::OutOfMemory;
use itoa::Buffer;

/// Adds a text to a text. Fails only if out of memory.
pub fn put_text(out: &mut Vec<u8>, text: &[u8]) -> Result<(), OutOfMemory>
    ensures { OnOk result (out.new.items ≡ out.old.items ++ text.now) }
{
    out.extend_from_slice(text)?;
    Ok(())
}

/// How many digits a number has.
pub fn digits(number: usize) -> usize
    ensures { result ≡ digits number }
{
    let mut buffer = Buffer::new();
    buffer.format(number).as_bytes().len()
}

/// Adds a number to a text, in decimal. Fails only if out of memory.
pub fn put_number(out: &mut Vec<u8>, number: usize) -> Result<(), OutOfMemory>
    ensures { OnOk result (out.new.items ≡ out.old.items ++ decimal number) }
{
    let mut buffer = Buffer::new();
    put_text(out, buffer.format(number).as_bytes())
}

/// Adds a text and a number after it. Fails only if out of memory.
pub fn put_text_and_number(out: &mut Vec<u8>, text: &[u8], number: usize) -> Result<(), OutOfMemory>
    ensures { OnOk result (out.new.items ≡ out.old.items ++ (text.now ++ decimal number)) }
{
    put_text(out, text)?;
    put_number(out, number)
}

/// Adds this many spaces. Fails only if out of memory.
pub fn put_spaces(out: &mut Vec<u8>, count: usize) -> Result<(), OutOfMemory>
    ensures { OnOk result (out.new.items ≡ out.old.items ++ spaces count) }
{
    for _i in 0..count {
        out.push(b' ')?;
    }
    Ok(())
}

/// Adds a number with spaces before it, up to a width. Fails only if out of memory.
pub fn put_aligned(out: &mut Vec<u8>, width: usize, number: usize) -> Result<(), OutOfMemory>
    ensures { OnOk result (out.new.items ≡ out.old.items ++ aligned width number) }
{
    put_spaces(out, width.saturating_sub(digits(number)))?;
    put_number(out, number)
}
