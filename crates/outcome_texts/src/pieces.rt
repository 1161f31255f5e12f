//! Pieces of a line.

ghost use Rattle.std.specs.Prelude.{◌≡◌, OnOk};
ghost use Rattle.outcome_texts.specs.OutcomeText.{begun, with_read, with_value};

use common::OutOfMemory;
use program::Name;
use texts::{put_number, put_text, put_text_and_number};

/// Adds a space, unless the line is empty.
fn begin(line: &mut Vec<u8>) -> Result<(), OutOfMemory>
    ensures { OnOk result (line.new.items ≡ begun line.old.items) }
{
    if !line.is_empty() {
        line.push(b' ')?;
    }
    Ok(())
}

/// Adds what a reading operation of a core read.
pub(crate) fn put_read(
    line: &mut Vec<u8>,
    core: usize,
    operation: usize,
    value: usize,
) -> Result<(), OutOfMemory>
    ensures { OnOk result (line.new.items ≡ with_read line.old.items core operation value) }
{
    begin(line)?;
    put_number(line, core)?;
    put_text_and_number(line, b":r", operation)?;
    put_text_and_number(line, b"=", value)?;
    line.push(b';')?;
    Ok(())
}

/// Adds what an address ends with.
pub(crate) fn put_value(line: &mut Vec<u8>, name: Name, value: usize) -> Result<(), OutOfMemory>
    ensures { OnOk result (line.new.items ≡ with_value line.old.items name value) }
{
    begin(line)?;
    line.push(b'[')?;
    put_text(line, name.text())?;
    put_text_and_number(line, b"]=", value)?;
    line.push(b';')?;
    Ok(())
}
