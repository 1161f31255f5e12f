//! The text of a circle of events.

ghost use Rattle.std.specs.Prelude.{◌≡◌, ◌++◌, OnOk, decimal};
ghost use Rattle.std.specs.List.{flat_map};
ghost use Rattle.program_answers.specs.Circles.{cause_text, circle_text, from_read_text, link_line, two_numbers_text};

use common::OutOfMemory;
use completion::{Cause, Link};
use texts::{put_number, put_text, put_text_and_number};

/// Adds a text and two numbers after it.
fn put_two_numbers(
    out: &mut Vec<u8>,
    text: &[u8],
    first: usize,
    second: usize,
) -> Result<(), OutOfMemory>
    ensures { OnOk result (out.new.items ≡ out.old.items ++ two_numbers_text text.now first second) }
{
    put_text_and_number(out, text, first)?;
    put_text_and_number(out, b" ", second)
}

/// Adds the cause of a from-read by the source of the read.
fn put_from_read(out: &mut Vec<u8>, source: Option<usize>, second: usize) -> Result<(), OutOfMemory>
    ensures { OnOk result (out.new.items ≡ out.old.items ++ from_read_text source second) }
{
    match source {
        Some(write) => put_two_numbers(out, b"Fr ", write, second),
        None => put_text(out, b"Fr"),
    }
}

/// Adds the cause of a link.
fn put_cause(out: &mut Vec<u8>, link: Link) -> Result<(), OutOfMemory>
    ensures { OnOk result (out.new.items ≡ out.old.items ++ cause_text link) }
{
    match link.cause {
        Cause::Po => put_text(out, b"Po"),
        Cause::Rf => put_text(out, b"Rf"),
        Cause::Wo(read) => put_two_numbers(out, b"Wo ", link.first, read),
        Cause::Fr(source) => put_from_read(out, source, link.second),
    }
}

/// Adds the line of a link.
fn put_link(out: &mut Vec<u8>, link: Link) -> Result<(), OutOfMemory>
    ensures { OnOk result (out.new.items ≡ out.old.items ++ link_line link) }
{
    put_number(out, link.first)?;
    put_text_and_number(out, b" -> ", link.second)?;
    put_text(out, b" ")?;
    put_cause(out, link)?;
    put_text(out, b"\n")
}

/// Adds the lines of a circle. Fails only if out of memory.
pub(crate) fn put_circle(out: &mut Vec<u8>, circle: &[Link]) -> Result<(), OutOfMemory>
    ensures { OnOk result (out.new.items ≡ out.old.items ++ circle_text circle.now) }
{
    for link in circle {
        put_link(out, *link)?;
    }
    Ok(())
}
