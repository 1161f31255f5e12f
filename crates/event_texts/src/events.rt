//! What an event did.

ghost use Rattle.std.specs.Prelude.{◌≡◌, ◌++◌, ◌∷◌, OnOk, Some, codes, decimal};
ghost use Rattle.recording.specs.declared.event.Event.TheVariants.{L, S, R, C};
ghost use Rattle.event_texts.specs.Events.{address_text, source_text, read_text, event_text};

use crate::names::Names;
use common::{Addr, EventId, OutOfMemory};
use recording::Event;
use texts::{put_text, put_text_and_number};

/// Adds the name of an address; past the last name the letter a and its number.
fn put_address(out: &mut Vec<u8>, names: &Names, address: Addr) -> Result<(), OutOfMemory>
    ensures { OnOk result (out.new.items ≡ out.old.items ++ address_text names.now address) }
{
    match names.name(address) {
        Some(name) => put_text(out, name.text()),
        None => put_text_and_number(out, b"a", address as usize),
    }
}

/// Adds where a value came from.
fn put_source(out: &mut Vec<u8>, source: Option<EventId>) -> Result<(), OutOfMemory>
    ensures { OnOk result (out.new.items ≡ out.old.items ++ source_text source) }
{
    let Some(source) = source else {
        return put_text(out, b", the initial value");
    };
    put_text_and_number(out, b", from ", source as usize)
}

/// Adds an address that was read, the value, and where it came from.
fn put_read(
    out: &mut Vec<u8>,
    names: &Names,
    read: (Addr, u32, Option<EventId>),
) -> Result<(), OutOfMemory>
    ensures { OnOk result (out.new.items ≡ out.old.items ++ read_text names.now read.0 read.1 read.2) }
{
    let (address, value, source) = read;
    put_address(out, names, address)?;
    put_text_and_number(out, b" = ", value as usize)?;
    put_source(out, source)
}

/// Adds what an event did.
#[tactic(auto, unfolding(crate::specs::Events::event_text))]
pub fn put_event(out: &mut Vec<u8>, names: &Names, event: &Event) -> Result<(), OutOfMemory>
    ensures { OnOk result (out.new.items ≡ out.old.items ++ event_text names.now event.now) }
{
    match event {
        Event::L { a, r, s } => {
            put_text(out, b"ld ")?;
            put_read(out, names, (*a, *r, *s))
        }
        Event::S { a, w } => {
            put_text(out, b"st ")?;
            put_address(out, names, *a)?;
            put_text_and_number(out, b" ", *w as usize)
        }
        Event::R { a, r, s, w } => {
            put_text(out, b"rmw ")?;
            put_read(out, names, (*a, *r, *s))?;
            put_text_and_number(out, b", wrote ", *w as usize)
        }
        Event::C { a, r, s } => {
            put_text(out, b"cas ")?;
            put_read(out, names, (*a, *r, *s))?;
            put_text(out, b", wrote nothing")
        }
        Event::F => { put_text(out, b"fence") }
    }
}
