//! What addresses are called, for `write!`.

use crate::names::Names;
use common::Addr;
use std::marker::Model;
use std::{fmt, str};

/// What an address is called; of no address nothing. It prints itself, and fails where a name is no text, as none is.
#[derive(Drop)]
pub struct AddressName<'a> {
    names: &'a Names,
    address: Option<Addr>,
}

impl<'a> Model for AddressName<'a> {
    ghost use Rattle.std.specs.Prelude.{List, ℕ};
    ghost use Rattle.event_texts.specs.Events.{written_text};

    ghost Value = { List ℕ };

    ghost view = { λ name. written_text name.names.now name.address };
}

impl<'a> fmt::Display for AddressName<'a> {
    ghost use Rattle.std.specs.Prelude.{Some};

    ghost output = { λ name. Some name };

    fn fmt<W: fmt::Write>(&self, f: &mut fmt::Formatter<W>) -> fmt::Result {
        let Some(address) = self.address else {
            return Ok(());
        };
        let Some(name) = self.names.name(address) else {
            return write!(f, "a{address}");
        };
        match str::from_utf8(name.text()) {
            Ok(text) => f.write_str(text),
            Err(_) => Err(fmt::Error),
        }
    }
}

impl Names {
    ghost use Rattle.std.specs.Prelude.{◌≡◌};
    ghost use Rattle.event_texts.specs.Events.{address_text, written_text};

    /// What an address is called: by its name, past the last name by the letter a and its number.
    pub fn address(&self, address: Addr) -> AddressName<'_>
        ensures { result ≡ address_text self.now address }
    {
        AddressName {
            names: self,
            address: Some(address),
        }
    }

    /// What the address is called that an event writes.
    pub fn written_name(&self, address: Option<Addr>) -> AddressName<'_>
        ensures { result ≡ written_text self.now address }
    {
        AddressName {
            names: self,
            address,
        }
    }
}
