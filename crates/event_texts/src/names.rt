//! What the addresses and the events of a recording are called.

use crate::labels::Labels;
use common::{Addr, EventId};
use program::Name;
use std::marker::Model;

/// The names of the addresses of a recording, and the labels of its events. An address past the last name is called by
/// the letter a and its number.
#[derive(Drop)]
pub struct Names {
    addresses: Vec<Name>,
    labels: Labels,
}

impl Model for Names {
    ghost use Rattle.event_texts.specs.Names as spec;

    ghost Value = { spec.Names };

    ghost view = { λ n. record { addresses = n.addresses.items; labels = n.labels } };
}

impl Names {
    ghost use Rattle.std.specs.Prelude.{◌≡◌, option_copied, slice_get};
    ghost use Rattle.event_texts.specs.Names.{label_of};

    /// These names of addresses, in their order, and these labels.
    pub fn new(addresses: Vec<Name>, labels: Labels) -> Names
        ensures addresses { result.addresses ≡ addresses.items }
        ensures labels { result.labels ≡ labels }
    {
        Names { addresses, labels }
    }

    /// The name of an address; none past the last.
    pub(crate) fn name(&self, address: Addr) -> Option<&Name>
        ensures { option_copied result ≡ slice_get self.now.addresses address }
    {
        self.addresses.get(address as usize)
    }

    /// The label of an event; empty where it has none.
    pub fn label(&self, number: EventId) -> &[u8]
        ensures { result.now ≡ label_of self.now number }
    {
        self.labels.label(number)
    }
}
