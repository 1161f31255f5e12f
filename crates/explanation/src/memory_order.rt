//! A memory order in words.

use crate::named::Named;
use crate::placed::{PlacedOrder, place_in_list, write_at};
use common::{Addr, EventId, OutOfMemory};
use event_texts::{event_of, put_indent, put_line};
use recording::Event;
use relations::Places;
use std::alloc::Global;
use texts::{Grow, put_text};

impl<'a> Named<'a> {
    ghost use Rattle.std.specs.Prelude.{◌≡◌, ◌++◌, OnOk};
    ghost use Rattle.explanation.specs.Order.{read_line, write_line, lawful_lines, placed_lines, order_text};

    /// Adds the line that says why an event reads its value of an address.
    #[tactic(auto, unfolding(crate::specs::Order::source_words))]
    fn put_read_line(
        &self,
        out: &mut Vec<u8>,
        order: &PlacedOrder<'_>,
        number: EventId,
        address: Addr,
        source: Option<EventId>,
    ) -> Result<(), OutOfMemory>
        ensures { OnOk result (out.new.items ≡ out.old.items
            ++ read_line self.now.recording.now self.now.names.now order.now number address source) }
    {
        put_indent(out, self.recording)?;
        let address = self.names.address(address);
        let Some(source) = source else {
            return write!(out, "no write of {address} is before it\n");
        };
        if order.place(source) < order.place(number) {
            return write!(out, "{source} is the last write of {address} before it\n");
        }
        write!(
            out,
            "forwarded from its core's store buffer, which {source} leaves later\n"
        )
    }

    /// Adds the line that says where an event stands among the writes of an address.
    #[tactic(auto, unfolding(crate::specs::Order::write_words))]
    fn put_write_line(
        &self,
        out: &mut Vec<u8>,
        places: &Places<'_>,
        number: EventId,
        address: Addr,
    ) -> Result<(), OutOfMemory>
        requires { places.now ≡ self.now.recording.now }
        ensures { OnOk result (out.new.items ≡ out.old.items
            ++ write_line self.now.recording.now self.now.names.now number address) }
    {
        put_indent(out, self.recording)?;
        let at = place_in_list(places, address, number);
        let name = self.names.address(address);
        if at == 0 {
            return write!(out, "the first write of {name}\n");
        }
        let earlier = write_at(places, address, at - 1);
        write!(out, "the next write of {name} after {earlier}\n")
    }

    /// Adds the lines that say what makes the place of an event lawful.
    #[tactic(auto, unfolding(crate::specs::Order::lawful_lines))]
    fn put_lawful(
        &self,
        out: &mut Vec<u8>,
        places: &Places<'_>,
        order: &PlacedOrder<'_>,
        number: EventId,
        event: Event,
    ) -> Result<(), OutOfMemory>
        requires { places.now ≡ self.now.recording.now }
        ensures { OnOk result (out.new.items ≡ out.old.items
            ++ lawful_lines self.now.recording.now self.now.names.now order.now number event) }
    {
        match event {
            Event::L { a, s, .. } => self.put_read_line(out, order, number, a, s),
            Event::S { a, .. } => self.put_write_line(out, places, number, a),
            Event::R { a, s, .. } => {
                self.put_read_line(out, order, number, a, s)?;
                self.put_write_line(out, places, number, a)
            }
            Event::C { a, s, .. } => self.put_read_line(out, order, number, a, s),
            Event::F => {
                put_indent(out, self.recording)?;
                put_text(out, b"after what its core did before it\n")
            }
        }
    }

    /// Adds the lines of an event.
    fn put_placed(
        &self,
        out: &mut Vec<u8>,
        places: &Places<'_>,
        order: &PlacedOrder<'_>,
        number: EventId,
    ) -> Result<(), OutOfMemory>
        requires { places.now ≡ self.now.recording.now }
        ensures { OnOk result (out.new.items ≡ out.old.items
            ++ placed_lines self.now.recording.now self.now.names.now order.now number) }
    {
        put_line(out, self.recording, self.names, number)?;
        let (_, event) = event_of(self.recording, number);
        self.put_lawful(out, places, order, number, event)
    }

    /// Adds a memory order in words.
    pub(crate) fn put_order(
        &self,
        out: &mut Vec<u8>,
        alloc: Global,
        order: &[EventId],
    ) -> Result<(), OutOfMemory>
        ensures { OnOk result (out.new.items ≡ out.old.items
            ++ order_text self.now.recording.now self.now.names.now order.now) }
    {
        put_text(
            out,
            b"TSO allows this recording. Its events in memory order:\n",
        )?;
        let places = Places::of(alloc, self.recording)?;
        let placed = PlacedOrder::of(alloc, order, places.len())?;
        for number in order {
            self.put_placed(out, &places, &placed, *number)?;
        }
        Ok(())
    }
}
