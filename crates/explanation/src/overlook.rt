//! An overlook in words.

use crate::diy::put_overlook_line;
use crate::named::Named;
use common::{Addr, EventId, OutOfMemory};
use event_texts::{event_of, put_indent, put_line};
use texts::Grow;

impl<'a> Named<'a> {
    ghost use Rattle.std.specs.Prelude.{◌≡◌, ◌++◌, OnOk};
    ghost use Rattle.event_texts.specs.Events.{written_text};
    ghost use Rattle.explanation.specs.Overlook.{store_line, instead_lines, overlook_text};

    /// Adds the lines that say what was read instead of a store to this address.
    fn put_instead(
        &self,
        out: &mut Vec<u8>,
        address: Option<Addr>,
        source: Option<EventId>,
    ) -> Result<(), OutOfMemory>
        ensures { OnOk result (out.new.items ≡ out.old.items ++ instead_lines self.now.recording.now
            self.now.names.now (written_text self.now.names.now address) source) }
    {
        put_indent(out, self.recording)?;
        let address = self.names.written_name(address);
        let Some(source) = source else {
            return write!(
                out,
                "the initial value is older than each write of {address}\n"
            );
        };
        write!(
            out,
            "read it from {source}, which is older in the write list of {address}\n"
        )?;
        put_line(out, self.recording, self.names, source)
    }

    /// Adds the line that says that the store is before the load.
    fn put_store_line(&self, out: &mut Vec<u8>, load: EventId) -> Result<(), OutOfMemory>
        ensures { OnOk result (out.new.items ≡ out.old.items ++ store_line self.now.recording.now load) }
    {
        put_indent(out, self.recording)?;
        write!(out, "before {load} in program order\n")
    }

    /// Adds an overlook in words.
    pub(crate) fn put_overlook(
        &self,
        out: &mut Vec<u8>,
        load: EventId,
        store: EventId,
    ) -> Result<(), OutOfMemory>
        ensures { OnOk result (out.new.items ≡ out.old.items
            ++ overlook_text self.now.recording.now self.now.names.now load store) }
    {
        write!(
            out,
            "No memory order explains this recording: event {load} overlooks event {store}, \
             a newer write of its own core.\n"
        )?;
        put_line(out, self.recording, self.names, store)?;
        self.put_store_line(out, load)?;
        put_line(out, self.recording, self.names, load)?;
        let address = self.recording.written_address(store);
        self.put_instead(out, address, self.recording.source(load))?;
        let (_, read) = event_of(self.recording, load);
        let (_, written) = event_of(self.recording, store);
        put_overlook_line(out, &read, &written)
    }
}
