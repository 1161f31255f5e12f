//! A cycle in words.

use crate::diy::put_diy;
use crate::named::Named;
use common::{EventId, OutOfMemory};
use event_texts::{put_indent, put_line};
use relations::{Places, Reason, next_in_cycle};
use std::alloc::Global;
use texts::Grow;

impl<'a> Named<'a> {
    ghost use Rattle.std.specs.Prelude.{◌≡◌, ◌++◌, ℕ, List, OnOk, Some, length};
    ghost use Rattle.relations.specs.Cycle.{IsCycle};
    ghost use Rattle.relations.specs.Forced.{Forced, IsReason};
    ghost use Rattle.explanation.specs.Cycle.{reason_line, IsLink, AreLinks, SaysCycle};

    /// Adds the line that says why an event comes before another.
    #[tactic(auto, unfolding(crate::specs::Cycle::reason_line))]
    fn put_reason_line(
        &self,
        out: &mut Vec<u8>,
        second: EventId,
        reason: Reason,
    ) -> Result<(), OutOfMemory>
        ensures { OnOk result (out.new.items ≡ out.old.items
            ++ reason_line self.now.recording.now self.now.names.now second reason) }
    {
        put_indent(out, self.recording)?;
        let address = self
            .names
            .written_name(self.recording.written_address(second));
        match reason {
            Reason::Po => write!(out, "before {second} in program order\n"),
            Reason::Wo => write!(out, "before {second} in the write list of {address}\n"),
            Reason::Rf => write!(out, "before {second}, which read it\n"),
            Reason::Fr => write!(
                out,
                "before {second}, which wrote a newer value of {address}\n"
            ),
        }
    }

    /// Adds the lines of an event that comes before another for this reason.
    fn put_link(
        &self,
        out: &mut Vec<u8>,
        first: EventId,
        second: EventId,
        reason: Reason,
    ) -> Result<(), OutOfMemory>
        requires { IsReason self.now.recording.now first second (Some reason) }
        ensures { OnOk result ((link : List ℕ)
            × IsLink self.now.recording.now self.now.names.now first second link
            × (out.new.items ≡ out.old.items ++ link)) }
    {
        put_line(out, self.recording, self.names, first)?;
        self.put_reason_line(out, second, reason)
    }

    /// Adds the lines of each event of a cycle.
    fn put_links(
        &self,
        out: &mut Vec<u8>,
        places: &Places<'_>,
        cycle: &[EventId],
    ) -> Result<(), OutOfMemory>
        requires places { places.now ≡ self.now.recording.now }
        requires cycle { IsCycle (Forced self.now.recording.now) cycle.now }
        ensures { OnOk result ((links : List ℕ)
            × AreLinks self.now.recording.now self.now.names.now cycle.now (length cycle.now) links
            × (out.new.items ≡ out.old.items ++ links)) }
    {
        for i in 0..cycle.len() {
            let (first, second) = (cycle[i], next_in_cycle(cycle, i));
            let reason = places.forced_reason(first, second);
            self.put_link(out, first, second, reason)?;
        }
        Ok(())
    }

    /// Adds a cycle in words.
    pub(crate) fn put_cycle(
        &self,
        out: &mut Vec<u8>,
        alloc: Global,
        cycle: &[EventId],
    ) -> Result<(), OutOfMemory>
        requires { IsCycle (Forced self.now.recording.now) cycle.now }
        ensures { OnOk result ((text : List ℕ)
            × SaysCycle self.now.recording.now self.now.names.now cycle.now text
            × (out.new.items ≡ out.old.items ++ text)) }
    {
        let count = cycle.len();
        write!(
            out,
            "No memory order explains this recording: these {count} events would each come before the next.\n"
        )?;
        let places = Places::of(alloc, self.recording)?;
        self.put_links(out, &places, cycle)?;
        put_diy(out, alloc, self.recording, &places, cycle)
    }
}
