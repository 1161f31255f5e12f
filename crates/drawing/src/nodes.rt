//! The events of a picture, a cluster for each core that has a drawn event.

ghost use Rattle.std.specs.Prelude.{◌≡◌, ◌++◌, ◌<◌, OnOk, length};
ghost use Rattle.std.specs.List.{flat_map};
ghost use Rattle.recording.specs.Execution.{event_count};
ghost use Rattle.texts.specs.Below.{texts_below};
ghost use Rattle.drawing.specs.Nodes.{escaped, first_on_core, node_label, node_line};
ghost use Rattle.drawing.specs.Nodes.{node_of_core, head_line, cluster_text};

use crate::drawn::{Drawn, Layout};
use crate::edges::po_edge;
use crate::gaps::{number_at, put_gap_text};
use common::{EventId, OutOfMemory};
use event_texts::{Names, event_of, put_event};
use recording::{Event, Recording};
use texts::{Grow, put_text};

/// The first of the numbers that is an event of a core.
pub(crate) fn first_on_core(
    recording: &Recording,
    numbers: &[EventId],
    core: usize,
) -> Option<EventId>
    ensures { result ≡ first_on_core recording.now numbers.now core }
{
    numbers
        .iter()
        .copied()
        .find(|number| event_of(recording, *number).0 as usize == core)
}

/// Adds a byte of a label, as a string of DOT has it.
fn put_escaped(out: &mut Vec<u8>, byte: u8) -> Result<(), OutOfMemory>
    ensures { OnOk result (out.new.items ≡ out.old.items ++ escaped byte) }
{
    if byte == b'"' {
        return put_text(out, b"\\\"");
    }
    if byte == b'\\' {
        return put_text(out, b"\\\\");
    }
    if byte == b'&' {
        return put_text(out, b"&amp;");
    }
    put_text(out, &[byte])
}

/// Adds a label, as a string of DOT has it.
fn put_escaped_label(out: &mut Vec<u8>, label: &[u8]) -> Result<(), OutOfMemory>
    ensures { OnOk result (out.new.items ≡ out.old.items ++ flat_map escaped label.now) }
{
    for byte in label {
        put_escaped(out, *byte)?;
    }
    Ok(())
}

/// Adds a label as a line of its node.
#[tactic(auto, unfolding(crate::specs::Nodes::node_label))]
fn put_node_label(out: &mut Vec<u8>, label: &[u8]) -> Result<(), OutOfMemory>
    ensures { OnOk result (out.new.items ≡ out.old.items ++ node_label label.now) }
{
    if label.is_empty() {
        return Ok(());
    }
    put_text(out, b"\\n")?;
    put_escaped_label(out, label)
}

/// Adds the line of an event.
fn put_node(
    out: &mut Vec<u8>,
    names: &Names,
    number: EventId,
    event: &Event,
) -> Result<(), OutOfMemory>
    ensures { OnOk result (out.new.items ≡ out.old.items ++ node_line names.now number event.now) }
{
    write!(out, "    e{number} [label=\"{number}: ")?;
    put_event(out, names, event)?;
    put_node_label(out, names.label(number))?;
    put_text(out, b"\"];\n")
}

/// Adds the line of an event of the rest that is one of this core, and of what is left out after it.
#[tactic(auto, unfolding(crate::specs::Nodes::node_of_core))]
fn put_node_of_core(
    out: &mut Vec<u8>,
    drawn: &Drawn<'_>,
    core: usize,
    i: EventId,
) -> Result<(), OutOfMemory>
    ensures { OnOk result (out.new.items ≡ out.old.items
        ++ node_of_core drawn.now.recording.now drawn.now.names.now drawn.now.numbers.now drawn.now.rest.now
        core i) }
{
    let number = number_at(drawn.numbers, i);
    let (own, event) = event_of(drawn.recording, number);
    if own as usize != core {
        return Ok(());
    }
    put_node(out, drawn.names, number, &event)?;
    put_gap_text(out, drawn.numbers, po_edge(drawn.rest, i))
}

/// Adds the lines of the events of a core.
fn put_nodes(out: &mut Vec<u8>, drawn: &Drawn<'_>, core: usize) -> Result<(), OutOfMemory>
    ensures { OnOk result (out.new.items ≡ out.old.items
        ++ texts_below (node_of_core drawn.now.recording.now drawn.now.names.now drawn.now.numbers.now
        drawn.now.rest.now core)
        (event_count drawn.now.rest.now)) }
{
    drawn.rest.sound();
    for i in 0..drawn.rest.len() as EventId {
        put_node_of_core(out, drawn, core, i)?;
    }
    Ok(())
}

/// Adds the invisible node above the events of a core, in a picture of a memory order.
fn put_head(out: &mut Vec<u8>, layout: Layout, core: usize) -> Result<(), OutOfMemory>
    ensures { OnOk result (out.new.items ≡ out.old.items ++ head_line layout core) }
{
    match layout {
        Layout::Ranks => write!(out, "    h{core} [shape=\"point\", style=\"invis\"];\n"),
        Layout::Columns => Ok(()),
    }
}

/// Adds the lines of a core, if it has a drawn event.
#[tactic(auto, unfolding(crate::specs::Nodes::cluster_text))]
fn put_cluster(
    out: &mut Vec<u8>,
    drawn: &Drawn<'_>,
    layout: Layout,
    core: usize,
) -> Result<(), OutOfMemory>
    ensures { OnOk result (out.new.items ≡ out.old.items
        ++ cluster_text drawn.now.recording.now drawn.now.names.now drawn.now.numbers.now drawn.now.rest.now
        layout core) }
{
    if first_on_core(drawn.recording, drawn.numbers, core).is_none() {
        return Ok(());
    }
    write!(
        out,
        "  subgraph cluster_{core} {{\n    label=\"core {core}\";\n"
    )?;
    put_head(out, layout, core)?;
    put_nodes(out, drawn, core)?;
    put_text(out, b"  }\n")
}

/// Adds the lines of each core that has a drawn event.
pub(crate) fn put_clusters(
    out: &mut Vec<u8>,
    drawn: &Drawn<'_>,
    layout: Layout,
) -> Result<(), OutOfMemory>
    ensures { OnOk result (out.new.items ≡ out.old.items
        ++ texts_below (cluster_text drawn.now.recording.now drawn.now.names.now drawn.now.numbers.now
        drawn.now.rest.now layout)
        (length drawn.now.recording.now.cores)) }
{
    for core in 0..drawn.recording.cores().len() {
        put_cluster(out, drawn, layout, core)?;
    }
    Ok(())
}
