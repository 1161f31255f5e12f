//! An order, an overlook or a cycle as a picture.

ghost use Rattle.std.specs.Prelude.{◌≡◌, ◌++◌, OnOk, IfOk};
ghost use Rattle.long.specs.Answer.{IsWitness};
ghost use Rattle.drawing.specs.Drawing.{layout_of, nodes_text, drawing_text, IsDrawing};

use crate::bold::bold_edges;
use crate::drawn::{Drawn, Layout};
use crate::edge_lines::{put_bold, put_thin};
use crate::edges::Edge;
use crate::nodes::put_clusters;
use crate::ranks::{put_ranks, put_top};
use common::{EventId, OutOfMemory};
use event_texts::Names;
use long::LongAnswer;
use recording::Recording;
use std::alloc::Global;
use texts::put_text;

/// How the events of an answer stand.
fn layout_of(answer: &LongAnswer) -> Layout
    ensures { result ≡ layout_of answer.now }
{
    match answer {
        LongAnswer::Order(_) => Layout::Ranks,
        LongAnswer::Overlook(_, _) => Layout::Columns,
        LongAnswer::Cycle(_) => Layout::Columns,
    }
}

/// Adds the first lines, those of the nodes, and what puts them in their places.
fn put_picture_nodes(
    out: &mut Vec<u8>,
    drawn: &Drawn<'_>,
    layout: Layout,
    answer: &LongAnswer,
) -> Result<(), OutOfMemory>
    ensures { OnOk result (out.new.items ≡ out.old.items
        ++ nodes_text drawn.now.recording.now drawn.now.names.now drawn.now.numbers.now drawn.now.rest.now
        layout answer.now) }
{
    put_text(
        out,
        b"digraph recording {\n  node [shape=\"plaintext\"];\n  newrank=\"true\";\n  \
          top [shape=\"point\", style=\"invis\"];\n",
    )?;
    put_clusters(out, drawn, layout)?;
    put_top(out, drawn.recording, drawn.numbers, layout)?;
    put_ranks(out, drawn.recording, drawn.numbers, answer)
}

/// Adds a picture with these edges bold.
fn put_drawing(
    out: &mut Vec<u8>,
    drawn: &Drawn<'_>,
    answer: &LongAnswer,
    bold: &[Edge],
) -> Result<(), OutOfMemory>
    ensures { OnOk result (out.new.items ≡ out.old.items
        ++ drawing_text drawn.now.recording.now drawn.now.names.now drawn.now.numbers.now drawn.now.rest.now
        answer.now bold.now) }
{
    let layout = layout_of(answer);
    put_picture_nodes(out, drawn, layout, answer)?;
    put_thin(out, drawn, layout, bold)?;
    put_bold(out, drawn.numbers, layout, bold)?;
    put_text(out, b"}\n")
}

/// An order, an overlook or a cycle of `rest`, as a directed graph in the DOT language of Graphviz: event i of `rest`
/// is drawn as event `numbers[i]` of the recording, or event 0 where `numbers` ends before, and has these
/// names of its addresses. For a picture of the whole recording `rest` is the recording, and each number
/// stands at its own place.
///
/// Each core with a drawn event is a cluster with a node for each of these, and with one for the events
/// that are left out between two of them. The edges are those of program order (po), reads-from (rf),
/// coherence order (co) and from-read (fr; Nagarajan, Sorin, Hill and Wood, A Primer on Memory Consistency
/// and Cache Coherence, second edition, chapters 3 and 4). The edges of a cycle and of an overlook are
/// bold. An edge that is not bold goes to the next event of the core, from the write that was read, to the
/// next write of the address, or to the first write that is newer than what was read. The cores stand from
/// left to right, and the events of an order one below the other. An address past the last name is called by
/// the letter a and its number. Fails only if out of memory.
pub fn drawing_text(
    alloc: Global,
    recording: &Recording,
    names: &Names,
    numbers: &[EventId],
    rest: &Recording,
    answer: &LongAnswer,
) -> Result<Vec<u8>, OutOfMemory>
    requires { IsWitness rest.now answer.now }
    ensures { IfOk result (λ text.
        IsDrawing recording.now names.now numbers.now rest.now answer.now text.items) }
{
    let bold = bold_edges(alloc, rest, answer)?;
    let drawn = Drawn {
        recording,
        names,
        numbers,
        rest,
    };
    let mut out = Vec::new(alloc);
    put_drawing(&mut out, &drawn, answer, &bold)?;
    Ok(out)
}
