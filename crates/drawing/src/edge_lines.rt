//! The lines of edges.

ghost use Rattle.std.specs.Prelude.{◌≡◌, ◌++◌, OnOk};
ghost use Rattle.std.specs.List.{flat_map};
ghost use Rattle.recording.specs.Execution.{event_count};
ghost use Rattle.drawing.specs.Drawing.{look_text, style_text, free_text, edge_line, thin_line};
ghost use Rattle.drawing.specs.Drawing.{po_lines, thin_lines};
ghost use Rattle.drawing.specs.declared.drawn.Weight.TheVariants.{Bold};
ghost use Rattle.texts.specs.Below.{texts_below};

use crate::drawn::{Drawn, Layout, Weight};
use crate::edges::{Edge, co_edge, fr_edge, is_drawn, po_edge, rf_edge};
use crate::gaps::{is_gap, number_at, put_gap_edges};
use common::{EventId, OutOfMemory};
use relations::Reason;
use texts::Grow;

/// The name and the colour of an edge.
fn look(reason: Reason) -> &'static str
    ensures { result.now ≡ look_text reason }
{
    match reason {
        Reason::Po => " [xlabel=\"po\", color=\"black\", fontcolor=\"black\"",
        Reason::Wo => " [xlabel=\"co\", color=\"blue\", fontcolor=\"blue\"",
        Reason::Rf => " [xlabel=\"rf\", color=\"red\", fontcolor=\"red\"",
        Reason::Fr => " [xlabel=\"fr\", color=\"#ffa040\", fontcolor=\"#ffa040\"",
    }
}

/// How thick an edge is.
fn style(weight: Weight) -> &'static str
    ensures { result.now ≡ style_text weight }
{
    match weight {
        Weight::Bold => ", style=\"bold\"",
        Weight::Thin => "",
    }
}

/// That an edge puts no event above another.
fn free(layout: Layout, reason: Reason) -> &'static str
    ensures { result.now ≡ free_text layout reason }
{
    match (layout, reason) {
        (Layout::Columns, Reason::Po) => "",
        _ => ", constraint=\"false\"",
    }
}

/// Adds the line of an edge.
#[tactic(auto, unfolding(crate::specs::Drawing::edge_line))]
fn put_edge_line(
    out: &mut Vec<u8>,
    numbers: &[EventId],
    layout: Layout,
    weight: Weight,
    edge: Edge,
) -> Result<(), OutOfMemory>
    ensures { OnOk result (out.new.items ≡ out.old.items ++ edge_line numbers.now layout weight edge) }
{
    let first = number_at(numbers, edge.first);
    let second = number_at(numbers, edge.second);
    let (look, style, free) = (look(edge.reason), style(weight), free(layout, edge.reason));
    write!(out, "  e{first} -> e{second}{look}{style}{free}];\n")
}

/// Adds the line of an edge that is not drawn bold.
#[tactic(auto, unfolding(crate::specs::Drawing::thin_line))]
fn put_thin_line(
    out: &mut Vec<u8>,
    numbers: &[EventId],
    layout: Layout,
    bold: &[Edge],
    edge: Option<Edge>,
) -> Result<(), OutOfMemory>
    ensures { OnOk result (out.new.items ≡ out.old.items ++ thin_line numbers.now layout bold.now edge) }
{
    let Some(edge) = edge else {
        return Ok(());
    };
    if is_drawn(bold, edge) {
        Ok(())
    } else {
        put_edge_line(out, numbers, layout, Weight::Thin, edge)
    }
}

/// Adds the lines of an edge of program order: over what is left out between its ends, or else its own.
#[tactic(auto, unfolding(crate::specs::Drawing::po_lines))]
fn put_po_lines(
    out: &mut Vec<u8>,
    numbers: &[EventId],
    layout: Layout,
    bold: &[Edge],
    edge: Option<Edge>,
) -> Result<(), OutOfMemory>
    ensures { OnOk result (out.new.items ≡ out.old.items ++ po_lines numbers.now layout bold.now edge) }
{
    let Some(edge) = edge else {
        return Ok(());
    };
    if is_gap(numbers, edge) {
        put_gap_edges(
            out,
            number_at(numbers, edge.first),
            number_at(numbers, edge.second),
        )
    } else {
        put_thin_line(out, numbers, layout, bold, Some(edge))
    }
}

/// Adds the lines of the edges of an event that are not drawn bold.
fn put_thin_lines(
    out: &mut Vec<u8>,
    drawn: &Drawn<'_>,
    layout: Layout,
    bold: &[Edge],
    event: EventId,
) -> Result<(), OutOfMemory>
    ensures { OnOk result (out.new.items ≡ out.old.items
        ++ thin_lines drawn.now.rest.now drawn.now.numbers.now layout bold.now event) }
{
    let Drawn { numbers, rest, .. } = *drawn;
    put_po_lines(out, numbers, layout, bold, po_edge(rest, event))?;
    put_thin_line(out, numbers, layout, bold, rf_edge(rest, event))?;
    put_thin_line(out, numbers, layout, bold, co_edge(rest, event))?;
    put_thin_line(out, numbers, layout, bold, fr_edge(rest, event))
}

/// Adds the lines of all edges that are not drawn bold.
pub(crate) fn put_thin(
    out: &mut Vec<u8>,
    drawn: &Drawn<'_>,
    layout: Layout,
    bold: &[Edge],
) -> Result<(), OutOfMemory>
    ensures { OnOk result (out.new.items ≡ out.old.items
        ++ texts_below (thin_lines drawn.now.rest.now drawn.now.numbers.now layout bold.now)
        (event_count drawn.now.rest.now)) }
{
    drawn.rest.sound();
    for event in 0..drawn.rest.len() as EventId {
        put_thin_lines(out, drawn, layout, bold, event)?;
    }
    Ok(())
}

/// Adds the lines of the edges that are drawn bold.
pub(crate) fn put_bold(
    out: &mut Vec<u8>,
    numbers: &[EventId],
    layout: Layout,
    bold: &[Edge],
) -> Result<(), OutOfMemory>
    ensures { OnOk result (out.new.items ≡ out.old.items
        ++ flat_map (edge_line numbers.now layout Bold) bold.now) }
{
    for edge in bold {
        put_edge_line(out, numbers, layout, Weight::Bold, *edge)?;
    }
    Ok(())
}
