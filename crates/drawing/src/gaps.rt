//! What a picture leaves out between two events of a core.

ghost use Rattle.std.specs.Prelude.{◌≡◌, ◌++◌, OnOk, slice_index};
ghost use Rattle.drawing.specs.Gaps.{is_gap, gap_text, gap_start, gap_end};

use crate::edges::Edge;
use common::{EventId, OutOfMemory};
use texts::Grow;

/// The number at a place of a list; 0 past the last.
pub(crate) fn number_at(numbers: &[EventId], at: EventId) -> EventId
    ensures { result ≡ slice_index numbers.now at }
{
    numbers.get(at as usize).copied().unwrap_or(0)
}

/// Whether the numbers of the ends of an edge have others between them.
pub(crate) fn is_gap(numbers: &[EventId], edge: Edge) -> bool
    ensures { result ≡ is_gap numbers.now edge }
{
    let first = number_at(numbers, edge.first) as usize;
    let second = number_at(numbers, edge.second) as usize;
    first + 1 < second
}

/// Adds the line of the events that are left out between the ends of an edge of program order.
#[tactic(auto, unfolding(crate::specs::Gaps::gap_text))]
pub(crate) fn put_gap_text(
    out: &mut Vec<u8>,
    numbers: &[EventId],
    edge: Option<Edge>,
) -> Result<(), OutOfMemory>
    ensures { OnOk result (out.new.items ≡ out.old.items ++ gap_text numbers.now edge) }
{
    let Some(edge) = edge else {
        return Ok(());
    };
    if !is_gap(numbers, edge) {
        return Ok(());
    }
    let first = number_at(numbers, edge.first);
    let second = number_at(numbers, edge.second);
    let count = second.saturating_sub(first).saturating_sub(1);
    write!(out, "    g{second} [label=\"{count} left out\"];\n")
}

/// Adds the lines over what is left out between two events.
pub(crate) fn put_gap_edges(
    out: &mut Vec<u8>,
    first: EventId,
    second: EventId,
) -> Result<(), OutOfMemory>
    ensures { OnOk result (out.new.items ≡ out.old.items ++ (gap_start first second ++ gap_end second)) }
{
    write!(
        out,
        "  e{first} -> g{second} [style=\"dotted\", arrowhead=\"none\"];\n"
    )?;
    write!(
        out,
        "  g{second} -> e{second} [style=\"dotted\", arrowhead=\"none\"];\n"
    )
}
