//! What puts the nodes of a picture in their places.

ghost use Rattle.std.specs.Prelude.{◌≡◌, ◌++◌, ◌+◌, ◌<◌, ◌≤◌, OnOk, IfOk, length, if◌then◌else◌};
ghost use Rattle.texts.specs.Below.{texts_below};
ghost use Rattle.drawing.specs.Ranks.{top_node, top_of_core, top_line, number_in_order, is_on_core};
ghost use Rattle.drawing.specs.Ranks.{ranked_node, rank_line, rank_text, core_ranks, ranks_text};

use crate::drawn::Layout;
use crate::gaps::number_at;
use crate::nodes::first_on_core;
use common::{EventId, OutOfMemory};
use event_texts::event_of;
use long::LongAnswer;
use recording::Recording;
use texts::{put_text, put_text_and_number};

/// Adds the topmost node of a core whose first drawn event is this one.
fn put_top_node(
    out: &mut Vec<u8>,
    layout: Layout,
    core: usize,
    first: Option<EventId>,
) -> Result<(), OutOfMemory>
    ensures { OnOk result (out.new.items ≡ out.old.items ++ top_node layout core first) }
{
    let Some(first) = first else {
        return Ok(());
    };
    match layout {
        Layout::Ranks => put_text_and_number(out, b" h", core),
        Layout::Columns => put_text_and_number(out, b" e", first as usize),
    }
}

/// Adds the topmost node of each core that has a drawn event.
fn put_top_nodes(
    out: &mut Vec<u8>,
    recording: &Recording,
    numbers: &[EventId],
    layout: Layout,
) -> Result<(), OutOfMemory>
    ensures { OnOk result (out.new.items ≡ out.old.items
        ++ texts_below (top_of_core recording.now numbers.now layout) (length recording.now.cores)) }
{
    for core in 0..recording.cores().len() {
        put_top_node(out, layout, core, first_on_core(recording, numbers, core))?;
    }
    Ok(())
}

/// Adds the line that keeps the cores from left to right.
pub(crate) fn put_top(
    out: &mut Vec<u8>,
    recording: &Recording,
    numbers: &[EventId],
    layout: Layout,
) -> Result<(), OutOfMemory>
    ensures { OnOk result (out.new.items ≡ out.old.items ++ top_line recording.now numbers.now layout) }
{
    put_text(out, b"  top -> {")?;
    put_top_nodes(out, recording, numbers, layout)?;
    put_text(out, b" } [style=\"invis\"];\n")
}

/// The number of the event at a place of a memory order; 0 past the last.
fn number_in_order(numbers: &[EventId], order: &[EventId], i: usize) -> EventId
    ensures { result ≡ number_in_order numbers.now order.now i }
{
    number_at(numbers, order.get(i).copied().unwrap_or(0))
}

/// Whether the event at a place of a memory order is one of a core.
fn is_on_core(
    recording: &Recording,
    numbers: &[EventId],
    order: &[EventId],
    core: usize,
    i: usize,
) -> bool
    ensures { result ≡ is_on_core recording.now numbers.now order.now core i }
{
    event_of(recording, number_in_order(numbers, order, i)).0 as usize == core
}

/// Adds the node of a core that has this rank.
#[tactic(auto, unfolding(crate::specs::Ranks::ranked_node))]
fn put_ranked_node(
    out: &mut Vec<u8>,
    numbers: &[EventId],
    order: &[EventId],
    core: usize,
    rank: usize,
) -> Result<(), OutOfMemory>
    ensures { OnOk result (out.new.items ≡ out.old.items ++ ranked_node numbers.now order.now core rank) }
{
    if rank == 0 {
        put_text_and_number(out, b"  h", core)
    } else {
        put_text_and_number(
            out,
            b"  e",
            number_in_order(numbers, order, rank - 1) as usize,
        )
    }
}

/// Adds the line that puts the event at place `i` of a memory order below the node of a rank.
fn put_rank_line(
    out: &mut Vec<u8>,
    numbers: &[EventId],
    order: &[EventId],
    core: usize,
    i: usize,
    rank: usize,
) -> Result<(), OutOfMemory>
    requires { i < length order.now }
    ensures { OnOk result (out.new.items ≡ out.old.items ++ rank_line numbers.now order.now core i rank) }
{
    put_ranked_node(out, numbers, order, core, rank)?;
    put_text_and_number(out, b" -> e", number_in_order(numbers, order, i) as usize)?;
    put_text_and_number(out, b" [minlen=\"", (i + 1).saturating_sub(rank))?;
    put_text(out, b"\", style=\"invis\"];\n")
}

/// Adds this line if the event is one of the core, and answers the rank of the core's last event then.
#[tactic(auto, unfolding(crate::specs::Ranks::rank_text))]
fn put_rank_text(
    out: &mut Vec<u8>,
    recording: &Recording,
    numbers: &[EventId],
    order: &[EventId],
    core: usize,
    i: usize,
    rank: usize,
) -> Result<usize, OutOfMemory>
    requires { i < length order.now }
    ensures text { OnOk result (out.new.items ≡ out.old.items
        ++ rank_text recording.now numbers.now order.now core i rank) }
    ensures rank { IfOk result (λ next. next ≡
        (if is_on_core recording.now numbers.now order.now core i then i + 1 else rank)) }
{
    if !is_on_core(recording, numbers, order, core, i) {
        return Ok(rank);
    }
    put_rank_line(out, numbers, order, core, i, rank)?;
    Ok(i + 1)
}

/// Adds the lines that put the events of a core one below the other.
fn put_core_ranks(
    out: &mut Vec<u8>,
    recording: &Recording,
    numbers: &[EventId],
    order: &[EventId],
    core: usize,
) -> Result<(), OutOfMemory>
    ensures { OnOk result (out.new.items ≡ out.old.items
        ++ core_ranks recording.now numbers.now order.now core) }
{
    let mut rank = 0;
    for i in 0..order.len() {
        rank = put_rank_text(out, recording, numbers, order, core, i, rank)?;
    }
    Ok(())
}

/// Adds the lines that put the events of a memory order one below the other.
fn put_order_ranks(
    out: &mut Vec<u8>,
    recording: &Recording,
    numbers: &[EventId],
    order: &[EventId],
) -> Result<(), OutOfMemory>
    ensures { OnOk result (out.new.items ≡ out.old.items
        ++ texts_below (core_ranks recording.now numbers.now order.now) (length recording.now.cores)) }
{
    for core in 0..recording.cores().len() {
        put_core_ranks(out, recording, numbers, order, core)?;
    }
    Ok(())
}

/// Adds the lines that put the events of a memory order one below the other, if there is one.
#[tactic(auto, unfolding(crate::specs::Ranks::ranks_text))]
pub(crate) fn put_ranks(
    out: &mut Vec<u8>,
    recording: &Recording,
    numbers: &[EventId],
    answer: &LongAnswer,
) -> Result<(), OutOfMemory>
    ensures { OnOk result (out.new.items ≡ out.old.items
        ++ ranks_text recording.now numbers.now answer.now) }
{
    match answer {
        LongAnswer::Order(order) => put_order_ranks(out, recording, numbers, order),
        LongAnswer::Overlook(_, _) => Ok(()),
        LongAnswer::Cycle(_) => Ok(()),
    }
}
