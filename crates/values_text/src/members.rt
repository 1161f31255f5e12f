//! The JSON values of events.

ghost use Rattle.std.specs.Prelude.{◌≡◌, IfOk};
ghost use Rattle.serde_json.specs.Data.{object};
ghost use Rattle.serde_json.specs.View.{members_view};
ghost use Rattle.recorder.specs.Text.{members};
ghost use Rattle.values_text.specs.Text.{known_members, known_data, IsWordKnown, IsFittingKnown};

use common::{Addr, EventId};
use recorder::{source_value, with_member, with_text_member};
use serde_json::{Map, Value};
use std::alloc::{AllocError, Global};
use values::Event;

/// The members of an event of this kind that reads.
fn known_members(
    alloc: Global,
    kind: &str,
    a: Addr,
    r: u32,
    source: Option<Option<EventId>>,
) -> Result<Map<String, Value>, AllocError>
    ensures value { IfOk result (λ m. members_view m.entries ≡ members (known_members kind.now a r source)) }
    ensures fits { IfOk result (λ _. IsWordKnown source) }
{
    let members = with_member(alloc, Map::new(alloc), "a", Value::from(a))?;
    let members = with_text_member(alloc, members, "k", kind)?;
    let members = with_member(alloc, members, "r", Value::from(r))?;
    match source {
        Some(source) => with_member(alloc, members, "s", source_value(source)),
        None => Ok(members),
    }
}

/// The members of an event with the source that is known of it, if one is.
pub(crate) fn event_members(
    alloc: Global,
    event: &Event,
    source: Option<Option<EventId>>,
) -> Result<Map<String, Value>, AllocError>
    ensures value { IfOk result (λ m. object (members_view m.entries) ≡ known_data (event.now, source)) }
    ensures fits { IfOk result (λ _. IsFittingKnown (event.now, source)) }
{
    match *event {
        Event::L { a, r, .. } => known_members(alloc, "L", a, r, source),
        Event::S { a, w } => {
            let members = with_member(alloc, Map::new(alloc), "a", Value::from(a))?;
            let members = with_text_member(alloc, members, "k", "S")?;
            with_member(alloc, members, "w", Value::from(w))
        }
        Event::R { a, r, w, .. } => {
            let members = known_members(alloc, "R", a, r, source)?;
            with_member(alloc, members, "w", Value::from(w))
        }
        Event::C { a, r, .. } => known_members(alloc, "C", a, r, source),
        Event::F => with_text_member(alloc, Map::new(alloc), "k", "F"),
    }
}
