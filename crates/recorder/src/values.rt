//! The JSON value of a recording.

ghost use Rattle.std.specs.Prelude.{◌≡◌, IfOk, None, Some, map};
ghost use Rattle.std.specs.List.{AllByRecursion};
ghost use Rattle.serde_json.specs.Data.{object};
ghost use Rattle.serde_json.specs.View.{view, members_view};
ghost use Rattle.recorder.specs.Written.{IsWordSource, IsFitting, AreFitting};
ghost use Rattle.recorder.specs.Text.{list_data, members, read_members, event_data, values_of, data_of};

use crate::items::{Events, Kind, Numbers, Values};
use crate::object::{source_value, with_member, with_text_member};
use crate::versions::is_of_version_1;
use common::{Addr, EventId};
use recording::{Event, Recording};
use serde_json::{Map, Value};
use std::alloc::{AllocError, Global};

/// The members of an event of this kind that reads.
fn read_members(
    alloc: Global,
    kind: &str,
    a: Addr,
    r: u32,
    s: Option<EventId>,
) -> Result<Map<String, Value>, AllocError>
    ensures value { IfOk result (λ m. members_view m.entries ≡ members (read_members kind.now a r s)) }
    ensures fits { IfOk result (λ _. IsWordSource s) }
{
    let members = with_member(alloc, Map::new(alloc), "a", Value::from(a))?;
    let members = with_text_member(alloc, members, "k", kind)?;
    let members = with_member(alloc, members, "r", Value::from(r))?;
    with_member(alloc, members, "s", source_value(s))
}

/// The members of an event.
pub(crate) fn event_members(alloc: Global, event: &Event) -> Result<Map<String, Value>, AllocError>
    ensures value { IfOk result (λ m. object (members_view m.entries) ≡ event_data event.now) }
    ensures fits { IfOk result (λ _. IsFitting event.now) }
{
    match *event {
        Event::L { a, r, s } => read_members(alloc, "L", a, r, s),
        Event::S { a, w } => {
            let members = with_member(alloc, Map::new(alloc), "a", Value::from(a))?;
            let members = with_text_member(alloc, members, "k", "S")?;
            with_member(alloc, members, "w", Value::from(w))
        }
        Event::R { a, r, s, w } => {
            let members = read_members(alloc, "R", a, r, s)?;
            with_member(alloc, members, "w", Value::from(w))
        }
        Event::C { a, r, s } => read_members(alloc, "C", a, r, s),
        Event::F => with_text_member(alloc, Map::new(alloc), "k", "F"),
    }
}

fn list_value<K: Kind>(alloc: Global, items: &[K::Item]) -> Result<Value, AllocError>
    ensures value { IfOk result (λ v. view v ≡ list_data K.datum items.now) }
    ensures fits { IfOk result (λ _. AllByRecursion K.fits items.now) }
{
    let mut values = Vec::with_capacity(alloc, items.len())?;
    for item in items {
        values.push(K::value(item, alloc)?)?;
    }
    Ok(Value::Array(values))
}

fn lists_value<K: Kind>(alloc: Global, lists: &[Vec<K::Item>]) -> Result<Value, AllocError>
    ensures value { IfOk result (λ v. view v
        ≡ list_data (list_data K.datum) (map (λ w. w.items) lists.now)) }
    ensures fits { IfOk result (λ _. AllByRecursion (AllByRecursion K.fits) (map (λ w. w.items) lists.now)) }
{
    let mut values = Vec::with_capacity(alloc, lists.len())?;
    for list in lists {
        values.push(list_value::<K>(alloc, list.as_slice())?)?;
    }
    Ok(Value::Array(values))
}

pub(crate) fn value_of(alloc: Global, recording: &Recording) -> Result<Value, AllocError>
    ensures value { IfOk result (λ v. view v ≡ data_of recording.now) }
    ensures fits { IfOk result (λ _. AreFitting (values_of recording.now) recording.now.cores
        recording.now.write_lists) }
{
    let cores = lists_value::<Events>(alloc, recording.cores())?;
    let members = with_member(alloc, Map::new(alloc), "cores", cores)?;
    let writes = lists_value::<Numbers>(alloc, recording.writes())?;
    let members = with_member(alloc, members, "writes", writes)?;
    if is_of_version_1(recording) {
        let members = with_member(alloc, members, "version", Value::from(1u64))?;
        return Ok(Value::Object(members));
    }
    let init = list_value::<Values>(alloc, recording.init())?;
    let members = with_member(alloc, members, "init", init)?;
    let members = with_member(alloc, members, "version", Value::from(2u64))?;
    Ok(Value::Object(members))
}
