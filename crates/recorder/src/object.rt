//! The members of JSON objects, and the value of a source.

ghost use Rattle.std.specs.Prelude.{◌≡◌, IfOk};
ghost use Rattle.serde_json.specs.Data.{put, string};
ghost use Rattle.serde_json.specs.View.{view, members_view};
ghost use Rattle.recorder.specs.Text.{source_data};
ghost use Rattle.recorder.specs.Written.{IsWordSource};

use common::EventId;
use serde_json::{Map, Value, put};
use std::alloc::{AllocError, Global};

/// The members of an object with one more, in place of one with the same key. Fails only if out of memory.
pub fn with_member(
    alloc: Global,
    members: Map<String, Value>,
    key: &str,
    value: Value,
) -> Result<Map<String, Value>, AllocError>
    ensures { IfOk result (λ m. members_view m.entries ≡ put key.now (view value) (members_view members.entries)) }
{
    let mut members = members;
    put(&mut members, alloc, key, value)?;
    Ok(members)
}

/// The members of an object with one more, which is a text, in place of one with the same key. Fails only if out of
/// memory.
pub fn with_text_member(
    alloc: Global,
    members: Map<String, Value>,
    key: &str,
    text: &str,
) -> Result<Map<String, Value>, AllocError>
    ensures { IfOk result (λ m. members_view m.entries ≡ put key.now (string text.now) (members_view members.entries)) }
{
    let text = String::from_str(alloc, text)?;
    with_member(alloc, members, key, Value::String(text))
}

/// The value of a source: the number of a write, or null for the initial value.
pub fn source_value(source: Option<EventId>) -> Value
    ensures value { view result ≡ source_data source }
    ensures fits { IsWordSource source }
{
    match source {
        Some(write) => Value::from(write),
        None => Value::Null,
    }
}
