//! What the tree of a text has.

ghost use Rattle.std.specs.Prelude.{◌≡◌, IfOk, option_map, map};
ghost use Rattle.serde_json.specs.View.{view, items_view};
ghost use Rattle.recorder.specs.Reading.{each, natural, list_in, at_key};
ghost use Rattle.values_text.specs.Clipped.{clipped_known, clipped_values_shape};
ghost use Rattle.values_text.specs.Parsed.{parsed_values};

use crate::items::{Item, KnownEvent};
use recorder::keys_of;
use serde_json::Value;
use std::alloc::{AllocError, Global};

/// The version, the events of each core, the initial values and perhaps the final values, which may break every rule.
#[derive(Drop)]
pub(crate) struct Parsed {
    pub(crate) version: u64,
    pub(crate) cores: Vec<Vec<KnownEvent>>,
    pub(crate) init: Vec<u32>,
    pub(crate) final_values: Option<Vec<Option<u32>>>,
}

/// What the keys of values give.
#[derive(Drop)]
struct ReadMembers {
    version: Option<u64>,
    cores: Option<Vec<Vec<KnownEvent>>>,
    init: Option<Vec<u32>>,
    final_values: Option<Vec<Option<u32>>>,
}

impl ReadMembers {
    ghost use Rattle.std.specs.Prelude.{◌≡◌, option_map, map};
    ghost use Rattle.values_text.specs.Reading.{values_contents};
    ghost use Rattle.values_text.specs.Parsed.{parsed_values};

    /// The contents of an object with this many members.
    #[tactic(auto, unfolding(crate::specs::Reading::values_contents))]
    fn into_contents(self, keys: usize) -> Option<Parsed>
        ensures { option_map parsed_values result ≡ values_contents keys self.version
            (option_map (λ v. map (λ w. w.items) v.items) self.cores) (option_map (λ v. v.items) self.init)
            (option_map (λ v. v.items) self.final_values) }
    {
        let ReadMembers {
            version,
            cores,
            init,
            final_values,
        } = self;
        let final_values = match keys {
            3 => None,
            4 => Some(final_values?),
            _ => return None,
        };
        Some(Parsed {
            version: version?,
            cores: cores?,
            init: init?,
            final_values,
        })
    }
}

fn items_in<T: Item>(alloc: Global, list: &[Value]) -> Result<Option<Vec<T>>, AllocError>
    ensures { IfOk result (λ o. option_map (λ v. v.items) o ≡ each T.held (items_view list.now)) }
{
    let mut found = Vec::new(alloc);
    for value in list {
        let Some(item) = T::read(value) else {
            return Ok(None);
        };
        found.push(item)?;
    }
    Ok(Some(found))
}

fn list_in<T: Item>(alloc: Global, value: &Value) -> Result<Option<Vec<T>>, AllocError>
    ensures { IfOk result (λ o. option_map (λ v. v.items) o ≡ list_in T.held (view value.now)) }
{
    let Some(list) = value.as_array() else {
        return Ok(None);
    };
    items_in(alloc, list.as_slice())
}

fn cores_in(alloc: Global, list: &[Value]) -> Result<Option<Vec<Vec<KnownEvent>>>, AllocError>
    ensures { IfOk result (λ o. option_map (λ v. map (λ w. w.items) v.items) o
        ≡ each (list_in clipped_known) (items_view list.now)) }
{
    let mut found = Vec::new(alloc);
    for value in list {
        let Some(events) = list_in::<KnownEvent>(alloc, value)? else {
            return Ok(None);
        };
        found.push(events)?;
    }
    Ok(Some(found))
}

fn cores_at(
    alloc: Global,
    value: &Value,
    key: &str,
) -> Result<Option<Vec<Vec<KnownEvent>>>, AllocError>
    ensures { IfOk result (λ o. option_map (λ v. map (λ w. w.items) v.items) o
        ≡ at_key (list_in (list_in clipped_known)) key.now (view value.now)) }
{
    let Some(list) = value.get(key).and_then(Value::as_array) else {
        return Ok(None);
    };
    cores_in(alloc, list.as_slice())
}

fn list_at<T: Item>(alloc: Global, value: &Value, key: &str) -> Result<Option<Vec<T>>, AllocError>
    ensures { IfOk result (λ o. option_map (λ v. v.items) o ≡ at_key (list_in T.held) key.now (view value.now)) }
{
    let Some(list) = value.get(key) else {
        return Ok(None);
    };
    list_in(alloc, list)
}

fn natural_at(value: &Value, key: &str) -> Option<u64>
    ensures { result ≡ at_key natural key.now (view value.now) }
{
    value.get(key)?.as_u64()
}

/// What a value has, or that it has not the shape of values.
pub(crate) fn shape_in(alloc: Global, value: &Value) -> Result<Option<Parsed>, AllocError>
    ensures { IfOk result (λ o. option_map parsed_values o ≡ clipped_values_shape (view value.now)) }
{
    let Some(keys) = keys_of(value) else {
        return Ok(None);
    };
    let read_members = ReadMembers {
        version: natural_at(value, "version"),
        cores: cores_at(alloc, value, "cores")?,
        init: list_at(alloc, value, "init")?,
        final_values: list_at(alloc, value, "final")?,
    };
    Ok(read_members.into_contents(keys))
}
