//! The text of values alone.

ghost use Rattle.std.specs.Prelude.{◌≡◌, IfOk, Ok, is_some, map};
ghost use Rattle.std.specs.List.{list_any, AllByRecursion};
ghost use Rattle.serde_json.specs.View.{view};
ghost use Rattle.recorder.specs.Text.{list_data, IsReadAs};
ghost use Rattle.values.specs.Refused.{ObeyRules};
ghost use Rattle.values_text.specs.Reading.{IsValuesReading};
ghost use Rattle.values_text.specs.Text.{values_data, text_of_values, AreFittingNumbers};

use crate::items::Item;
use crate::known::known_cores;
use common::OutOfMemory;
use recorder::with_member;
use serde_json::{Map, Value};
use std::alloc::{AllocError, Global};
use values::Values;

fn list_value<T: Item>(alloc: Global, items: &[T]) -> Result<Value, AllocError>
    ensures value { IfOk result (λ v. view v ≡ list_data T.datum items.now) }
    ensures fits { IfOk result (λ _. AllByRecursion T.fits items.now) }
{
    let mut values = Vec::with_capacity(alloc, items.len())?;
    for item in items {
        values.push(item.value(alloc)?)?;
    }
    Ok(Value::Array(values))
}

fn lists_value<T: Item>(alloc: Global, lists: &[Vec<T>]) -> Result<Value, AllocError>
    ensures value { IfOk result (λ v. view v
        ≡ list_data (list_data T.datum) (map (λ w. w.items) lists.now)) }
    ensures fits { IfOk result (λ _. AllByRecursion (AllByRecursion T.fits) (map (λ w. w.items) lists.now)) }
{
    let mut values = Vec::with_capacity(alloc, lists.len())?;
    for list in lists {
        values.push(list_value(alloc, list.as_slice())?)?;
    }
    Ok(Value::Array(values))
}

/// Whether a final value is known.
fn is_one_known(final_values: &[Option<u32>]) -> bool
    ensures { result ≡ list_any is_some final_values.now }
{
    for value in final_values {
        if value.is_some() {
            return true;
        }
    }
    false
}

/// The JSON value of values.
fn value_of(alloc: Global, values: &Values) -> Result<Value, AllocError>
    ensures value { IfOk result (λ v. view v ≡ values_data values.now) }
    ensures fits { IfOk result (λ _. AreFittingNumbers values.now) }
{
    let known = known_cores(alloc, values.cores(), values.sources())?;
    let cores = lists_value(alloc, known.as_slice())?;
    let members = with_member(alloc, Map::new(alloc), "cores", cores)?;
    let init = list_value(alloc, values.init())?;
    let members = with_member(alloc, members, "init", init)?;
    let members = with_member(alloc, members, "version", Value::from(3u64))?;
    if !is_one_known(values.final_values()) {
        return Ok(Value::Object(members));
    }
    let final_values = list_value(alloc, values.final_values())?;
    let members = with_member(alloc, members, "final", final_values)?;
    Ok(Value::Object(members))
}

/// The text of values, of version 3: compact JSON with the keys of each object in ascending order, and a newline.
/// Sources and final values that are not known are left out. Fails only if out of memory.
pub fn write_values(alloc: Global, values: &Values) -> Result<Vec<u8>, OutOfMemory>
    ensures text { IfOk result (λ v. v.items ≡ text_of_values values.now) }
    ensures reads_back { IfOk result (λ v. IsReadAs v.items (values_data values.now)) }
    ensures again { IfOk result (λ v. ObeyRules values.now → IsValuesReading v.items (Ok values.now)) }
{
    values.sound();
    let value = value_of(alloc, values)?;
    let mut text = value.to_string(alloc)?;
    text.push('\n')?;
    Ok(text.into_bytes())
}
