//! Reading the text of a recording.

ghost use Rattle.std.specs.Prelude.{◌≡◌, ◌↔◌, ℕ, List, Err, IfOk, IfErr, IsTrue, option_map, map};
ghost use Rattle.serde_json.specs.View.{view, items_view};
ghost use Rattle.recorder.specs.ParsedModel.{initial_values, IsVersioned};
ghost use Rattle.recorder.specs.ParsedModel.{model_of};
ghost use Rattle.recorder.specs.ReadMembers.{IsParsedFrom};
ghost use Rattle.recording.specs.declared.size.RecordingSize.{RecordingSize};
ghost use Rattle.recorder.specs.Reading.{each, natural, list_in, at_key, shape_in, IsReadingOf, IsReadingResult};
ghost use Rattle.recorder.specs.Reading.{IsValuesAlone};
ghost use Rattle.recorder.specs.Text.{IsReadAs};
ghost use Rattle.recorder.specs.Clipped.{clipped_shape};

use crate::items::{Events, Kind, Numbers, Values};
use crate::plain::{ReadMembers, read_plain};
use crate::single::keys_of;
use crate::versions::has_failed_cas;
use common::EventId;
use recording::{Event, RecError, Recording, RecordingSize};
use serde_json::Value;
use std::alloc::{AllocError, Global};

/// The version, the events of each core, the write lists and perhaps the initial values, which may
/// break every rule.
#[derive(Drop)]
pub(crate) struct Parsed {
    pub(crate) version: u64,
    pub(crate) cores: Vec<Vec<Event>>,
    pub(crate) writes: Vec<Vec<EventId>>,
    pub(crate) init: Option<Vec<u32>>,
}

impl Parsed {
    /// Whether it has what its version has.
    fn is_versioned(&self) -> bool
        ensures { IsTrue result ↔ IsVersioned (model_of self.now) }
    {
        match &self.init {
            Some(_) => self.version == 2,
            None => self.version == 1 && !has_failed_cas(self.cores.as_slice()),
        }
    }
}

fn items_in<K: Kind>(alloc: Global, list: &[Value]) -> Result<Option<Vec<K::Item>>, AllocError>
    ensures { IfOk result (λ o. option_map (λ v. v.items) o ≡ each K.held (items_view list.now)) }
{
    let mut found = Vec::new(alloc);
    for value in list {
        let Some(item) = K::read(value) else {
            return Ok(None);
        };
        found.push(item)?;
    }
    Ok(Some(found))
}

fn list_in<K: Kind>(alloc: Global, value: &Value) -> Result<Option<Vec<K::Item>>, AllocError>
    ensures { IfOk result (λ o. option_map (λ v. v.items) o ≡ list_in K.held (view value.now)) }
{
    let Some(list) = value.as_array() else {
        return Ok(None);
    };
    items_in::<K>(alloc, list.as_slice())
}

fn lists_in<K: Kind>(alloc: Global, list: &[Value]) -> Result<Option<Vec<Vec<K::Item>>>, AllocError>
    ensures { IfOk result (λ o. option_map (λ v. map (λ w. w.items) v.items) o
        ≡ each (list_in K.held) (items_view list.now)) }
{
    let mut found = Vec::new(alloc);
    for value in list {
        let Some(items) = list_in::<K>(alloc, value)? else {
            return Ok(None);
        };
        found.push(items)?;
    }
    Ok(Some(found))
}

fn lists_at<K: Kind>(
    alloc: Global,
    value: &Value,
    key: &str,
) -> Result<Option<Vec<Vec<K::Item>>>, AllocError>
    ensures { IfOk result (λ o. option_map (λ v. map (λ w. w.items) v.items) o
        ≡ at_key (list_in (list_in K.held)) key.now (view value.now)) }
{
    let Some(list) = value.get(key).and_then(Value::as_array) else {
        return Ok(None);
    };
    lists_in::<K>(alloc, list.as_slice())
}

fn natural_at(value: &Value, key: &str) -> Option<u64>
    ensures { result ≡ at_key natural key.now (view value.now) }
{
    value.get(key)?.as_u64()
}

fn list_at<K: Kind>(
    alloc: Global,
    value: &Value,
    key: &str,
) -> Result<Option<Vec<K::Item>>, AllocError>
    ensures { IfOk result (λ o. option_map (λ v. v.items) o ≡ at_key (list_in K.held) key.now (view value.now)) }
{
    let Some(list) = value.get(key) else {
        return Ok(None);
    };
    list_in::<K>(alloc, list)
}

#[tactic(auto, unfolding(crate::specs::Reading::shape_in))]
fn shape_in(alloc: Global, value: &Value) -> Result<Option<Parsed>, AllocError>
    ensures { IfOk result (λ o. option_map model_of o ≡ option_map clipped_shape (shape_in (view value.now))) }
{
    let Some(keys) = keys_of(value) else {
        return Ok(None);
    };
    let read_members = ReadMembers {
        version: natural_at(value, "version"),
        cores: lists_at::<Events>(alloc, value, "cores")?,
        writes: lists_at::<Numbers>(alloc, value, "writes")?,
        init: list_at::<Values>(alloc, value, "init")?,
    };
    Ok(read_members.into_contents(keys))
}

/// The initial values that were read; where none were, 0 for each write list.
fn initial_values(
    alloc: Global,
    init: Option<Vec<u32>>,
    writes: &[Vec<EventId>],
) -> Result<Vec<u32>, AllocError>
    ensures { IfOk result (λ v. v.items
        ≡ initial_values (option_map (λ w. w.items) init) (map (λ w. w.items) writes.now)) }
{
    match init {
        Some(init) => Ok(init),
        None => vec![in alloc; 0; writes.len()],
    }
}

/// Whether it is of version 3, without write lists.
fn is_values_alone(value: &Value) -> bool
    ensures { IsTrue result ↔ IsValuesAlone (view value.now) }
{
    if value.get("writes").is_some() {
        return false;
    }
    match natural_at(value, "version") {
        Some(version) => version == 3,
        None => false,
    }
}

/// The whole value of a text, or that it is no JSON, or that memory ran out.
fn tree_of(alloc: Global, bytes: &[u8]) -> Result<Value, RecError>
    ensures tree { IfOk result (λ v. IsReadAs bytes.now (view v)) }
    ensures err { IfErr result (λ e. (size : RecordingSize) → IsReadingOf size bytes.now (Err e)) }
{
    match Value::from_slice(alloc, bytes) {
        Ok(value) => Ok(value),
        Err(e) => Err(if e.is_memory() {
            RecError::OutOfMemory
        } else {
            RecError::NotJson
        }),
    }
}

/// The contents of a text by its whole value, or the first refusal of the JSON and its shape. Else it fails
/// only if out of memory.
fn parsed_in_tree(alloc: Global, bytes: &[u8]) -> Result<Parsed, RecError>
    ensures found { IfOk result (λ q. (size : RecordingSize) → IsParsedFrom size bytes.now q) }
    ensures err { IfErr result (λ e. (size : RecordingSize) → IsReadingOf size bytes.now (Err e)) }
{
    let value = tree_of(alloc, bytes)?;
    if let Some(found) = shape_in(alloc, &value)? {
        return Ok(found);
    }
    if is_values_alone(&value) {
        return Err(RecError::Version);
    }
    Err(RecError::Shape)
}

/// The recording of a size of these contents, or the first refusal of the version, and what
/// `Recording::from_parts` refuses, or that memory ran out.
fn recording_of(alloc: Global, contents: Parsed, size: RecordingSize) -> Result<Recording, RecError>
    ensures { (bytes : List ℕ) → IsParsedFrom size bytes contents → IsReadingOf size bytes result }
{
    if !contents.is_versioned() {
        return Err(RecError::Version);
    }
    let Parsed {
        cores,
        writes,
        init,
        ..
    } = contents;
    let init = initial_values(alloc, init, writes.as_slice())?;
    Recording::from_parts(alloc, size, cores, writes, init)?
}

/// The recording of a size that the bytes give, or the first refusal: of the JSON, its shape, the version, and what
/// `Recording::from_parts` refuses, or that memory ran out.
pub fn read_recording_of(
    alloc: Global,
    bytes: &[u8],
    size: RecordingSize,
) -> Result<Recording, RecError>
    ensures { IsReadingOf size bytes.now result }
{
    if let Some(plain) = read_plain(alloc, bytes, size)? {
        return recording_of(alloc, plain, size);
    }
    match parsed_in_tree(alloc, bytes) {
        Ok(found) => recording_of(alloc, found, size),
        Err(refusal) => Err(refusal),
    }
}

/// What `read_recording_of` answers of recordings that are no larger than a program.
pub fn read_recording(alloc: Global, bytes: &[u8]) -> Result<Recording, RecError>
    ensures { IsReadingResult bytes.now result }
{
    read_recording_of(alloc, bytes, RecordingSize::Short)
}
