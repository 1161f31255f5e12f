//! Reading the text of values alone.

ghost use Rattle.std.specs.Prelude.{◌≡◌, ◌++◌, ℕ, List, Err, IfOk, IfErr, option_map, map, flat_map};
ghost use Rattle.serde_json.specs.View.{view};
ghost use Rattle.recorder.specs.Text.{IsReadAs};
ghost use Rattle.values_text.specs.Reading.{finals_of, told_values, IsValuesReading};
ghost use Rattle.values_text.specs.Parsed.{parsed_values, IsHeldOf};

use crate::items::KnownEvent;
use crate::shape::{Parsed, shape_in};
use common::{EventId, OutOfMemory};
use serde_json::Value;
use std::alloc::{AllocError, Global};
use values::{Event, RecError, Values};

fn events_of(alloc: Global, known: &[KnownEvent]) -> Result<Vec<Event>, AllocError>
    ensures { IfOk result (λ v. v.items ≡ map (λ p. p.0) known.now) }
{
    let mut events = Vec::with_capacity(alloc, known.len())?;
    for event in known {
        events.push(event.0)?;
    }
    Ok(events)
}

/// The events of each core, without what is known of them.
fn all_events_of(alloc: Global, cores: &[Vec<KnownEvent>]) -> Result<Vec<Vec<Event>>, AllocError>
    ensures { IfOk result (λ v. map (λ w. w.items) v.items ≡ map (map (λ p. p.0)) (map (λ w. w.items) cores.now)) }
{
    let mut events = Vec::with_capacity(alloc, cores.len())?;
    for known in cores {
        let core = events_of(alloc, known.as_slice())?;
        events.push(core)?;
    }
    Ok(events)
}

fn push_sources(
    sources: &mut Vec<Option<Option<EventId>>>,
    known: &[KnownEvent],
) -> Result<(), AllocError>
    ensures { IfOk result (λ _. sources.new.items ≡ sources.old.items ++ map (λ p. p.1) known.now) }
{
    for event in known {
        sources.push(event.1)?;
    }
    Ok(())
}

/// For each event by its number the source that is known, if one is.
fn sources_of(
    alloc: Global,
    cores: &[Vec<KnownEvent>],
) -> Result<Vec<Option<Option<EventId>>>, AllocError>
    ensures { IfOk result (λ v. v.items ≡ flat_map (map (λ p. p.1)) (map (λ w. w.items) cores.now)) }
{
    let mut sources = Vec::new(alloc);
    for known in cores {
        push_sources(&mut sources, known.as_slice())?;
    }
    Ok(sources)
}

/// The final values that were read; where none were, none is known of any address.
fn finals_of(
    alloc: Global,
    final_values: Option<Vec<Option<u32>>>,
    addresses: &[u32],
) -> Result<Vec<Option<u32>>, AllocError>
    ensures { IfOk result (λ v. v.items ≡ finals_of (option_map (λ w. w.items) final_values) addresses.now) }
{
    match final_values {
        Some(final_values) => Ok(final_values),
        None => vec![in alloc; None; addresses.len()],
    }
}

/// The values that these contents tell. Fails only if out of memory.
fn told_values(alloc: Global, contents: Parsed) -> Result<Values, OutOfMemory>
    ensures { IfOk result (λ v. v ≡ told_values (parsed_values contents)) }
{
    let Parsed {
        cores,
        init,
        final_values,
        ..
    } = contents;
    let events = all_events_of(alloc, cores.as_slice())?;
    let sources = sources_of(alloc, cores.as_slice())?;
    let final_values = finals_of(alloc, final_values, init.as_slice())?;
    Values::new(alloc, events.as_slice(), sources, init, final_values)
}

/// The values of these contents, or the first refusal: of the version, and what `Values::refusal` refuses. Else it
/// fails only if out of memory.
fn values_of(alloc: Global, contents: Parsed) -> Result<Values, RecError>
    ensures { (bytes : List ℕ) → IsHeldOf bytes contents → IsValuesReading bytes result }
{
    if contents.version != 3 {
        return Err(RecError::Version);
    }
    let values = told_values(alloc, contents)?;
    match values.refusal() {
        Some(refusal) => Err(refusal),
        None => Ok(values),
    }
}

/// The whole value of a text, or that it is no JSON, or that memory ran out.
fn tree_of(alloc: Global, bytes: &[u8]) -> Result<Value, RecError>
    ensures tree { IfOk result (λ v. IsReadAs bytes.now (view v)) }
    ensures err { IfErr result (λ e. IsValuesReading bytes.now (Err e)) }
{
    match Value::from_slice(alloc, bytes) {
        Ok(value) => Ok(value),
        Err(e) => Err(if e.is_memory() {
            RecError::OutOfMemory
        } else {
            RecError::NotJson
        }),
    }
}

/// The contents of a text, or the first refusal of the JSON and its shape. Else it fails only if out of memory.
fn contents_of(alloc: Global, bytes: &[u8]) -> Result<Parsed, RecError>
    ensures found { IfOk result (λ p. IsHeldOf bytes.now p) }
    ensures err { IfErr result (λ e. IsValuesReading bytes.now (Err e)) }
{
    let value = tree_of(alloc, bytes)?;
    let Some(found) = shape_in(alloc, &value)? else {
        return Err(RecError::Shape);
    };
    Ok(found)
}

/// The values that the bytes give, a text of version 3, or the first refusal: of the JSON, its shape, the version, and
/// what `Values::refusal` refuses. Else it fails only if out of memory.
pub fn read_values(alloc: Global, bytes: &[u8]) -> Result<Values, RecError>
    ensures { IsValuesReading bytes.now result }
{
    let contents = contents_of(alloc, bytes)?;
    values_of(alloc, contents)
}
