//! The items of a recording's lists.

ghost use Rattle.std.specs.Prelude.{◌≡◌, option_and_then, codes};
ghost use Rattle.serde_json.specs.View.{view};
ghost use Rattle.recorder.specs.Reading.{at_key};
ghost use Rattle.recorder.specs.Clipped.{clipped_event};
ghost use Rattle.recorder.specs.ReadMembers.{single};
ghost use Rattle.serde_json.specs.Find.{as_str};

use crate::plain::events::{Fields, take_event};
use crate::plain::values::{take_number, take_value};
use crate::single::{keys_of, number_at, number_in, source_at, value_at, value_in};
use crate::values::event_members;
use crate::versions::has_failed;
use common::EventId;
use recording::{Event, RecordingSize};
use serde_json::Value;
use std::alloc::{AllocError, Global};
use texts::Cursor;

/// What the items of a list are.
pub(crate) trait Kind {
    ghost use Rattle.std.specs.Prelude.{◌≡◌, ◌++◌, ◌∷◌, [], ℕ, suc, List, Option, map, IfOk, IfSome};
    ghost use Rattle.serde_json.specs.Data.{Data};
    ghost use Rattle.serde_json.specs.View.{view};
    ghost use Rattle.recording.specs.declared.size.RecordingSize.{RecordingSize};
    ghost use Rattle.recorder.specs.ByTokens.{GivesValue, value_tokens, later_tokens};

    /// An item.
    type Item: Drop;

    /// The value that is written of it.
    ghost datum: { Self.Item → Data };

    /// What is held of what a value gives.
    ghost held: { Data → Option Self.Item };

    /// Each number of it fits.
    ghost fits: { Self.Item → Type 0 };

    /// What is held for a list.
    ghost holds: { RecordingSize → List Self.Item → List Self.Item → Type 0 };

    /// What is held for lists.
    ghost holds_lists: { RecordingSize → List (List Self.Item) → List (List Self.Item) → Type 0 };

    /// Takes the item that stands next in a text.
    fn take(rest: &mut Cursor<'_>) -> Option<Self::Item>
        ensures { IfSome result (λ x. (depth : ℕ)
            → GivesValue held (suc depth) (value_tokens rest.old) x (later_tokens rest.new)) };

    /// Holds an item more of a list.
    fn hold(
        found: &mut Vec<Self::Item>,
        item: Self::Item,
        size: RecordingSize,
    ) -> Result<(), AllocError>
        ensures { IfOk result (λ _. (items : List Self.Item) → holds size found.old.items items
            → holds size found.new.items (items ++ item ∷ [])) };

    /// Holds a list more.
    fn hold_list(
        found: &mut Vec<Vec<Self::Item>>,
        list: Vec<Self::Item>,
        size: RecordingSize,
    ) -> Result<(), AllocError>
        ensures { IfOk result (λ _. (lists : List (List Self.Item)) (items : List Self.Item)
            → holds_lists size (map (λ v. v.items) found.old.items) lists → holds size list.items items
            → holds_lists size (map (λ v. v.items) found.new.items) (lists ++ items ∷ [])) };

    /// The item that a value gives.
    fn read(value: &Value) -> Option<Self::Item>
        ensures { result ≡ held (view value.now) };

    /// The value of an item.
    fn value(item: &Self::Item, alloc: Global) -> Result<Value, AllocError>
        ensures value { IfOk result (λ v. view v ≡ datum item.now) }
        ensures fits { IfOk result (λ _. fits item.now) };

    ghost holds_none: { (size : RecordingSize) → holds size [] [] };

    ghost holds_no_list: { (size : RecordingSize) → holds_lists size [] [] };
}

/// Events. It has no values.
pub(crate) enum Events {}

/// The numbers of events. It has no values.
pub(crate) enum Numbers {}

/// Initial values. It has no values.
pub(crate) enum Values {}

impl Kind for Events {
    ghost use Rattle.std.proofs.Common.{◌++◌, ◌∷◌, [], List, map, IfOk, refl, inl};
    ghost use Rattle.recording.specs.declared.event.Event.{Event};
    ghost use Rattle.recorder.specs.Held.{HoldsEvents, HoldsCores};
    ghost use Rattle.recorder.specs.Text.{event_data};
    ghost use Rattle.recorder.specs.Clipped.{clipped_event};
    ghost use Rattle.recorder.specs.Written.{IsFitting};

    type Item = Event;

    ghost datum = { event_data };

    ghost held = { clipped_event };

    ghost fits = { IsFitting };

    ghost holds = { HoldsEvents };

    ghost holds_lists = { HoldsCores };

    fn take(rest: &mut Cursor<'_>) -> Option<Event> {
        take_event(rest)
    }

    /// Of those that are too many the first is held, or the last compare-and-swap that failed.
    fn hold(found: &mut Vec<Event>, item: Event, size: RecordingSize) -> Result<(), AllocError> {
        let most = size.events();
        if found.len() <= most {
            found.push(item)?;
            return Ok(());
        }
        if item.is_failed_cas() {
            found.truncate(most);
            found.push(item)?;
        }
        Ok(())
    }

    /// Of those that are too many the first is held, or the last in which a compare-and-swap failed.
    fn hold_list(
        found: &mut Vec<Vec<Event>>,
        list: Vec<Event>,
        size: RecordingSize,
    ) -> Result<(), AllocError>
        ensures { IfOk result (λ _. (lists : List (List Event)) (items : List Event)
            → HoldsCores size (map (λ v. v.items) found.old.items) lists → HoldsEvents size list.items items
            → HoldsCores size (map (λ v. v.items) found.new.items) (lists ++ items ∷ [])) }
    {
        let most = size.cores();
        if found.len() <= most {
            found.push(list)?;
            return Ok(());
        }
        if has_failed(list.as_slice()) {
            found.truncate(most);
            found.push(list)?;
        }
        Ok(())
    }

    fn read(value: &Value) -> Option<Event> {
        event_in(value)
    }

    fn value(item: &Event, alloc: Global) -> Result<Value, AllocError> {
        let members = event_members(alloc, item)?;
        Ok(Value::Object(members))
    }

    ghost holds_none = { λ size. inl refl };

    ghost holds_no_list = { λ size. inl refl };
}

impl Kind for Numbers {
    ghost use Rattle.std.proofs.Common.{◌≡◌, ◌++◌, ◌∷◌, [], ℕ, List, map, IfOk, refl, inl};
    ghost use Rattle.recorder.specs.Held.{HoldsLists};
    ghost use Rattle.recorder.specs.Text.{number_data};
    ghost use Rattle.recorder.specs.Clipped.{clipped_number};
    ghost use Rattle.recorder.specs.Written.{IsWord};

    type Item = EventId;

    ghost datum = { number_data };

    ghost held = { clipped_number };

    ghost fits = { IsWord };

    ghost holds = { λ size held items. held ≡ items };

    ghost holds_lists = { HoldsLists };

    fn take(rest: &mut Cursor<'_>) -> Option<EventId> {
        take_number(rest)
    }

    fn hold(
        found: &mut Vec<EventId>,
        item: EventId,
        _size: RecordingSize,
    ) -> Result<(), AllocError> {
        found.push(item)?;
        Ok(())
    }

    /// Of those that are too many the first is held.
    fn hold_list(
        found: &mut Vec<Vec<EventId>>,
        list: Vec<EventId>,
        size: RecordingSize,
    ) -> Result<(), AllocError>
        ensures { IfOk result (λ _. (lists : List (List ℕ)) (items : List ℕ)
            → HoldsLists size (map (λ v. v.items) found.old.items) lists → list.items ≡ items
            → HoldsLists size (map (λ v. v.items) found.new.items) (lists ++ items ∷ [])) }
    {
        if found.len() <= size.addresses() {
            found.push(list)?;
        }
        Ok(())
    }

    fn read(value: &Value) -> Option<EventId> {
        number_in(value)
    }

    fn value(item: &EventId, _alloc: Global) -> Result<Value, AllocError> {
        Ok(Value::from(*item))
    }

    ghost holds_none = { λ size. refl };

    ghost holds_no_list = { λ size. inl refl };
}

impl Kind for Values {
    ghost use Rattle.std.specs.Prelude.{◌≡◌, ◌++◌, ◌∷◌, [], ℕ, List, map, IfOk, refl};
    ghost use Rattle.recorder.specs.Text.{number_data};
    ghost use Rattle.recorder.specs.Reading.{value_in};
    ghost use Rattle.recorder.specs.Written.{IsWord};

    type Item = u32;

    ghost datum = { number_data };

    ghost held = { value_in };

    ghost fits = { IsWord };

    ghost holds = { λ size held items. held ≡ items };

    ghost holds_lists = { λ size held lists. held ≡ lists };

    fn take(rest: &mut Cursor<'_>) -> Option<u32> {
        take_value(rest)
    }

    fn hold(found: &mut Vec<u32>, item: u32, _size: RecordingSize) -> Result<(), AllocError> {
        found.push(item)?;
        Ok(())
    }

    fn hold_list(
        found: &mut Vec<Vec<u32>>,
        list: Vec<u32>,
        _size: RecordingSize,
    ) -> Result<(), AllocError>
        ensures { IfOk result (λ _. (lists : List (List ℕ)) (items : List ℕ)
            → map (λ v. v.items) found.old.items ≡ lists → list.items ≡ items
            → map (λ v. v.items) found.new.items ≡ lists ++ items ∷ []) }
    {
        found.push(list)?;
        Ok(())
    }

    fn read(value: &Value) -> Option<u32> {
        value_in(value)
    }

    fn value(item: &u32, _alloc: Global) -> Result<Value, AllocError> {
        Ok(Value::from(*item))
    }

    ghost holds_none = { λ size. refl };

    ghost holds_no_list = { λ size. refl };
}

/// The byte of a text of one byte.
fn letter_of(text: &str) -> Option<u8>
    ensures { result ≡ single text.now }
{
    let bytes = text.as_bytes();
    if bytes.len() == 1 {
        return Some(bytes[0]);
    }
    None
}

/// The letter of an event's kind.
fn letter_in(value: &Value) -> Option<u8>
    ensures { result ≡ option_and_then single (at_key as_str (codes "k") (view value.now)) }
{
    letter_of(value.get("k")?.as_str()?)
}

fn event_in(value: &Value) -> Option<Event>
    ensures { result ≡ clipped_event (view value.now) }
{
    let keys = keys_of(value)?;
    let fields = Fields {
        k: letter_in(value),
        a: number_at(value, "a"),
        r: value_at(value, "r"),
        s: source_at(value, "s"),
        w: value_at(value, "w"),
    };
    fields.event(keys)
}
