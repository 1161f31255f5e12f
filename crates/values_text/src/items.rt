//! The items of the lists of values.

ghost use Rattle.std.specs.Prelude.{◌≡◌};
ghost use Rattle.serde_json.specs.View.{view};
ghost use Rattle.values_text.specs.Reading.{with_source, without_source};
ghost use Rattle.values_text.specs.Clipped.{clipped_known};

use crate::members::event_members;
use common::{Addr, EventId};
use recorder::{keys_of, number_at, source_at, value_at, value_in};
use serde_json::Value;
use std::alloc::{AllocError, Global};
use values::Event;

/// An event, and the source that is known of it, if one is.
pub(crate) type KnownEvent = (Event, Option<Option<EventId>>);

/// An item of a list: an event, an initial value, or a final value that may be known.
pub(crate) trait Item: Drop + Sized {
    ghost use Rattle.std.specs.Prelude.{◌≡◌, Option, IfOk};
    ghost use Rattle.serde_json.specs.Data.{Data};
    ghost use Rattle.serde_json.specs.View.{view};

    /// The value that is written of it.
    ghost datum: { Self → Data };

    /// What is held of what a value gives.
    ghost held: { Data → Option Self };

    /// Each number of it fits.
    ghost fits: { Self → Type 0 };

    /// The item that a value gives.
    fn read(value: &Value) -> Option<Self>
        ensures { result ≡ held (view value.now) };

    /// The value of the item.
    fn value(&self, alloc: Global) -> Result<Value, AllocError>
        ensures value { IfOk result (λ v. view v ≡ datum self.now) }
        ensures fits { IfOk result (λ _. fits self.now) };
}

impl Item for KnownEvent {
    ghost use Rattle.values_text.specs.Clipped.{clipped_known};
    ghost use Rattle.values_text.specs.Text.{known_data, IsFittingKnown};

    ghost datum = { known_data };

    ghost held = { clipped_known };

    ghost fits = { IsFittingKnown };

    fn read(value: &Value) -> Option<KnownEvent> {
        known_event_in(value)
    }

    fn value(&self, alloc: Global) -> Result<Value, AllocError> {
        let members = event_members(alloc, &self.0, self.1)?;
        Ok(Value::Object(members))
    }
}

impl Item for u32 {
    ghost use Rattle.recorder.specs.Reading.{value_in};
    ghost use Rattle.recorder.specs.Text.{number_data};
    ghost use Rattle.recorder.specs.Written.{IsWord};

    ghost datum = { number_data };

    ghost held = { value_in };

    ghost fits = { IsWord };

    fn read(value: &Value) -> Option<u32> {
        value_in(value)
    }

    fn value(&self, _alloc: Global) -> Result<Value, AllocError> {
        Ok(Value::from(*self))
    }
}

impl Item for Option<u32> {
    ghost use Rattle.values_text.specs.Reading.{final_in};
    ghost use Rattle.values_text.specs.Text.{final_data, IsFittingFinal};

    ghost datum = { final_data };

    ghost held = { final_in };

    ghost fits = { IsFittingFinal };

    fn read(value: &Value) -> Option<Option<u32>> {
        if value.is_null() {
            return Some(None);
        }
        let known = u32::read(value)?;
        Some(Some(known))
    }

    fn value(&self, _alloc: Global) -> Result<Value, AllocError> {
        match self {
            Some(known) => Ok(Value::from(*known)),
            None => Ok(Value::Null),
        }
    }
}

/// What the keys of an event give.
#[derive(Drop)]
struct Fields {
    a: Option<Addr>,
    r: Option<u32>,
    s: Option<Option<EventId>>,
    w: Option<u32>,
}

/// An event whose source is known.
fn with_source(event: Event) -> KnownEvent
    ensures { result ≡ with_source event }
{
    (event, Some(event.source()))
}

/// An event of which no source is known.
fn without_source(event: Event) -> KnownEvent
    ensures { result ≡ without_source event }
{
    (event, None)
}

impl Fields {
    ghost use Rattle.std.specs.Prelude.{◌≡◌};
    ghost use Rattle.recording.specs.declared.event.Event.TheVariants.{L, C};
    ghost use Rattle.recorder.specs.Reading.{read_of};
    ghost use Rattle.values_text.specs.Reading.{known_event, store_of, rmw_of};

    fn load(&self, source: Option<Option<EventId>>) -> Option<Event>
        ensures { result ≡ read_of L self.now.a self.now.r source }
    {
        Some(Event::L {
            a: self.a?,
            r: self.r?,
            s: source?,
        })
    }

    fn store(&self) -> Option<Event>
        ensures { result ≡ store_of self.now.a self.now.w }
    {
        Some(Event::S {
            a: self.a?,
            w: self.w?,
        })
    }

    fn rmw(&self, source: Option<Option<EventId>>) -> Option<Event>
        ensures { result ≡ rmw_of self.now.a self.now.r source self.now.w }
    {
        Some(Event::R {
            a: self.a?,
            r: self.r?,
            s: source?,
            w: self.w?,
        })
    }

    fn failed_cas(&self, source: Option<Option<EventId>>) -> Option<Event>
        ensures { result ≡ read_of C self.now.a self.now.r source }
    {
        Some(Event::C {
            a: self.a?,
            r: self.r?,
            s: source?,
        })
    }

    /// The event of a kind with this many keys.
    #[tactic(auto, unfolding(crate::specs::Reading::known_event))]
    fn event(&self, kind: &str, keys: usize) -> Option<KnownEvent>
        ensures { result ≡ known_event kind.now keys self.now.a self.now.r self.now.s self.now.w }
    {
        match (kind, keys) {
            ("L", 4) => Some(with_source(self.load(self.s)?)),
            ("L", 3) => Some(without_source(self.load(Some(None))?)),
            ("S", 3) => Some(without_source(self.store()?)),
            ("R", 5) => Some(with_source(self.rmw(self.s)?)),
            ("R", 4) => Some(without_source(self.rmw(Some(None))?)),
            ("C", 4) => Some(with_source(self.failed_cas(self.s)?)),
            ("C", 3) => Some(without_source(self.failed_cas(Some(None))?)),
            ("F", 1) => Some((Event::F, None)),
            _ => None,
        }
    }
}

fn known_event_in(value: &Value) -> Option<KnownEvent>
    ensures { result ≡ clipped_known (view value.now) }
{
    let keys = keys_of(value)?;
    let kind = value.get("k")?.as_str()?;
    let fields = Fields {
        a: number_at(value, "a"),
        r: value_at(value, "r"),
        s: source_at(value, "s"),
        w: value_at(value, "w"),
    };
    fields.event(kind, keys)
}
