//! Events, read from the bytes of a text.

ghost use Rattle.std.specs.Prelude.{◌≡◌, ℕ, suc, ◌∷◌, [], Some, None, IsSome, IfSome, option_and_then, ◌+◌};
ghost use Rattle.recorder.specs.Clipped.{clipped_event};
ghost use Rattle.recorder.specs.Reading.{member_event};
ghost use Rattle.recorder.specs.ByTokens.{Adds, GivesValue, GivesMembers, value_tokens, fresh_tokens, later_tokens};
ghost use Rattle.recorder.specs.ReadMembers.{AreFields, count_of};
ghost use Rattle.serde_json.specs.Data.{no_members};

use crate::plain::usual::{Spaced, Tight, take_usual};
use crate::plain::values::{take_key, take_kind, take_number, take_source, take_value};
use crate::spaced::{skip_one, take_sign};
use common::{Addr, EventId};
use recording::Event;
use texts::Cursor;

/// The members that were read of an event; its kind is a letter.
#[derive(Drop)]
pub(crate) struct Fields {
    pub(crate) k: Option<u8>,
    pub(crate) a: Option<Addr>,
    pub(crate) r: Option<u32>,
    pub(crate) s: Option<Option<EventId>>,
    pub(crate) w: Option<u32>,
}

/// Fills a place that is empty with what was read, if something was.
pub(crate) fn once<T: Drop>(place: &mut Option<T>, value: Option<T>) -> Option<()>
    ensures { IfSome result (λ _. (place.old ≡ None) × IsSome value × (place.new ≡ value)) }
{
    if place.is_some() || value.is_none() {
        return None;
    }
    *place = value;
    Some(())
}

impl Fields {
    fn new() -> Fields
        ensures { AreFields result no_members }
    {
        Fields {
            k: None,
            a: None,
            r: None,
            s: None,
            w: None,
        }
    }

    /// Takes the value of one member more, of a key that is new.
    fn take(&mut self, key: u8, rest: &mut Cursor<'_>) -> Option<()>
        ensures { IfSome result (λ _. (depth : ℕ)
            → Adds AreFields (key ∷ []) depth (value_tokens rest.old) (later_tokens rest.new) self.old self.new) }
    {
        match key {
            b'a' => once(&mut self.a, take_number(rest)),
            b'k' => once(&mut self.k, take_kind(rest)),
            b'r' => once(&mut self.r, take_value(rest)),
            b's' => once(&mut self.s, take_source(rest)),
            b'w' => once(&mut self.w, take_value(rest)),
            _ => None,
        }
    }

    /// How many members were read.
    fn len(&self) -> usize
        ensures { result ≡ count_of self.now.k + count_of self.now.a + count_of self.now.r
            + count_of self.now.s + count_of self.now.w }
    {
        self.k.is_some() as usize
            + self.a.is_some() as usize
            + self.r.is_some() as usize
            + self.s.is_some() as usize
            + self.w.is_some() as usize
    }

    /// The event of an object with this many members.
    #[tactic(auto, unfolding(crate::specs::Reading::member_event))]
    pub(crate) fn event(&self, keys: usize) -> Option<Event>
        ensures { result ≡ option_and_then (λ k. member_event (k ∷ []) keys self.now.a self.now.r self.now.s self.now.w)
            self.now.k }
    {
        match (self.k?, keys) {
            (b'L', 4) => Some(Event::L {
                a: self.a?,
                r: self.r?,
                s: self.s?,
            }),
            (b'S', 3) => Some(Event::S {
                a: self.a?,
                w: self.w?,
            }),
            (b'R', 5) => Some(Event::R {
                a: self.a?,
                r: self.r?,
                s: self.s?,
                w: self.w?,
            }),
            (b'C', 4) => Some(Event::C {
                a: self.a?,
                r: self.r?,
                s: self.s?,
            }),
            (b'F', 1) => Some(Event::F),
            _ => None,
        }
    }
}

/// The members of an object that has begun, and the brace that closes it.
fn take_fields(rest: &mut Cursor<'_>) -> Option<Fields>
    ensures { IfSome result (λ f. (depth : ℕ)
        → GivesMembers AreFields depth (fresh_tokens rest.old) (later_tokens rest.new) f) }
{
    let mut fields = Fields::new();
    'members: loop {
        let key = take_key(rest)?;
        fields.take(key, rest)?;
        if !take_sign(rest, b',') {
            if take_sign(rest, b'}') {
                return Some(fields);
            }
            return None;
        }
    }
}

/// An event with its keys in any order.
fn take_any(rest: &mut Cursor<'_>) -> Option<Event>
    ensures { IfSome result (λ e. (depth : ℕ)
        → GivesValue clipped_event (suc depth) (value_tokens rest.old) e (later_tokens rest.new)) }
{
    if !take_sign(rest, b'{') {
        return None;
    }
    let fields = take_fields(rest)?;
    fields.event(fields.len())
}

/// An event in the layout of `json.dumps`, or with its keys in any order.
#[inline(never)]
fn take_spaced(rest: &mut Cursor<'_>) -> Option<Event>
    ensures { IfSome result (λ e. (depth : ℕ)
        → GivesValue clipped_event (suc depth) (value_tokens rest.old) e (later_tokens rest.new)) }
{
    skip_one(rest);
    let mut spaced = Cursor::new(rest.rest());
    if let Some(event) = take_usual::<Spaced>(&mut spaced) {
        *rest = Cursor::new(spaced.rest());
        return Some(event);
    }
    take_any(rest)
}

/// An event.
pub(crate) fn take_event(rest: &mut Cursor<'_>) -> Option<Event>
    ensures { IfSome result (λ e. (depth : ℕ)
        → GivesValue clipped_event (suc depth) (value_tokens rest.old) e (later_tokens rest.new)) }
{
    let mut tight = Cursor::new(rest.rest());
    if let Some(event) = take_usual::<Tight>(&mut tight) {
        *rest = Cursor::new(tight.rest());
        return Some(event);
    }
    take_spaced(rest)
}
