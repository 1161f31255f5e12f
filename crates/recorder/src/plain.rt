//! The reader by bytes, for speed: it gives the contents that a text's tree gives, or gives up. It takes white space
//! between values and keys in any order.

ghost use Rattle.std.specs.Prelude.{◌≡◌, ◌+◌, ◌∷◌, ℕ, suc, [], Some, IfOk, IfSome, option_map, map};
ghost use Rattle.recording.specs.declared.size.RecordingSize.{RecordingSize};
ghost use Rattle.serde_json.specs.Data.{no_members};
ghost use Rattle.serde_json.specs.Read.{max_depth};
ghost use Rattle.recorder.specs.ParsedModel.{ParsedModel};
ghost use Rattle.recorder.specs.ParsedModel.{model_of};
ghost use Rattle.recorder.specs.Held.{StandsFor};
ghost use Rattle.recorder.specs.ReadMembers.{count_of};
ghost use Rattle.recorder.specs.Reading.{contents_of};
ghost use Rattle.recorder.specs.ReadMembers.{AreParts, clipped_contents, IsParsedFrom};
ghost use Rattle.json.specs.Json.{read_key};
ghost use Rattle.json.specs.Token.{string};
ghost use Rattle.json.specs.Lex.{token, lex, between};
ghost use Rattle.recorder.specs.Names.{name_of};
ghost use Rattle.recorder.specs.ByTokens.{Adds, GivesValue, GivesMembers, value_tokens, fresh_tokens, later_tokens};

pub(crate) mod events;
mod lists;
mod usual;
pub(crate) mod values;

use crate::items::{Events, Numbers, Values};
use crate::plain::events::once;
use crate::plain::lists::{take_list, take_lists};
use crate::plain::values::take_natural;
use crate::reading::Parsed;
use crate::spaced::{is_over, skip_space, take_sign};
use common::EventId;
use recording::{Event, RecordingSize};
use std::alloc::{AllocError, Global};
use texts::Cursor;

/// A key of a recording.
#[derive(Drop)]
pub(crate) enum Name {
    Version,
    Cores,
    Writes,
    Init,
}

/// The string of a key.
fn take_string(rest: &mut Cursor<'_>) -> Option<Name>
    ensures { IfSome result (λ n. lex between rest.old ≡ token (string (name_of n)) ∷ lex between rest.new) }
{
    skip_space(rest);
    if rest.take(b"\"cores\"") {
        return Some(Name::Cores);
    }
    if rest.take(b"\"version\"") {
        return Some(Name::Version);
    }
    if rest.take(b"\"writes\"") {
        return Some(Name::Writes);
    }
    if rest.take(b"\"init\"") {
        return Some(Name::Init);
    }
    None
}

/// A key and its colon.
fn take_name(rest: &mut Cursor<'_>) -> Option<Name>
    ensures { IfSome result (λ n. read_key (value_tokens rest.old) ≡ Some (Some (name_of n), fresh_tokens rest.new)) }
{
    let name = take_string(rest)?;
    if !take_sign(rest, b':') {
        return None;
    }
    Some(name)
}

/// The members that were read of a recording.
#[derive(Drop)]
pub(crate) struct ReadMembers {
    pub(crate) version: Option<u64>,
    pub(crate) cores: Option<Vec<Vec<Event>>>,
    pub(crate) writes: Option<Vec<Vec<EventId>>>,
    pub(crate) init: Option<Vec<u32>>,
}

impl ReadMembers {
    fn new() -> ReadMembers
        ensures { (size : RecordingSize) → AreParts size result no_members }
    {
        ReadMembers {
            version: None,
            cores: None,
            writes: None,
            init: None,
        }
    }

    /// Takes the value of one member more, of a key that is new.
    fn take(
        &mut self,
        alloc: Global,
        name: Name,
        rest: &mut Cursor<'_>,
        size: RecordingSize,
    ) -> Result<Option<()>, AllocError>
        ensures { IfOk result (λ o. IfSome o (λ _. (depth : ℕ)
            → Adds (AreParts size) (name_of name) (suc (suc (suc depth))) (value_tokens rest.old)
            (later_tokens rest.new) self.old self.new)) }
    {
        match name {
            Name::Version => Ok(once(&mut self.version, take_natural(rest))),
            Name::Cores => Ok(once(&mut self.cores, take_lists::<Events>(alloc, rest, size)?)),
            Name::Writes => Ok(once(&mut self.writes, take_lists::<Numbers>(alloc, rest, size)?)),
            Name::Init => Ok(once(&mut self.init, take_list::<Values>(alloc, rest, size)?)),
        }
    }

    /// How many members were read.
    fn len(&self) -> usize
        ensures { result ≡ count_of self.now.version + count_of self.now.cores + count_of self.now.writes
            + count_of self.now.init }
    {
        self.version.is_some() as usize
            + self.cores.is_some() as usize
            + self.writes.is_some() as usize
            + self.init.is_some() as usize
    }

    /// The contents of an object with this many members.
    #[tactic(auto, unfolding(crate::specs::Reading::contents_of))]
    pub(crate) fn into_contents(self, keys: usize) -> Option<Parsed>
        ensures { option_map model_of result ≡ contents_of keys self.version
            (option_map (λ v. map (λ w. w.items) v.items) self.cores)
            (option_map (λ v. map (λ w. w.items) v.items) self.writes) (option_map (λ v. v.items) self.init) }
    {
        let ReadMembers {
            version,
            cores,
            writes,
            init,
        } = self;
        let init = match keys {
            3 => None,
            4 => Some(init?),
            _ => return None,
        };
        Some(Parsed {
            version: version?,
            cores: cores?,
            writes: writes?,
            init,
        })
    }
}

/// The members of an object that has begun, and the brace that closes it.
fn take_members(
    alloc: Global,
    rest: &mut Cursor<'_>,
    size: RecordingSize,
) -> Result<Option<ReadMembers>, AllocError>
    ensures { IfOk result (λ o. IfSome o (λ p. (depth : ℕ)
        → GivesMembers (AreParts size) (suc (suc (suc depth))) (fresh_tokens rest.old) (later_tokens rest.new) p)) }
{
    let mut read_members = ReadMembers::new();
    'members: loop {
        let Some(name) = take_name(rest) else {
            return Ok(None);
        };
        let Some(()) = read_members.take(alloc, name, rest, size)? else {
            return Ok(None);
        };
        if !take_sign(rest, b',') {
            if take_sign(rest, b'}') {
                return Ok(Some(read_members));
            }
            return Ok(None);
        }
    }
}

fn take_parsed(
    alloc: Global,
    rest: &mut Cursor<'_>,
    size: RecordingSize,
) -> Result<Option<Parsed>, AllocError>
    ensures { IfOk result (λ o. IfSome o (λ q. (c : ParsedModel)
        × GivesValue clipped_contents max_depth (value_tokens rest.old) c [] × StandsFor size (model_of q) c)) }
{
    if !take_sign(rest, b'{') {
        return Ok(None);
    }
    let Some(read_members) = take_members(alloc, rest, size)? else {
        return Ok(None);
    };
    if !is_over(rest) {
        return Ok(None);
    }
    let keys = read_members.len();
    Ok(read_members.into_contents(keys))
}

/// What a text in the simplest form has, with white space or without; of other texts it answers nothing.
pub(crate) fn read_plain(
    alloc: Global,
    bytes: &[u8],
    size: RecordingSize,
) -> Result<Option<Parsed>, AllocError>
    ensures { IfOk result (λ o. IfSome o (λ q. IsParsedFrom size bytes.now q)) }
{
    let Ok(_text) = str::from_utf8(bytes) else {
        return Ok(None);
    };
    let mut rest = Cursor::new(bytes);
    let found = take_parsed(alloc, &mut rest, size)?;
    Ok(found)
}
