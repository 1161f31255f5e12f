//! What single JSON values give.

ghost use Rattle.std.specs.Prelude.{◌≡◌, option_map};
ghost use Rattle.serde_json.specs.View.{view};
ghost use Rattle.serde_json.specs.Find.{as_object};
ghost use Rattle.recorder.specs.Reading.{at_key, count_members, value_in};
ghost use Rattle.recorder.specs.Clipped.{clipped_number};
ghost use Rattle.recorder.specs.ByTokens.{clipped_source};

use common::EventId;
use serde_json::Value;

/// The number of an event or of an address; the greatest of 32 bits where it is greater. None where the value is no
/// natural number of 64 bits.
pub(crate) fn number_in(value: &Value) -> Option<u32>
    ensures { result ≡ clipped_number (view value.now) }
{
    let n = value.as_u64()?;
    Some(u32::try_from(n).unwrap_or(u32::MAX))
}

/// The value that an event reads or writes; none where it is no natural number of 32 bits.
pub fn value_in(value: &Value) -> Option<u32>
    ensures { result ≡ value_in (view value.now) }
{
    u32::try_from(value.as_u64()?).ok()
}

/// The source of a read: `Some(None)` for null, which is the initial value; none where it is neither a number nor null.
fn source_in(value: &Value) -> Option<Option<EventId>>
    ensures { result ≡ clipped_source (view value.now) }
{
    if value.is_null() {
        return Some(None);
    }
    let source = number_in(value)?;
    Some(Some(source))
}

/// The number of an event or of an address at a key of an object; the greatest of 32 bits where it is greater. None
/// where nothing stands at the key, or no natural number of 64 bits.
pub fn number_at(value: &Value, key: &str) -> Option<u32>
    ensures { result ≡ at_key clipped_number key.now (view value.now) }
{
    number_in(value.get(key)?)
}

/// The value that an event reads or writes, at a key of an object; none where nothing stands at the key, or no natural
/// number of 32 bits.
pub fn value_at(value: &Value, key: &str) -> Option<u32>
    ensures { result ≡ at_key value_in key.now (view value.now) }
{
    value_in(value.get(key)?)
}

/// The source of a read at a key of an object: `Some(None)` for null, which is the initial value; none where nothing
/// stands at the key, or neither a number nor null.
pub fn source_at(value: &Value, key: &str) -> Option<Option<EventId>>
    ensures { result ≡ at_key clipped_source key.now (view value.now) }
{
    source_in(value.get(key)?)
}

/// How many keys an object has; none where the value is no object.
#[tactic(auto, using(crate::proofs::Members::count_members_length))]
pub fn keys_of(value: &Value) -> Option<usize>
    ensures { result ≡ option_map count_members (as_object (view value.now)) }
{
    let members = value.as_object()?;
    Some(members.len())
}
