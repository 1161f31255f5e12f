//! Lists of a recording, read from the bytes of its text. Of more cores, events or addresses than a recording
//! may have one too many is held, so that a long text takes no room for the others.

ghost use Rattle.std.specs.Prelude.{ℕ, List, suc, map, IfOk, IfSome};
ghost use Rattle.recorder.specs.Reading.{list_in};
ghost use Rattle.recorder.specs.ByTokens.{GivesValue, value_tokens, later_tokens};

use crate::items::Kind;
use crate::spaced::take_sign;
use recording::RecordingSize;
use std::alloc::{AllocError, Global};
use texts::Cursor;

/// For how many items the first list has room at first.
const ROOM: usize = 32;

/// For how many lists there is room at first.
const LISTS: usize = 16;

/// For how many items a list has room at first that comes after one of this many: a few more, since lists of one
/// recording are often about as long, and one that outgrows its room takes twice as much.
fn room_after(len: usize) -> usize {
    len.saturating_add(len / 8 + 4)
}

/// A list, which has room for this many items at first, or for none where it is empty.
#[inline(never)]
fn take_list_in<K: Kind>(
    alloc: Global,
    rest: &mut Cursor<'_>,
    size: RecordingSize,
    room: usize,
) -> Result<Option<Vec<K::Item>>, AllocError>
    ensures { IfOk result (λ o. IfSome o (λ v. (depth : ℕ) → (items : List K.Item)
        × GivesValue (list_in K.held) (suc (suc depth)) (value_tokens rest.old) items (later_tokens rest.new)
        × K.holds size v.items items)) }
{
    if !take_sign(rest, b'[') {
        return Ok(None);
    }
    if take_sign(rest, b']') {
        return Ok(Some(Vec::new(alloc)));
    }
    let mut found = Vec::with_capacity(alloc, room)?;
    'items: loop {
        let Some(item) = K::take(rest) else {
            return Ok(None);
        };
        K::hold(&mut found, item, size)?;
        if !take_sign(rest, b',') {
            if take_sign(rest, b']') {
                return Ok(Some(found));
            }
            return Ok(None);
        }
    }
}

/// A list.
pub(crate) fn take_list<K: Kind>(
    alloc: Global,
    rest: &mut Cursor<'_>,
    size: RecordingSize,
) -> Result<Option<Vec<K::Item>>, AllocError>
    ensures { IfOk result (λ o. IfSome o (λ v. (depth : ℕ) → (items : List K.Item)
        × GivesValue (list_in K.held) (suc (suc depth)) (value_tokens rest.old) items (later_tokens rest.new)
        × K.holds size v.items items)) }
{
    take_list_in::<K>(alloc, rest, size, ROOM)
}

/// A list of lists, each of which has room at first for a few items more than the one before it has.
pub(crate) fn take_lists<K: Kind>(
    alloc: Global,
    rest: &mut Cursor<'_>,
    size: RecordingSize,
) -> Result<Option<Vec<Vec<K::Item>>>, AllocError>
    ensures { IfOk result (λ o. IfSome o (λ v. (depth : ℕ) → (lists : List (List K.Item))
        × GivesValue (list_in (list_in K.held)) (suc (suc (suc depth))) (value_tokens rest.old) lists
        (later_tokens rest.new)
        × K.holds_lists size (map (λ w. w.items) v.items) lists)) }
{
    if !take_sign(rest, b'[') {
        return Ok(None);
    }
    let mut found = Vec::with_capacity(alloc, LISTS)?;
    if take_sign(rest, b']') {
        return Ok(Some(found));
    }
    let mut room = ROOM;
    'items: loop {
        let Some(list) = take_list_in::<K>(alloc, rest, size, room)? else {
            return Ok(None);
        };
        room = room_after(list.len());
        K::hold_list(&mut found, list, size)?;
        if !take_sign(rest, b',') {
            if take_sign(rest, b']') {
                return Ok(Some(found));
            }
            return Ok(None);
        }
    }
}
