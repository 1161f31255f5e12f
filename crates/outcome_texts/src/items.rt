//! Items: what an operation read, or what an address ended with.

ghost use Rattle.std.specs.Prelude.{◌≡◌, ◌+◌, ◌<◌, ◌≤◌, IfSome, length, position};
ghost use Rattle.program.specs.Names.{name_eq};
ghost use Rattle.outcome_texts.specs.ObservedLine.{ended, is_colon, is_ended, is_equals, keyed, name_in};
ghost use Rattle.outcome_texts.specs.ObservedLine.{observation_in, observation_of, read_at, read_event, read_of};
ghost use Rattle.outcome_texts.specs.ObservedLine.{small_number};

use common::{Addr, CoreId, EventId};
use outcomes::{Observation, does_read, first_event};
use program::{Name, Op, Program};
use texts::{Number, decimal};

/// Whether items end with `;`.
#[derive(Clone, Copy, PartialEq, Eq)]
pub enum Ending {
    /// They do, as in a log.
    Needed,
    /// They may, as in a condition.
    Optional,
}

/// The place of a reading operation of a core.
fn read_at(number: usize, ops: &[Op]) -> Option<usize>
    ensures place { result ≡ read_at 0 number ops.now }
    ensures within { IfSome result (λ i. i < length ops.now) }
{
    let mut left = number;
    for (i, op) in ops.iter().enumerate() {
        if does_read(*op) {
            if left == 0 {
                return Some(i);
            }
            left -= 1;
        }
    }
    None
}

/// A number of 32 bits.
#[tactic(auto, unfolding(crate::specs::ObservedLine::small_number))]
fn small_number(text: &[u8]) -> Option<u32>
    ensures { result ≡ small_number text.now }
{
    match decimal(text)? {
        Number::Value(number) => Some(number),
        Number::TooLarge => None,
    }
}

/// The event of a reading operation of a core.
fn read_event(program: &Program, core: usize, number: usize) -> Option<EventId>
    ensures { result ≡ read_event program.now core number }
{
    program.sound();
    if core >= program.cores() {
        return None;
    }
    let place = read_at(number, program.ops(core as CoreId))?;
    let event = first_event(program.lists(), core) + place;
    Some(event as EventId)
}

/// The number of the address with that name.
fn address_in(program: &Program, name: Name) -> Option<Addr>
    ensures { result ≡ position (name_eq name) program.now.names }
{
    match program.names().get_index_of(&name) {
        Some(address) => Some(address as Addr),
        None => None,
    }
}

/// The name in a key: what stands between brackets, or all of it.
fn name_in(key: &[u8]) -> &[u8]
    ensures { result.now ≡ name_in key.now }
{
    if key.len() > 1 && key[0] == b'[' && key[key.len() - 1] == b']' {
        &key[1..key.len() - 1]
    } else {
        key
    }
}

/// What an address ended with.
#[tactic(auto, unfolding(crate::specs::ObservedLine::ended))]
fn ending_said(program: &Program, key: &[u8], value: u32) -> Option<Observation>
    ensures { result ≡ ended program.now key.now value }
{
    let name = Name::new(name_in(key))?;
    let address = address_in(program, name)?;
    Some(Observation::Final(address, value))
}

/// What an operation of a core read.
#[tactic(auto, unfolding(crate::specs::ObservedLine::read_of))]
fn read_of(program: &Program, core: &[u8], rest: &[u8], value: u32) -> Option<Observation>
    ensures { result ≡ read_of program.now core.now rest.now value }
{
    if rest.is_empty() || rest[0] != b'r' {
        return None;
    }
    let core = small_number(core)?;
    let number = small_number(&rest[1..])?;
    let event = read_event(program, core as usize, number as usize)?;
    Some(Observation::Read(event, value))
}

/// Where the first colon stands.
fn colon_in(text: &[u8]) -> Option<usize>
    ensures place { result ≡ position is_colon text.now }
    ensures within { IfSome result (λ at. at < length text.now) }
{
    text.iter().position(|b| *b == b':')
}

/// Where the first equals sign stands.
fn equals_in(text: &[u8]) -> Option<usize>
    ensures place { result ≡ position is_equals text.now }
    ensures within { IfSome result (λ at. at < length text.now) }
{
    text.iter().position(|b| *b == b'=')
}

/// What an item with this key and value says.
#[tactic(auto, unfolding(crate::specs::ObservedLine::keyed))]
fn item_of_key(program: &Program, key: &[u8], value: u32) -> Option<Observation>
    ensures { result ≡ keyed program.now key.now value (position is_colon key.now) }
{
    match colon_in(key) {
        None => ending_said(program, key, value),
        Some(at) => read_of(program, &key[..at], &key[at + 1..], value),
    }
}

/// What an item says of a program, without its `;`; none where it says nothing.
#[tactic(auto, unfolding(crate::specs::ObservedLine::observation_of))]
fn observation_of(program: &Program, item: &[u8]) -> Option<Observation>
    ensures { result ≡ observation_of program.now item.now }
{
    let at = equals_in(item)?;
    let value = small_number(&item[at + 1..])?;
    item_of_key(program, &item[..at], value)
}

/// Whether the last byte is `;`.
fn is_ended(word: &[u8]) -> bool
    ensures value { result ≡ is_ended word.now }
{
    !word.is_empty() && word[word.len() - 1] == b';'
}

/// What a word says of a program; none where it says nothing.
#[tactic(auto, unfolding(crate::specs::ObservedLine::observation_in))]
pub(crate) fn observation_in(program: &Program, ending: Ending, word: &[u8]) -> Option<Observation>
    ensures { result ≡ observation_in program.now ending word.now }
{
    if is_ended(word) {
        return observation_of(program, &word[..word.len() - 1]);
    }
    match ending {
        Ending::Needed => None,
        Ending::Optional => observation_of(program, word),
    }
}
