//! Stores that wait in a store buffer, and what is forwarded from them.

ghost use Rattle.std.specs.Prelude.{◌≡◌, ◌+◌, ◌^◌, ◌<◌, IfSome, None, OnSome, length};
ghost use Rattle.situations.specs.Waiting.{between, forwarded, newer, none_waits, oldest, waiting_at, younger};
ghost use Rattle.situations.specs.Waiting.{youngest};

use crate::step::Step;
use common::Addr;

/// A store that waits.
#[derive(Clone, Copy)]
pub struct Waiting {
    /// Its place among its core's steps.
    pub place: usize,
    /// The address that it writes.
    pub address: Addr,
    /// The value that it writes.
    pub value: u32,
}

/// The steps between two places.
pub fn between<T>(steps: &[T], from: usize, to: usize) -> &[T]
    ensures { result.now ≡ between steps.now from to }
{
    let end = to.min(steps.len());
    let begin = from.min(end);
    &steps[begin..end]
}

/// The store that waits at a place, if there is one.
fn waiting_at(place: usize, stored: Option<(Addr, u32)>) -> Option<Waiting>
    ensures value { result ≡ waiting_at place stored }
    ensures place { IfSome result (λ x. x.place ≡ place) }
{
    let (address, value) = stored?;
    Some(Waiting {
        place,
        address,
        value,
    })
}

/// The oldest store of a list that begins at a place.
pub fn oldest<T: Step>(first: usize, steps: &[T]) -> Option<Waiting>
    requires { first + length steps.now < 2 ^ 64 }
    ensures value { result ≡ oldest T.stored first steps.now }
    ensures within { IfSome result (λ x. x.place < first + length steps.now) }
    ensures some { OnSome result (0 < length steps.now) }
{
    for (i, step) in steps.iter().enumerate() {
        let waiting = waiting_at(first + i, step.stored_value());
        if waiting.is_some() {
            return waiting;
        }
    }
    None
}

/// Whether no store waits.
pub fn none_waits<T: Step>(steps: &[T]) -> bool
    ensures { result ≡ none_waits T.stored steps.now }
{
    for step in steps {
        if step.stored_value().is_some() {
            return false;
        }
    }
    true
}

/// The value that was stored to an address, and the given one where nothing was.
fn newer(address: Addr, value: u32, stored: Option<(Addr, u32)>) -> u32
    ensures { result ≡ newer address value stored }
{
    match stored {
        Some((other, new)) => { if other == address { new } else { value } }
        None => value,
    }
}

/// The value of the youngest store to an address, and the given one where none waits.
pub fn forwarded_value<T: Step>(address: Addr, value: u32, steps: &[T]) -> u32
    ensures { result ≡ forwarded T.stored address value steps.now }
{
    let mut found = value;
    for step in steps {
        found = newer(address, found, step.stored_value());
    }
    found
}

/// This place where something was stored to an address, and the given one where nothing was.
fn younger(
    address: Addr,
    found: Option<usize>,
    place: usize,
    stored: Option<(Addr, u32)>,
) -> Option<usize>
    ensures { result ≡ younger address found place stored }
{
    match stored {
        Some((other, _)) => { if other == address { Some(place) } else { found } }
        None => found,
    }
}

/// The place of the youngest store to an address of a list that begins at a place; none where none waits.
pub fn youngest<T: Step>(address: Addr, first: usize, steps: &[T]) -> Option<usize>
    requires { first + length steps.now < 2 ^ 64 }
    ensures { result ≡ youngest T.stored address None first steps.now }
{
    let mut found = None;
    for (i, step) in steps.iter().enumerate() {
        found = younger(address, found, first + i, step.stored_value());
    }
    found
}
