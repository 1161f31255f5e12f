//! Moves that come too early, by pairs that values force.

ghost use Rattle.std.specs.Prelude.{◌-◌, ◌^◌, ◌<◌, IfSome, IsTrue};
ghost use Rattle.completion.specs.Pairs.{AreForced, IsSquare};
ghost use Rattle.completion.specs.Situation.{number_of};
ghost use Rattle.completion.specs.Search.{HasToWait, IsEarly, IsForced, IsLeft, Performs};

use crate::counts::{core_count, number_of};
use crate::moves::Move;
use crate::pairs::has;
use bitrow::BitRow;
use recording::Event;
use situations::{Row, between, oldest};
use values::Values;

/// The place of the event that a move of a core performs, if it can be made.
fn performed_place(values: &Values, row: &Row, step: Move, core: usize) -> Option<usize>
    ensures { IfSome result (λ j. Performs values.now.cores row.now step core j) }
{
    let place = row.place(core);
    match step {
        Move::Modify => Some(place),
        Move::Drain => {
            let from = row.drained_place(core);
            let waiting = between(values.events(core), from, place);
            if waiting.is_empty() {
                return None;
            }
            match oldest(from, waiting) {
                Some(store) => Some(store.place),
                None => None,
            }
        }
    }
}

/// Whether the event of a core at a place is there and was not done.
fn is_left(values: &Values, row: &Row, core: usize, place: usize) -> bool
    ensures { IsTrue result → IsLeft values.now row.now core place }
{
    let events = values.events(core);
    if place >= events.len() {
        return false;
    }
    match events[place] {
        Event::S { .. } => row.drained_place(core) <= place,
        Event::L { .. } => row.place(core) <= place,
        Event::R { .. } => row.place(core) <= place,
        Event::C { .. } => row.place(core) <= place,
        Event::F => row.place(core) <= place,
    }
}

/// Whether an event, by its core and place, is forced before another, by its number.
fn is_before(values: &Values, pairs: &[BitRow], core: usize, place: usize, number: usize) -> bool
    requires square { IsSquare pairs.now }
    requires forced { AreForced values.now pairs.now }
    ensures forced { IsTrue result → IsForced values.now (number_of values.now.cores core place) number }
    ensures small { IsTrue result → number < 2 ^ 64 - 1 }
{
    has(pairs, number_of(values, core, place), number)
}

/// Whether an event has to wait for the event of a core at a place.
fn waits_for(
    values: &Values,
    pairs: &[BitRow],
    row: &Row,
    core: usize,
    place: usize,
    number: usize,
) -> bool
    requires square { IsSquare pairs.now }
    requires forced { AreForced values.now pairs.now }
    ensures waits { IsTrue result → HasToWait values.now row.now core number }
    ensures small { IsTrue result → number < 2 ^ 64 - 1 }
{
    is_left(values, row, core, place) && is_before(values, pairs, core, place, number)
}

/// Whether an event has to wait for the next event of a core, or for its oldest waiting store. It answers false also
/// where it is not sure.
fn waits_for_core(values: &Values, pairs: &[BitRow], row: &Row, core: usize, number: usize) -> bool
    requires square { IsSquare pairs.now }
    requires forced { AreForced values.now pairs.now }
    ensures waits { IsTrue result → HasToWait values.now row.now core number }
    ensures small { IsTrue result → number < 2 ^ 64 - 1 }
{
    if waits_for(values, pairs, row, core, row.place(core), number) {
        return true;
    }
    match performed_place(values, row, Move::Drain, core) {
        Some(place) => waits_for(values, pairs, row, core, place, number),
        None => false,
    }
}

/// Whether a move of a core comes too early: what it performs has to wait for an event that was not done. It answers
/// false also where it is not sure.
pub(crate) fn is_early(
    values: &Values,
    pairs: &[BitRow],
    row: &Row,
    step: Move,
    core: usize,
) -> bool
    requires square { IsSquare pairs.now }
    requires forced { AreForced values.now pairs.now }
    ensures { IsTrue result → IsEarly values.now row.now step core }
{
    let Some(place) = performed_place(values, row, step, core) else {
        return false;
    };
    let number = number_of(values, core, place);
    for other in 0..core_count(values) {
        if waits_for_core(values, pairs, row, other, number) {
            return true;
        }
    }
    false
}
