//! The order in which moves are tried.

ghost use Rattle.std.specs.Prelude.{◌≡◌, ◌≤◌, ◌<◌, ◌⊎◌, ◌+◌, ℕ, Contains, IfNone, IfOk, OnOk, None, Some, length, map};
ghost use Rattle.std.specs.Prelude.{slice_get, slice_index_or};
ghost use Rattle.recording.specs.declared.event.Event.TheVariants.{F};
ghost use Rattle.recording.specs.Event.{written_address};
ghost use Rattle.completion.specs.declared.moves.Move.{Move};
ghost use Rattle.completion.specs.declared.moves.Turn.{Turn};
ghost use Rattle.completion.specs.Pairs.{AreForced, IsSquare};
ghost use Rattle.completion.specs.Search.{IsEarly};
ghost use Rattle.completion.specs.Seen.{IsTaken};
ghost use Rattle.completion.specs.Situation.{moved};

use crate::counts::core_count;
use crate::early::is_early;
use crate::moves::{Move, Turn};
use bitrow::BitRow;
use common::{Addr, OutOfMemory};
use recording::Event;
use situations::{Row, Waiting, between, oldest, value_at};
use std::alloc::Global;
use values::Values;

/// Numbers that a sequence gives, one after another.
#[derive(Clone, Copy)]
pub(crate) struct Mixer {
    state: u64,
}

impl Mixer {
    /// The sequence of a try; the first try takes moves as they stand.
    pub(crate) fn new(number: u64) -> Mixer {
        Mixer {
            state: number.wrapping_mul(11400714819323198485),
        }
    }

    /// Whether moves are taken as they stand.
    fn is_plain(&self) -> bool {
        self.state == 0
    }

    /// The next number.
    fn next(&mut self) -> u64 {
        self.state = self
            .state
            .wrapping_mul(6364136223846793005)
            .wrapping_add(1442695040888963407);
        self.state
    }
}

/// The write of the event at a place, if it writes.
fn write_at(events: &[Event], place: usize) -> Option<Waiting>
    requires { place < length events.now }
    ensures { IfNone result (written_address (slice_index_or events.now place F) ≡ None) }
{
    let address = events[place].written_address()?;
    Some(Waiting {
        place,
        address,
        value: events[place].value_written(),
    })
}

/// The write that a move of a core brings to memory, if the move can be made as far as its place says.
pub(crate) fn write_of(values: &Values, row: &Row, turn: Turn) -> Option<Waiting>
    ensures { IfNone result (moved values.now row.now turn.step turn.core ≡ None) }
{
    let events = values.events(turn.core);
    let place = row.place(turn.core);
    match turn.step {
        Move::Modify => {
            if place >= events.len() {
                return None;
            }
            write_at(events, place)
        }
        Move::Drain => {
            let from = row.drained_place(turn.core);
            let waiting = between(events, from, place);
            if waiting.is_empty() {
                return None;
            }
            oldest(from, waiting)
        }
    }
}

/// Whether the next event of some core waits for this value of an address.
fn is_wanted(values: &Values, row: &Row, address: Addr, value: u32) -> bool {
    for core in 0..core_count(values) {
        let events = values.events(core);
        let place = row.place(core);
        if place < events.len()
            && events[place].read_address() == Some(address)
            && events[place].value_read() == value
        {
            return true;
        }
    }
    false
}

/// Whether a read to come, other than that of a place of a core, has this value of an address.
fn is_needed(values: &Values, row: &Row, core: usize, write: Waiting, value: u32) -> bool {
    for other in 0..core_count(values) {
        let events = values.events(other);
        for place in row.place(other)..events.len() {
            if events[place].read_address() == Some(write.address)
                && events[place].value_read() == value
                && !(other == core && place == write.place)
            {
                return true;
            }
        }
    }
    false
}

/// When a move is tried.
#[derive(Clone, Copy, PartialEq, Eq)]
enum Rank {
    /// Before the late ones.
    Soon,
    /// After the others.
    Late,
}

impl Rank {
    /// The other one.
    fn other(self) -> Rank {
        match self {
            Rank::Soon => Rank::Late,
            Rank::Late => Rank::Soon,
        }
    }
}

/// The rank of a move: late where what it writes is wanted by none, and overwrites what is still needed.
fn rank_of(values: &Values, row: &Row, core: usize, write: Waiting) -> Rank {
    let old = value_at(row.memory(), write.address as usize);
    if !is_wanted(values, row, write.address, write.value)
        && is_needed(values, row, core, write, old)
    {
        Rank::Late
    } else {
        Rank::Soon
    }
}

/// A move with its rank.
#[derive(Clone, Copy)]
struct Choice {
    turn: Turn,
    rank: Rank,
}

/// Adds a move with its rank, unless it can't be made or comes too early.
fn add(
    values: &Values,
    pairs: &[BitRow],
    row: &Row,
    turn: Turn,
    mixer: &mut Mixer,
    found: &mut Vec<Choice>,
) -> Result<(), OutOfMemory>
    requires square { IsSquare pairs.now }
    requires forced { AreForced values.now pairs.now }
    ensures more { OnOk result ((t : Turn) → IsTaken values.now row.now (map (λ x. x.turn) found.old.items) t.step
        t.core
        → IsTaken values.now row.now (map (λ x. x.turn) found.new.items) t.step t.core) }
    ensures added { OnOk result (IsTaken values.now row.now (map (λ x. x.turn) found.new.items) turn.step turn.core) }
{
    let Some(write) = write_of(values, row, turn) else {
        return Ok(());
    };
    if is_early(values, pairs, row, turn.step, turn.core) {
        return Ok(());
    }
    let mut rank = rank_of(values, row, turn.core, write);
    if !mixer.is_plain() && mixer.next() >> 60 == 0 {
        rank = rank.other();
    }
    found.push(Choice { turn, rank })?;
    Ok(())
}

/// The moves of all cores that can be made and don't come too early, with their ranks.
fn moves_of(
    alloc: Global,
    values: &Values,
    pairs: &[BitRow],
    row: &Row,
    mixer: &mut Mixer,
) -> Result<Vec<Choice>, OutOfMemory>
    requires square { IsSquare pairs.now }
    requires forced { AreForced values.now pairs.now }
    ensures { IfOk result (λ found. (step : Move) (c : ℕ) → c < length values.now.cores
        → IsTaken values.now row.now (map (λ x. x.turn) found.items) step c) }
{
    let mut found = Vec::new(alloc);
    for core in 0..core_count(values) {
        let modify = Turn {
            step: Move::Modify,
            core,
        };
        let drain = Turn {
            step: Move::Drain,
            core,
        };
        add(values, pairs, row, modify, mixer, &mut found)?;
        add(values, pairs, row, drain, mixer, &mut found)?;
    }
    Ok(found)
}

/// Adds the moves of a rank that stand between two places.
fn take(
    found: &[Choice],
    from: usize,
    to: usize,
    rank: Rank,
    moves: &mut Vec<Turn>,
) -> Result<(), OutOfMemory>
    requires { to ≤ length found.now }
    ensures more { OnOk result ((t : Turn) → Contains moves.old.items t → Contains moves.new.items t) }
    ensures taken { OnOk result ((i : ℕ) (x : Choice) → from ≤ i → i < to → slice_get found.now i ≡ Some x
        → x.rank ≡ rank → Contains moves.new.items x.turn) }
{
    for i in from..to {
        if found[i].rank == rank {
            moves.push(found[i].turn)?;
        }
    }
    Ok(())
}

/// The moves in the order in which they are tried: the late ones last, from a place on and round.
fn order_moves(alloc: Global, found: &[Choice], first: usize) -> Result<Vec<Turn>, OutOfMemory>
    requires { first ≤ length found.now }
    ensures { IfOk result (λ moves. (t : Turn) → Contains (map (λ x. x.turn) found.now) t → Contains moves.items t) }
{
    let count = found.len();
    let mut moves = Vec::with_capacity(alloc, count)?;
    take(found, first, count, Rank::Soon, &mut moves)?;
    take(found, 0, first, Rank::Soon, &mut moves)?;
    take(found, first, count, Rank::Late, &mut moves)?;
    take(found, 0, first, Rank::Late, &mut moves)?;
    Ok(moves)
}

/// The moves of all cores that can be made and don't come too early, those that are tried first first.
pub(crate) fn rank_moves(
    alloc: Global,
    values: &Values,
    pairs: &[BitRow],
    row: &Row,
    mixer: &mut Mixer,
) -> Result<Vec<Turn>, OutOfMemory>
    requires square { IsSquare pairs.now }
    requires forced { AreForced values.now pairs.now }
    ensures { IfOk result (λ moves. (step : Move) (c : ℕ) → c < length values.now.cores
        → IsTaken values.now row.now moves.items step c) }
{
    let found = moves_of(alloc, values, pairs, row, mixer)?;
    let count = found.len();
    let first = if mixer.is_plain() || count == 0 {
        0
    } else {
        (mixer.next() >> 33) as usize % count
    };
    let moves = order_moves(alloc, &found, first)?;
    Ok(moves)
}
