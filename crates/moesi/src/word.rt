//! A line with its data as one word.

ghost use Rattle.std.specs.Prelude.{◌≡◌, ◌<◌, ◌^◌, Some};
ghost use Rattle.common.specs.declared.limits.TheConstants.{MAX_EVENTS};
ghost use Rattle.moesi.specs.declared.line.Line.TheVariants.{M};
ghost use Rattle.moesi.specs.Rows.{turned};
ghost use Rattle.moesi.specs.Words.{line_code, line_from, event_from, cell_in};

use crate::cell::Cell;
use crate::line::Line;
use common::EventId;

/// The bits of the value.
const VALUE_BITS: u32 = 32;

/// The bits below the state: the value, and the event's number plus 1, or 0 for none.
const COPY_BITS: u32 = 48;

/// The word of a line in I, which has value 0 and no event.
pub(crate) const INVALID: u64 = 0;

/// What a transaction of another core makes of a line.
#[derive(Clone, Copy)]
pub(crate) enum Turn {
    /// The core shares it: M becomes O, E becomes S.
    Share,
    /// The core takes it for itself: it becomes I.
    Invalidate,
    /// The core takes it for itself with a fault: it becomes I but in S, where it stays.
    LeaveStale,
}

/// The number of a state.
fn line_code(line: Line) -> u64
    ensures code { result ≡ line_code line }
    ensures small { result < 8 }
{
    match line {
        Line::I => 0,
        Line::S => 1,
        Line::E => 2,
        Line::O => 3,
        Line::M => 4,
    }
}

/// The state of a number. One above 4 is no state's: taken for M, it costs no comparison.
fn line_from(code: u64) -> Line
    ensures { result ≡ line_from code }
{
    match code {
        0 => Line::I,
        1 => Line::S,
        2 => Line::E,
        3 => Line::O,
        _ => Line::M,
    }
}

/// The event of a number.
fn event_from(code: u64) -> Option<EventId>
    requires { code < 2 ^ 16 }
    ensures { result ≡ event_from code }
{
    if code == 0 {
        return None;
    }
    Some((code - 1) as EventId)
}

/// The line with its data that a word stands for.
pub(crate) fn unpack(word: u64) -> Cell
    ensures { result ≡ cell_in word }
{
    let low = word % (1 << COPY_BITS);
    let value = (low % (1 << VALUE_BITS)) as u32;
    Cell {
        line: line_from(word >> COPY_BITS),
        copy: (value, event_from(low >> VALUE_BITS)),
    }
}

/// The word of a line in this state with the data of another word.
pub(crate) fn word_with_line(word: u64, line: Line) -> u64
    ensures { cell_in result ≡ record { line = line; copy = (cell_in word).copy } }
{
    (line_code(line) << COPY_BITS) + word % (1 << COPY_BITS)
}

/// The word of a line in M with these data.
pub(crate) fn modified_word(value: u32, event: EventId) -> u64
    requires { event < MAX_EVENTS }
    ensures { cell_in result ≡ record { line = M; copy = (value, Some event) } }
{
    word_with_line(((event as u64 + 1) << VALUE_BITS) + value as u64, Line::M)
}

/// The word once another core made its transaction.
pub(crate) fn turn_word(word: u64, turn: Turn) -> u64
    ensures { cell_in result ≡ turned turn (cell_in word) }
{
    let line = unpack(word).line;
    match turn {
        Turn::Share if !line.is_exclusive() => word,
        Turn::Share => word_with_line(word, if line.is_owned() { Line::O } else { Line::S }),
        Turn::LeaveStale if line == Line::S => word,
        _ => INVALID,
    }
}
