//! Sources that are known, and their marks.

ghost use Rattle.std.specs.Prelude.{◌≡◌, slice_index};
ghost use Rattle.completion.specs.Situation.{has_mark, mark, mark_of, mark_read, marked, may_read, source_at};

use crate::counts::number_of;
use common::{Addr, EventId};
use situations::{Row, value_at};
use values::Values;

/// The mark of a source.
fn mark(source: Option<EventId>) -> usize
    ensures { result ≡ mark source }
{
    match source {
        None => 1,
        Some(write) => write as usize + 2,
    }
}

/// Whether a source, where it is known, has a mark.
fn has_mark(mark: usize, known: Option<Option<EventId>>) -> bool
    ensures { result ≡ has_mark mark known }
{
    match known {
        None => false,
        Some(source) => mark == crate::marks::mark(source),
    }
}

/// A mark, where some read is known to have such a source, else 0.
pub(crate) fn mark_where_known(values: &Values, mark: usize) -> usize
    ensures { result ≡ marked values.now mark }
{
    for known in values.sources() {
        if has_mark(mark, *known) {
            return mark;
        }
    }
    0
}

/// The mark of the initial value, where some read is known to have it as its source, else 0.
pub(crate) fn marked_initial(values: &Values) -> usize
    ensures { result ≡ marked values.now (mark None) }
{
    mark_where_known(values, 1)
}

/// The mark of the event of a core at a place.
pub(crate) fn mark_of(values: &Values, core: usize, place: usize) -> usize
    ensures { result ≡ mark_of values.now core place }
{
    number_of(values, core, place).saturating_add(2)
}

/// The source that is known of the event of a core at a place.
pub(crate) fn source_at(values: &Values, core: usize, place: usize) -> Option<Option<EventId>>
    ensures { result ≡ source_at values.now core place }
{
    let number = number_of(values, core, place);
    let sources = values.sources();
    if number < sources.len() {
        sources[number]
    } else {
        None
    }
}

/// Whether a read may take its value from what has a mark, as far as its source is known.
pub(crate) fn may_read(known: Option<Option<EventId>>, mark: usize) -> bool
    ensures { result ≡ may_read known mark }
{
    match known {
        None => true,
        Some(source) => mark == crate::marks::mark(source),
    }
}

/// The mark of an address in memory; 0 where it is not there.
pub(crate) fn mark_at(row: &Row, address: Addr) -> usize
    ensures { result ≡ slice_index row.now.notes address }
{
    value_at(row.notes(), address as usize) as usize
}

/// The mark of what a core reads: of its store at a place, or the one in memory.
pub(crate) fn mark_read(values: &Values, core: usize, memory: usize, own: Option<usize>) -> usize
    ensures { result ≡ mark_read values.now core memory own }
{
    match own {
        None => memory,
        Some(place) => mark_of(values, core, place),
    }
}
