//! How many cores values have, and the numbers of their events.

ghost use Rattle.std.specs.Prelude.{◌≡◌, ◌-◌, ◌^◌, length, min};
ghost use Rattle.completion.specs.Situation.{number_of};

use values::Values;

/// How many cores there are.
pub(crate) fn core_count(values: &Values) -> usize
    ensures { result ≡ length values.now.cores }
{
    values.cores().len()
}

/// The number of the event of a core at a place, or the greatest number where it is greater.
pub(crate) fn number_of(values: &Values, core: usize, place: usize) -> usize
    ensures { result ≡ min (number_of values.now.cores core place) (2 ^ 64 - 1) }
{
    let mut first: usize = 0;
    for c in 0..core {
        first = first.saturating_add(values.events(c).len());
    }
    first.saturating_add(place)
}
