//! Rows under a smaller cap.

ghost use Rattle.std.specs.Prelude.{◌≡◌, ℕ, Option, min, slice_index};
ghost use Rattle.search.specs.Slots.{IsCutAt};

/// Cuts each label of a row at the cap.
fn cut_row(row: &mut [u16], cap: u16)
    ensures { (e : ℕ) → slice_index row.new e ≡ min (slice_index row.old e) cap }
{
    for label in row.iter_mut() {
        *label = (*label).min(cap);
    }
}

/// Cuts each label of a row at the cap, if there is one.
pub(crate) fn cut_at(row: &mut [u16], cap: Option<u16>)
    ensures { IsCutAt cap row.old row.new }
{
    if let Some(most) = cap {
        cut_row(row, most);
    }
}
