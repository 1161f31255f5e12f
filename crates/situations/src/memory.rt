//! Values of memory.

ghost use Rattle.std.specs.Prelude.{◌≡◌, slice_index};

/// The value at an index, and 0 past the end.
pub fn value_at(list: &[u32], index: usize) -> u32
    ensures { result ≡ slice_index list.now index }
{
    if index < list.len() { list[index] } else { 0 }
}
