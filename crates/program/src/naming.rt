//! The names of addresses that no text names.

ghost use Rattle.std.specs.Prelude.{◌≡◌, ◌<◌, ◌≤◌, ◌^◌, IfOk};
ghost use Rattle.program.specs.AddressNames.{address_name, address_names};

use crate::name::Name;
use common::{Addr, MAX_ADDRESSES, OutOfMemory};
use indexmap::IndexSet;
use itoa::Buffer;
use std::alloc::Global;

/// The name of an address: the letter a, and its number, which has at most seven digits.
pub fn address_name(number: Addr) -> Name
    requires { number < 10 ^ 7 }
    ensures { result ≡ address_name number }
{
    let mut buffer = Buffer::new();
    Name::of_parts(b'a', buffer.format(number).as_bytes())
}

/// The names of this many addresses, at most `MAX_ADDRESSES`: the letter a, and their numbers from 0.
/// Fails only if out of memory.
pub fn address_names(alloc: Global, count: usize) -> Result<IndexSet<Name>, OutOfMemory>
    requires { count ≤ MAX_ADDRESSES }
    ensures { IfOk result (λ names. names.keys ≡ address_names count) }
{
    let mut names = IndexSet::new(alloc);
    for number in 0..count {
        let _new = names.insert(address_name(number as Addr))?;
    }
    Ok(names)
}
