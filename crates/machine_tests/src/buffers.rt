//! A short life of one buffer.
use common::{Addr, EventId};
use std::test::Fail;
use write_buffer::{Entry, WriteBuffer};

const X: Addr = 0;

const Y: Addr = 1;

fn store(addr: Addr, value: u32, event: EventId) -> Entry {
    Entry { addr, value, event }
}

/// Whether a buffer with room for three stores takes them, no fourth, and finds the youngest of an address.
fn finds_the_youngest(buffer: &mut WriteBuffer) -> bool {
    buffer.push(store(X, 1, 0)) == Ok(())
        && buffer.push(store(Y, 2, 1)) == Ok(())
        && buffer.push(store(X, 3, 2)) == Ok(())
        && buffer.youngest(X) == Some(store(X, 3, 2))
        && buffer.push(store(Y, 4, 3)) == Err(store(Y, 4, 3))
}

/// Whether that buffer gives its stores from both ends then, and keeps the one between.
fn gives_both_ends(buffer: &mut WriteBuffer) -> bool {
    buffer.pop_oldest() == Some(store(X, 1, 0))
        && buffer.pop_youngest() == Some(store(X, 3, 2))
        && buffer.youngest(X).is_none()
        && buffer.oldest() == Some(store(Y, 2, 1))
        && !buffer.is_empty()
}

#[test]
fn the_youngest_store_of_an_address_is_found(rt: HostRuntime) -> Result<(), Fail> {
    let mut buffer = WriteBuffer::new(rt.alloc(), 3)?;
    assert!(rt; finds_the_youngest(&mut buffer));
    assert!(rt; gives_both_ends(&mut buffer));
    Ok(())
}
