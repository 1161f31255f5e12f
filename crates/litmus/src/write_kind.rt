//! Kinds of operations that write.

/// The kind of an operation that writes.
#[derive(Clone, Copy)]
pub enum WriteKind {
    /// A store.
    Store,
    /// An atomic read-modify-write that writes its value.
    Swap,
    /// An atomic read-modify-write that writes the sum of the old value and its own.
    Add,
}
