//! Why a call on the caches is refused.

/// What a refused call found. It changed nothing.
#[derive(Clone, Copy, PartialEq, Eq)]
pub enum CacheError {
    /// `get_s` found the core's line valid.
    C1,
    /// `get_m` or `get_m_stale` found the core's line in M or E.
    C2,
    /// `put` or `read` found the core's line not valid.
    C3,
    /// `write` found the core's line neither in M nor in E.
    C4,
}
