//! Kinds of codes.

ghost use Rattle.std.specs.Prelude.{◌≡◌};
ghost use Rattle.ledger.specs.Kinds.{is_cycle, is_unfinished, is_unjudged, is_unread, is_violation};

use crate::code::{CYCLE, LONG_CYCLE, ORDERED, OVERLOOK, UNFINISHED};

/// Whether it is the code of a cycle.
fn is_cycle(code: u64) -> bool
    ensures { result ≡ is_cycle code }
{
    CYCLE <= code && code <= CYCLE + LONG_CYCLE as u64
}

/// Whether it is the code of an overlook or a cycle.
pub fn is_violation(code: u64) -> bool
    ensures { result ≡ is_violation code }
{
    is_cycle(code) || code >= OVERLOOK
}

/// Whether it is the code of what has no verdict: an unfinished run or a refused recording.
pub(crate) fn is_unjudged(code: u64) -> bool
    ensures { result ≡ is_unjudged code }
{
    code != ORDERED && !is_violation(code)
}

/// Whether it is the code of what is unfinished.
pub(crate) fn is_unfinished(code: u64) -> bool
    ensures { result ≡ is_unfinished code }
{
    code == UNFINISHED
}

/// Whether it is the code of what has no verdict and is not unfinished: of what is refused.
pub(crate) fn is_unread(code: u64) -> bool
    ensures { result ≡ is_unread code }
{
    is_unjudged(code) && !is_unfinished(code)
}
