//! Why a line of a litmus text is refused, and the name of the refusal.

ghost use Rattle.std.specs.Prelude.{◌≡◌};
ghost use Rattle.litmus.specs.Refusals.{line_refusal_name};

use refusals::{L1, L2, L3, L4, L5, L6, L7, L8};
use texts::LineError;

/// Why a line of a litmus text is refused. Where several apply to one line, the first in this order
/// is answered.
#[derive(Clone, Copy, PartialEq, Eq)]
pub enum LineRefusal {
    /// The line is outside the grammar, has no newline, is an operation before the first `core`, or a
    /// core or an operation after an `init` line.
    L1,
    /// A core after `MAX_CORES` cores.
    L2,
    /// An operation after `MAX_EVENTS` operations, those of all cores counted.
    L3,
    /// A name of a new address after `MAX_ADDRESSES` addresses.
    L4,
    /// A value above 4294967295; of a `cas`, either of its two.
    L5,
    /// An initial value of a name that no operation before it uses.
    L6,
    /// An initial value of an address whose number is not above that of the `init` line before it.
    L7,
    /// An initial value of 0.
    L8,
}

/// Why a litmus text gave no program.
pub type LitmusError = LineError<LineRefusal>;

/// The name of the refusal of a program's line.
pub fn line_refusal_name(refusal: LineRefusal) -> &'static str
    ensures { result.now ≡ line_refusal_name refusal }
{
    match refusal {
        LineRefusal::L1 => L1.name,
        LineRefusal::L2 => L2.name,
        LineRefusal::L3 => L3.name,
        LineRefusal::L4 => L4.name,
        LineRefusal::L5 => L5.name,
        LineRefusal::L6 => L6.name,
        LineRefusal::L7 => L7.name,
        LineRefusal::L8 => L8.name,
    }
}
