//! The pairs of program order that memory order keeps.

ghost use Rattle.std.specs.Prelude.{◌<◌, OnOk, length};
ghost use Rattle.completion.specs.Inferred.{AreInferred};
ghost use Rattle.completion.specs.Pairs.{IsTable};

use crate::cause::{Cause, Link};
use crate::inferred::Inferred;
use crate::sources::is_own;
use crate::table::{Placed, event_at};
use common::OutOfMemory;
use values::Values;

/// Puts a pair of program order, if memory order keeps it.
fn keep_one(
    values: &Values,
    table: &[Placed],
    inferred: &mut Inferred,
    e: usize,
    f: usize,
) -> Result<(), OutOfMemory>
    requires table { IsTable values.now table.now }
    requires inferred { AreInferred values.now inferred.old }
    requires first { e < length table.now }
    requires second { f < length table.now }
    ensures { OnOk result (AreInferred values.now inferred.new) }
{
    let first = event_at(values, table, e);
    let second = event_at(values, table, f);
    if is_own(values, table, e, f) && first.keeps(&second) {
        let link = Link {
            first: e,
            second: f,
            cause: Cause::Po,
        };
        inferred.put(values, link)?;
    }
    Ok(())
}

/// Puts the pairs of program order that memory order keeps and of which an event is the first.
fn keep_after(
    values: &Values,
    table: &[Placed],
    inferred: &mut Inferred,
    e: usize,
) -> Result<(), OutOfMemory>
    requires table { IsTable values.now table.now }
    requires inferred { AreInferred values.now inferred.old }
    requires there { e < length table.now }
    ensures { OnOk result (AreInferred values.now inferred.new) }
{
    for f in 0..table.len() {
        keep_one(values, table, inferred, e, f)?;
    }
    Ok(())
}

/// Puts the pairs of program order that memory order keeps.
pub(crate) fn keep(
    values: &Values,
    table: &[Placed],
    inferred: &mut Inferred,
) -> Result<(), OutOfMemory>
    requires table { IsTable values.now table.now }
    requires inferred { AreInferred values.now inferred.old }
    ensures { OnOk result (AreInferred values.now inferred.new) }
{
    for e in 0..table.len() {
        keep_after(values, table, inferred, e)?;
    }
    Ok(())
}
