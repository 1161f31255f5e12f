//! The rules by which sources of reads force pairs of events.

ghost use Rattle.std.specs.Prelude.{◌≡◌, ◌≢◌, ◌<◌, ◌⊎◌, All, IfOk, IsTrue, OnOk, Some, None, length};
ghost use Rattle.recording.specs.Execution.{ProgramOrder, Writes};
ghost use Rattle.values.specs.Refused.{events_alone};
ghost use Rattle.completion.specs.Inferred.{AreInferred, IsShown};
ghost use Rattle.completion.specs.Pairs.{IsRead, IsTable};
ghost use Rattle.completion.specs.Sources.{IsOnlySource};

use crate::cause::{Cause, Link};
use crate::inferred::Inferred;
use crate::keeping::keep;
use crate::pairs::{has, has_circle};
use crate::sources::{Source, is_own, source_of, writes_to};
use crate::table::{Placed, event_at, table};
use common::{Addr, OutOfMemory};
use std::alloc::Global;
use values::Values;

/// A read with its address and its source, as far as this is known.
#[derive(Clone, Copy)]
pub struct Read {
    /// The number of the event.
    pub number: usize,
    /// The address that it reads.
    pub address: Addr,
    /// Its source.
    pub source: Source,
}

/// Puts what another write of its address forces, where the source of a read is the initial value. Whether a pair is
/// new.
fn force_initial(
    values: &Values,
    table: &[Placed],
    inferred: &mut Inferred,
    read: Read,
    write: usize,
) -> Result<bool, OutOfMemory>
    requires table { IsTable values.now table.now }
    requires inferred { AreInferred values.now inferred.old }
    requires read { IsRead values.now table.now read }
    requires source { IsOnlySource values.now read.number read.address None }
    requires write { write < length table.now }
    requires writes { Writes (events_alone values.now) write read.address }
    requires other { write ≢ read.number }
    ensures { OnOk result (AreInferred values.now inferred.new) }
{
    if is_own(values, table, write, read.number) {
        let link = Link {
            first: read.number,
            second: read.number,
            cause: Cause::Fr(None),
        };
        return inferred.put(values, link);
    }
    let link = Link {
        first: read.number,
        second: write,
        cause: Cause::Fr(None),
    };
    inferred.put(values, link)
}

/// Puts that the source of a read comes before it, unless it is earlier on its core. Whether the pair is new.
fn force_source(
    values: &Values,
    table: &[Placed],
    inferred: &mut Inferred,
    read: Read,
    source: usize,
) -> Result<bool, OutOfMemory>
    requires table { IsTable values.now table.now }
    requires inferred { AreInferred values.now inferred.old }
    requires read { IsRead values.now table.now read }
    requires source { IsOnlySource values.now read.number read.address (Some source) }
    requires there { source < length table.now }
    ensures { OnOk result (AreInferred values.now inferred.new) }
{
    if is_own(values, table, source, read.number) {
        return Ok(false);
    }
    let link = Link {
        first: source,
        second: read.number,
        cause: Cause::Rf,
    };
    inferred.put(values, link)
}

/// Whether a read sees a write: it is earlier on its core, or comes before it.
fn sees(values: &Values, table: &[Placed], inferred: &Inferred, read: Read, write: usize) -> bool
    requires table { IsTable values.now table.now }
    requires inferred { AreInferred values.now inferred.now }
    requires read { IsRead values.now table.now read }
    requires write { write < length table.now }
    ensures { IsTrue result → IsShown values.now write read.number
        ⊎ ProgramOrder (events_alone values.now) write read.number }
{
    is_own(values, table, write, read.number) || has(&inferred.rows, write, read.number)
}

/// Puts what another write of its address forces, where the source of a read is a write. Whether a pair is new.
fn force_other(
    values: &Values,
    table: &[Placed],
    inferred: &mut Inferred,
    read: Read,
    source: usize,
    write: usize,
) -> Result<bool, OutOfMemory>
    requires table { IsTable values.now table.now }
    requires inferred { AreInferred values.now inferred.old }
    requires read { IsRead values.now table.now read }
    requires source { IsOnlySource values.now read.number read.address (Some source) }
    requires write { write < length table.now }
    requires writes { Writes (events_alone values.now) write read.address }
    requires other { write ≢ read.number }
    requires apart { write ≢ source }
    ensures { OnOk result (AreInferred values.now inferred.new) }
{
    if sees(values, table, inferred, read, write) {
        let link = Link {
            first: write,
            second: source,
            cause: Cause::Wo(read.number),
        };
        return inferred.put(values, link);
    }
    if has(&inferred.rows, source, write) {
        let link = Link {
            first: read.number,
            second: write,
            cause: Cause::Fr(Some(source)),
        };
        return inferred.put(values, link);
    }
    Ok(false)
}

/// Puts what a write forces with a read of its address. Whether a pair is new.
fn force_write(
    values: &Values,
    table: &[Placed],
    inferred: &mut Inferred,
    read: Read,
    write: usize,
) -> Result<bool, OutOfMemory>
    requires table { IsTable values.now table.now }
    requires inferred { AreInferred values.now inferred.old }
    requires read { IsRead values.now table.now read }
    requires write { write < length table.now }
    ensures { OnOk result (AreInferred values.now inferred.new) }
{
    if write == read.number || !writes_to(values, table, write, read.address) {
        return Ok(false);
    }
    match read.source {
        Source::Open => Ok(false),
        Source::Initial => force_initial(values, table, inferred, read, write),
        Source::Only(source) => {
            if write == source {
                force_source(values, table, inferred, read, source)
            } else {
                force_other(values, table, inferred, read, source, write)
            }
        }
    }
}

/// Puts what all writes force with a read of their address. Whether a pair is new.
fn force_read(
    values: &Values,
    table: &[Placed],
    inferred: &mut Inferred,
    read: Read,
) -> Result<bool, OutOfMemory>
    requires table { IsTable values.now table.now }
    requires inferred { AreInferred values.now inferred.old }
    requires read { IsRead values.now table.now read }
    ensures { OnOk result (AreInferred values.now inferred.new) }
{
    let mut new = false;
    for write in 0..table.len() {
        if force_write(values, table, inferred, read, write)? {
            new = true;
        }
    }
    Ok(new)
}

/// Puts what all writes force with all reads. Whether a pair is new.
fn force_reads(
    values: &Values,
    table: &[Placed],
    inferred: &mut Inferred,
    reads: &[Read],
) -> Result<bool, OutOfMemory>
    requires table { IsTable values.now table.now }
    requires inferred { AreInferred values.now inferred.old }
    requires reads { All (IsRead values.now table.now) reads.now }
    ensures { OnOk result (AreInferred values.now inferred.new) }
{
    let mut new = false;
    for i in 0..reads.len() {
        if force_read(values, table, inferred, reads[i])? {
            new = true;
        }
    }
    Ok(new)
}

/// The reads with their sources, as far as they are known.
fn all_reads(alloc: Global, values: &Values, table: &[Placed]) -> Result<Vec<Read>, OutOfMemory>
    requires { IsTable values.now table.now }
    ensures { IfOk result (λ reads. All (IsRead values.now table.now) reads.items) }
{
    let mut reads = Vec::new(alloc);
    for number in 0..table.len() {
        if let Some(address) = event_at(values, table, number).read_address() {
            let source = source_of(values, table, number, address);
            reads.push(Read {
                number,
                address,
                source,
            })?;
        }
    }
    Ok(reads)
}

/// Puts pairs by all rules until none is new, or some event comes before itself: what would follow then has no meaning.
fn infer(
    alloc: Global,
    values: &Values,
    table: &[Placed],
    inferred: &mut Inferred,
) -> Result<(), OutOfMemory>
    requires table { IsTable values.now table.now }
    requires inferred { AreInferred values.now inferred.old }
    ensures { OnOk result (AreInferred values.now inferred.new) }
{
    keep(values, table, inferred)?;
    let reads = all_reads(alloc, values, table)?;
    for _ in 0..table.len() {
        inferred.close(alloc, values)?;
        if has_circle(&inferred.rows) {
            return Ok(());
        }
        if !force_reads(values, table, inferred, &reads)? {
            return Ok(());
        }
    }
    Ok(())
}

/// Pairs that values force, as far as sources that they tell show, with the causes of those that a rule put. Fails only
/// if out of memory.
pub(crate) fn force_all(alloc: Global, values: &Values) -> Result<Inferred, OutOfMemory>
    ensures { IfOk result (AreInferred values.now) }
{
    let table = table(alloc, values)?;
    let mut inferred = Inferred::none(alloc, values, table.len())?;
    infer(alloc, values, &table, &mut inferred)?;
    Ok(inferred)
}
