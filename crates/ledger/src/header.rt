//! Headers.

ghost use Rattle.std.specs.Prelude.{◌≡◌, ◌<◌, ◌≤◌, ◌^◌, ◌++◌, ◌∷◌, ◌↔◌, ℕ, List, Some, IfOk, IfSome, IsTrue};
ghost use Rattle.headers.specs.Faults.{fault_name};
ghost use Rattle.headers.specs.Headers.{IsHeader, IsSetup, CanBegin, campaign_words, counted_words, header_line};
ghost use Rattle.headers.specs.Headers.{option_words};
ghost use Rattle.ledger.specs.Parts.{IsNoDigit};

use crate::words::number;
use common::{MAX_ADDRESSES, MAX_CAPACITY, MAX_CORES, MAX_EVENTS, MAX_STEPS, OutOfMemory};
use headers::{Counted, Header, Setup, count_name, fault_name, put_header};
use program::Fault;
use std::alloc::Global;
use texts::Cursor;

/// How many bytes the line of a header is given room for before it is printed: the longest one has no more.
const HEADER_ROOM: usize = 168;

/// Reads the number of the option of this name.
fn option(rest: &mut Cursor<'_>, name: &[u8]) -> usize
    ensures { (n b : ℕ) (more : List ℕ) → n < 2 ^ 64 → IsNoDigit b → rest.old ≡ option_words name.now n ++ b ∷ more
        → (result ≡ n) × (rest.new ≡ b ∷ more) }
{
    rest.take(name);
    number(rest)
}

/// The fault with whose name a text begins: no two names have the same third byte.
fn fault_at(text: &[u8]) -> Fault
    ensures { (f : Fault) (more : List ℕ) → text.now ≡ fault_name f ++ more → result ≡ f }
{
    match text.get(2) {
        Some(b'-') => Fault::NoBypass,
        Some(b'u') => Fault::YoungestFirst,
        Some(b'e') => Fault::OpenFence,
        Some(b'a') => Fault::StaleShare,
        Some(b'r') => Fault::EarlyRmw,
        _ => Fault::None,
    }
}

/// Reads a fault by its name.
fn fault(rest: &mut Cursor<'_>) -> Fault
    ensures { (f : Fault) (more : List ℕ) → rest.old ≡ fault_name f ++ more → (result ≡ f) × (rest.new ≡ more) }
{
    let fault = fault_at(rest.rest());
    rest.take(fault_name(fault));
    fault
}

/// Reads what campaigns have in common, up to the first seed.
fn setup(rest: &mut Cursor<'_>) -> Setup
    ensures { (s : Setup) (more : List ℕ) → IsSetup s → rest.old ≡ campaign_words s ++ more
        → (result ≡ s) × (rest.new ≡ more) }
{
    let cores = option(rest, b"# tsotest trials --cores ");
    let ops = option(rest, b" --ops ");
    let addresses = option(rest, b" --addresses ");
    rest.take(b" --fault ");
    let fault = fault(rest);
    let buffer = option(rest, b" --buffer ");
    let attempts = option(rest, b" --attempts ");
    rest.take(b" --seed ");
    Setup {
        cores,
        ops,
        addresses,
        fault,
        buffer,
        attempts,
    }
}

/// Reads what is counted, up to the first seed or line.
fn read_counts(rest: &mut Cursor<'_>) -> Counted
    ensures { (c : Counted) (first : ℕ) (more : List ℕ) → CanBegin c first → rest.old ≡ counted_words c ++ more
        → (result ≡ c) × (rest.new ≡ more) }
{
    if rest.take(b"# tsotest survey --from ") {
        return Counted::Survey;
    }
    if rest.take(b"# tsotest survey --long --from ") {
        return Counted::LongSurvey;
    }
    Counted::Campaign(setup(rest))
}

/// Reads the header with which a text begins, whatever stands between its numbers.
fn read_header(text: &[u8]) -> Header
    ensures { (h : Header) (more : List ℕ) → IsHeader h → text.now ≡ header_line h ++ more → result ≡ h }
{
    let mut rest = Cursor::new(text);
    let counted = read_counts(&mut rest);
    let first = number(&mut rest) as u64;
    let count = option(&mut rest, count_name(&counted)) as u64;
    Header {
        counted,
        first,
        count,
    }
}

/// Whether a number is from 1 to a limit.
fn is_within(limit: usize, number: usize) -> bool
    ensures { IsTrue result ↔ ((0 < number) × (number ≤ limit)) }
{
    0 < number && number <= limit
}

/// Whether what campaigns have in common is within its limits.
fn is_setup(setup: &Setup) -> bool
    ensures { IsTrue result ↔ IsSetup setup.now }
{
    is_within(MAX_CORES, setup.cores)
        && is_within(MAX_EVENTS, setup.ops)
        && is_within(MAX_ADDRESSES, setup.addresses)
        && setup.cores * setup.ops <= MAX_EVENTS
        && is_within(MAX_STEPS, setup.attempts)
        && is_within(MAX_CAPACITY, setup.buffer)
}

/// Whether there can be such a first seed or line.
fn can_begin(counted: &Counted, first: u64) -> bool
    ensures { IsTrue result ↔ CanBegin counted.now first }
{
    match counted {
        Counted::Campaign(setup) => is_setup(setup),
        Counted::Survey => first > 0,
        Counted::LongSurvey => first > 0,
    }
}

/// Whether there can be such a header.
fn is_header(header: &Header) -> bool
    ensures { IsTrue result ↔ IsHeader header.now }
{
    header.count > 0 && can_begin(&header.counted, header.first)
}

/// Takes the line of a header. Fails only if out of memory.
pub(crate) fn header(rest: &mut Cursor<'_>, alloc: Global) -> Result<Option<Header>, OutOfMemory>
    ensures found { IfOk result (λ r. IfSome r (λ h. IsHeader h × (rest.old ≡ header_line h ++ rest.new))) }
    ensures only { IfOk result (λ r. (h : Header) (more : List ℕ) → IsHeader h → rest.old ≡ header_line h ++ more
        → (r ≡ Some h) × (rest.new ≡ more)) }
{
    let header = read_header(rest.rest());
    if !is_header(&header) {
        return Ok(None);
    }
    let mut line = Vec::with_capacity(alloc, HEADER_ROOM)?;
    put_header(&mut line, &header)?;
    if !rest.take(&line) {
        return Ok(None);
    }
    Ok(Some(header))
}
