//! The words of cycles.

ghost use Rattle.std.specs.Prelude.{◌≡◌};
ghost use Rattle.cycles.specs.Words.{agreed, ending, ends_with_store, is_external, is_fenced, is_other_address};
ghost use Rattle.cycles.specs.Words.{is_turn};
ghost use Rattle.cycles.specs.Words.{kind_by, meeting, start, starts_with_store};

/// What a word in program order says of the access at one of its ends.
#[derive(Clone, Copy, PartialEq, Eq)]
pub struct Letter {
    /// Whether it is a store, `W`, or else a load, `R`; an atomic access is both, and may be called either.
    pub is_store: bool,
    /// Whether it is atomic, `A`: a read-modify-write.
    pub is_atomic: bool,
}

/// How an access of an address comes before another of it.
#[derive(Clone, Copy, PartialEq, Eq)]
pub enum Link {
    /// The second reads what the first wrote.
    Rf,
    /// The second writes a newer value than the first read.
    Fr,
    /// The second writes after the first.
    Co,
}

/// `Po` and `MFence`: two accesses of a core, the first before the second in program order.
#[derive(Clone, Copy, PartialEq, Eq)]
pub struct Pair {
    /// Whether a fence stands between them.
    pub fenced: bool,
    /// Whether both are of one address, `s`, or else of two, `d`.
    pub same_address: bool,
    /// What the first is.
    pub first: Letter,
    /// What the second is.
    pub second: Letter,
}

/// `Rf`, `Fr` and `Co`: two accesses of an address, the first before the second.
#[derive(Clone, Copy, PartialEq, Eq)]
pub struct Side {
    /// How.
    pub link: Link,
    /// Whether both are on one core, `i`, or else on two, `e`.
    pub same_core: bool,
}

/// A word: how an access of a cycle comes before the next.
#[derive(Clone, Copy, PartialEq, Eq)]
pub enum Word {
    /// In program order.
    Pair(Pair),
    /// By what is read and written.
    Side(Side),
}

/// What a word says of the access at one of its ends.
#[derive(Clone, Copy)]
pub(crate) struct End {
    /// Whether it is a store, or an atomic access as one, or else a load, or an atomic access as one.
    pub(crate) is_store: bool,
    /// Whether it is atomic, if the word says so.
    pub(crate) is_atomic: Option<bool>,
}

/// What an access does.
#[derive(Clone, Copy, PartialEq, Eq)]
pub(crate) enum Kind {
    /// It loads.
    Load,
    /// It stores.
    Store,
    /// It reads and writes at once.
    Atomic,
}

/// What a word in program order says at an end.
fn by_letter(letter: Letter) -> End
    ensures { result ≡ record { is_store = letter.is_store; is_atomic = Some letter.is_atomic } }
{
    End {
        is_store: letter.is_store,
        is_atomic: Some(letter.is_atomic),
    }
}

/// What another word says at an end.
fn by_link(is_store: bool) -> End
    ensures { result ≡ record { is_store = is_store; is_atomic = None } }
{
    End {
        is_store,
        is_atomic: None,
    }
}

/// Whether the first access of a link is a store.
fn starts_with_store(link: Link) -> bool
    ensures { result ≡ starts_with_store link }
{
    match link {
        Link::Rf => true,
        Link::Fr => false,
        Link::Co => true,
    }
}

/// Whether the second is.
fn ends_with_store(link: Link) -> bool
    ensures { result ≡ ends_with_store link }
{
    match link {
        Link::Rf => false,
        Link::Fr => true,
        Link::Co => true,
    }
}

/// What a word says of its first access.
pub(crate) fn start(word: Word) -> End
    ensures { result ≡ start word }
{
    match word {
        Word::Pair(pair) => by_letter(pair.first),
        Word::Side(side) => by_link(starts_with_store(side.link)),
    }
}

/// What a word says of its second access.
pub(crate) fn ending(word: Word) -> End
    ensures { result ≡ ending word }
{
    match word {
        Word::Pair(pair) => by_letter(pair.second),
        Word::Side(side) => by_link(ends_with_store(side.link)),
    }
}

/// Whether an access is atomic of which two words speak, where they agree; `differ` says whether one speaks of a store
/// and the other of a load.
fn agreement(one: Option<bool>, other: Option<bool>, differ: bool) -> Option<bool>
    ensures { result ≡ agreed one other differ }
{
    match one {
        None => match other {
            None => Some(differ),
            Some(second) => Some(second),
        },
        Some(first) => match other {
            None => Some(first),
            Some(second) => {
                if first != second {
                    return None;
                }
                Some(first)
            }
        },
    }
}

/// The access that one word speaks of as a store or as a load, and the other too.
fn kind_by(is_atomic: bool, one: bool, other: bool) -> Option<Kind>
    ensures { result ≡ kind_by is_atomic one other }
{
    if is_atomic {
        return Some(Kind::Atomic);
    }
    if one != other {
        return None;
    }
    if one {
        Some(Kind::Store)
    } else {
        Some(Kind::Load)
    }
}

/// The access in which a word ends and another starts, if it can be one.
pub(crate) fn meeting(word: Word, next: Word) -> Option<Kind>
    ensures { result ≡ meeting word next }
{
    let before = ending(word);
    let after = start(next);
    let is_atomic = agreement(
        before.is_atomic,
        after.is_atomic,
        before.is_store != after.is_store,
    )?;
    kind_by(is_atomic, before.is_store, after.is_store)
}

/// Whether a word leads to another core.
pub(crate) fn is_external(word: Word) -> bool
    ensures { result ≡ is_external word }
{
    match word {
        Word::Pair(_) => false,
        Word::Side(side) => !side.same_core,
    }
}

/// Whether a word leads to another address.
pub(crate) fn is_other_address(word: Word) -> bool
    ensures { result ≡ is_other_address word }
{
    match word {
        Word::Pair(pair) => !pair.same_address,
        Word::Side(_) => false,
    }
}

/// Whether a fence stands between the accesses of a word.
pub(crate) fn is_fenced(word: Word) -> bool
    ensures { result ≡ is_fenced word }
{
    match word {
        Word::Pair(pair) => pair.fenced,
        Word::Side(_) => false,
    }
}

/// Whether the writes of an address may begin anew between a word and the next: after a word in program order, or where
/// an atomic access is a store to one and a load to the other.
pub(crate) fn is_turn(word: Word, next: Word) -> bool
    ensures { result ≡ is_turn word next }
{
    match word {
        Word::Pair(_) => true,
        Word::Side(side) => ends_with_store(side.link) != start(next).is_store,
    }
}
