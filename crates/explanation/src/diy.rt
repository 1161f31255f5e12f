//! A cycle in the words of the tool diy.

ghost use Rattle.std.specs.Prelude.{◌≡◌, ◌++◌, ◌∷◌, ◌≤◌, [], ℕ, List, IfOk, OnOk, length, map};
ghost use Rattle.std.specs.Prelude.{option_map, string_bytes};
ghost use Rattle.std.specs.List.{flat_map, list_all};
ghost use Rattle.recording.specs.Execution.{event_at};
ghost use Rattle.explanation.specs.Diy.{IsDiyLine, IsStep, AreWordSteps, accesses, accessed, classic_of};
ghost use Rattle.explanation.specs.Diy.{access_of, has_word, is_fence, letters, named_by, overlook_end};
ghost use Rattle.explanation.specs.Diy.{pair_text, side_text, told_from, word};
ghost use Rattle.explanation.specs.Diy.{IsNamedAfter, words_from, diy_line, diy_overlook_line};

use common::{Addr, EventId, OutOfMemory};
use event_texts::event_of;
use recording::{Event, Recording};
use relations::{Places, Reason, next_in_cycle};
use std::alloc::Global;
use texts::{Grow, put_text};

/// What diy's words call an access.
#[derive(Clone, Copy)]
pub(crate) enum Access {
    /// `R`: a load.
    Load,
    /// `W`: a store.
    Store,
    /// `RA`: a read-modify-write.
    Atomic,
}

/// The step from one access of a cycle to the next.
#[derive(Clone, Copy)]
pub(crate) struct Step {
    /// The first reason for it; none where only a fence between the two is one.
    pub(crate) reason: Option<Reason>,
    /// Whether both are of one address.
    pub(crate) same_address: bool,
    /// Whether both are on one core.
    pub(crate) same_core: bool,
    /// What the first is.
    pub(crate) from: Access,
    /// What the second is.
    pub(crate) to: Access,
}

/// Whether an event has a word: each but a compare-and-swap that failed.
fn has_word(event: &Event) -> bool
    ensures { result ≡ has_word event.now }
{
    !matches!(event, Event::C { .. })
}

/// Whether an event is a fence.
fn is_fence(event: &Event) -> bool
    ensures { result ≡ is_fence event.now }
{
    matches!(event, Event::F)
}

/// What an event is called.
fn access_of(event: &Event) -> Access
    ensures { result ≡ access_of event.now }
{
    match event {
        Event::L { .. } | Event::C { .. } | Event::F => Access::Load,
        Event::S { .. } => Access::Store,
        Event::R { .. } => Access::Atomic,
    }
}

/// The address of an event, 0 of a fence.
pub fn address_or_zero(event: &Event) -> Addr
    ensures { result ≡ accessed event.now }
{
    match event {
        Event::L { a, .. } | Event::S { a, .. } | Event::R { a, .. } | Event::C { a, .. } => *a,
        Event::F => 0,
    }
}

/// Whether each event of a cycle has a word.
fn have_words(recording: &Recording, cycle: &[EventId]) -> bool
    ensures { result ≡ list_all (λ e. has_word (event_at recording.now e)) cycle.now }
{
    for number in cycle {
        let (_, event) = event_of(recording, *number);
        if !has_word(&event) {
            return false;
        }
    }
    true
}

/// Adds an event to the accesses, unless it is a fence.
fn add_access(
    recording: &Recording,
    number: EventId,
    found: &mut Vec<EventId>,
) -> Result<(), OutOfMemory>
    ensures { OnOk result (found.new.items ≡ found.old.items ++ accesses recording.now (number ∷ [])) }
{
    let (_, event) = event_of(recording, number);
    if !is_fence(&event) {
        found.push(number)?;
    }
    Ok(())
}

/// The events of a cycle that are no fence.
fn accesses(
    alloc: Global,
    recording: &Recording,
    cycle: &[EventId],
) -> Result<Vec<EventId>, OutOfMemory>
    ensures { IfOk result (λ found. found.items ≡ accesses recording.now cycle.now) }
{
    let mut found = Vec::new(alloc);
    for number in cycle {
        add_access(recording, *number, &mut found)?;
    }
    Ok(found)
}

/// The step from one access to another.
fn step_of(recording: &Recording, places: &Places<'_>, first: EventId, second: EventId) -> Step
    requires { places.now ≡ recording.now }
    ensures { IsStep recording.now first second result }
{
    let (core, event) = event_of(recording, first);
    let (other_core, other) = event_of(recording, second);
    Step {
        reason: places.reason(first, second),
        same_address: address_or_zero(&event) == address_or_zero(&other),
        same_core: core == other_core,
        from: access_of(&event),
        to: access_of(&other),
    }
}

/// The steps of a cycle, from each access to the one after it.
fn steps(
    alloc: Global,
    recording: &Recording,
    places: &Places<'_>,
    accesses: &[EventId],
) -> Result<Vec<Step>, OutOfMemory>
    requires { places.now ≡ recording.now }
    ensures { IfOk result (λ steps. AreWordSteps recording.now accesses.now (length accesses.now) steps.items) }
{
    let mut found = Vec::new(alloc);
    for i in 0..accesses.len() {
        found.push(step_of(recording, places, accesses[i], next_in_cycle(accesses, i)))?;
    }
    Ok(found)
}

/// The letters of an access.
fn letters(access: Access) -> &'static str
    ensures { result.now ≡ letters access }
{
    match access {
        Access::Load => "R",
        Access::Store => "W",
        Access::Atomic => "RA",
    }
}

/// Adds a word for two accesses of one core: whether the address is the same or a different one, and their letters.
fn add_pair(words: &mut String, head: &str, step: Step) -> Result<(), OutOfMemory>
    ensures { OnOk result (string_bytes words.new ≡ string_bytes words.old ++ (head.now ++ pair_text step)) }
{
    words.push_str(head)?;
    words.push_str(if step.same_address { "s" } else { "d" })?;
    words.push_str(letters(step.from))?;
    words.push_str(letters(step.to))?;
    Ok(())
}

/// Adds a word for two accesses of one address: whether the step stays inside its core or goes outside.
fn add_side(words: &mut String, head: &str, step: Step) -> Result<(), OutOfMemory>
    ensures { OnOk result (string_bytes words.new
        ≡ string_bytes words.old ++ (head.now ++ side_text step.same_core)) }
{
    words.push_str(head)?;
    words.push_str(if step.same_core { "i" } else { "e" })?;
    Ok(())
}

/// Adds the word of a step.
#[tactic(auto, unfolding(crate::specs::Diy::word))]
fn add_word(words: &mut String, step: Step) -> Result<(), OutOfMemory>
    ensures { OnOk result (string_bytes words.new ≡ string_bytes words.old ++ word step) }
{
    match step.reason {
        None => add_pair(words, " MFence", step),
        Some(Reason::Po) => add_pair(words, " Po", step),
        Some(Reason::Wo) => add_side(words, " Co", step),
        Some(Reason::Rf) => add_side(words, " Rf", step),
        Some(Reason::Fr) => add_side(words, " Fr", step),
    }
}

/// Adds the words of steps.
fn add_words(words: &mut String, steps: &[Step]) -> Result<(), OutOfMemory>
    ensures { OnOk result (string_bytes words.new ≡ string_bytes words.old ++ flat_map word steps.now) }
{
    for step in steps {
        add_word(words, *step)?;
    }
    Ok(())
}

/// The words of all steps, from a place on.
#[tactic(auto, unfolding(crate::specs::Diy::words_from))]
fn words_from(alloc: Global, steps: &[Step], at: usize) -> Result<String, OutOfMemory>
    requires { at ≤ length steps.now }
    ensures { IfOk result (λ words. string_bytes words ≡ words_from steps.now at) }
{
    let mut words = String::new(alloc);
    add_words(&mut words, &steps[at..])?;
    add_words(&mut words, &steps[..at])?;
    Ok(words)
}

/// The words of the cycles of classic tests, each with its test.
const CLASSICS: &[(&str, &str)] = &[
    (" PodWW Rfe PodRR Fre", "MP"),
    (" PodRW Rfe PodRW Rfe", "LB"),
    (" PodWW Rfe PodRW Coe", "S"),
    (" PodWW Coe PodWW Coe", "2+2W"),
    (" MFencedWR Fre MFencedWR Fre", "SB+mfences"),
    (" PodWW Coe MFencedWR Fre", "R+po+mfence"),
    (" Rfe PodRW Rfe PodRR Fre", "WRC"),
    (" Rfe PodRW Rfe PodRW Coe", "WWC"),
    (" Rfe PodRR Fre MFencedWR Fre", "RWC+po+mfence"),
    (" Rfe PodRW Coe MFencedWR Fre", "WRW+WR+po+mfence"),
    (" Rfe PodRW Coe PodWW Coe", "WRW+2W"),
    (" Rfe PodRR Fre PodWW Coe", "WRR+2W"),
    (" Rfe PodRR Fre Rfe PodRR Fre", "IRIW"),
    (" Rfe PodRR Fre Rfe PodRW Coe", "IRRWIW"),
    (" Rfe PodRW Coe Rfe PodRW Coe", "IRWIW"),
    (" PodWW Rfe PodRW Rfe PodRR Fre", "ISA2"),
    (" PodWW Rfe PodRR Fre MFencedWR Fre", "W+RWC+po+po+mfence"),
    (" MFencedWR Fre MFencedWR Fre MFencedWR Fre", "3.SB+mfences"),
    (" PodRW Rfe PodRW Rfe PodRW Rfe", "3.LB"),
    (" PodWW Coe PodWW Coe PodWW Coe", "3.2W"),
    (" PodWW Rfe PodRW Coe MFencedWR Fre", "Z6.0+po+po+mfence"),
    (" PodWW Coe PodWW Rfe PodRW Coe", "Z6.1"),
    (" PodWW Rfe PodRW Rfe PodRW Coe", "Z6.2"),
    (" PodWW Coe PodWW Rfe PodRR Fre", "Z6.3"),
    (
        " PodWW Coe MFencedWR Fre MFencedWR Fre",
        "Z6.4+po+mfence+mfence",
    ),
    (" PodWW Coe PodWW Coe MFencedWR Fre", "Z6.5+po+po+mfence"),
    (" Rfe PosRR Fre", "CoRR"),
    (" PosWW Coi", "CoWW"),
    (" PosRW Rfi", "CoRW"),
    (" Rfe PosRW Coe", "CoRW"),
];

/// What the first row with these words has beside them.
fn named_by(rows: &[(&'static str, &'static str)], words: &str) -> Option<&'static str>
    ensures { option_map (λ name. name.now) result
        ≡ named_by (map (λ r. (r.0.now, r.1.now)) rows.now) words.now }
{
    for row in rows {
        if words == row.0 {
            return Some(row.1);
        }
    }
    None
}

/// The classic test that has the cycle of these words.
fn classic_of(words: &str) -> Option<&'static str>
    ensures { option_map (λ name. name.now) result ≡ classic_of words.now }
{
    named_by(CLASSICS, words)
}

/// Adds the words from a place on and the name of the classic test that they are those of; whether there is one.
fn put_named(
    out: &mut Vec<u8>,
    alloc: Global,
    steps: &[Step],
    at: usize,
) -> Result<bool, OutOfMemory>
    requires { at ≤ length steps.now }
    ensures { IfOk result (λ named. IsNamedAfter out.old.items (words_from steps.now at) named out.new.items) }
{
    let words = words_from(alloc, steps, at)?;
    let Some(name) = classic_of(words.as_str()) else {
        return Ok(false);
    };
    write!(out, "{words} ({name})")?;
    Ok(true)
}

/// Adds the words of steps, and the name of the classic test that has their cycle, if there is one.
fn put_told(out: &mut Vec<u8>, alloc: Global, steps: &[Step]) -> Result<(), OutOfMemory>
    ensures { OnOk result (out.new.items ≡ out.old.items ++ told_from steps.now 0 (length steps.now)) }
{
    for at in 0..steps.len() {
        if put_named(out, alloc, steps, at)? {
            return Ok(());
        }
    }
    let words = words_from(alloc, steps, 0)?;
    put_text(out, words.as_bytes())
}

/// Adds the line of steps.
fn put_line(out: &mut Vec<u8>, alloc: Global, steps: &[Step]) -> Result<(), OutOfMemory>
    ensures { OnOk result (out.new.items ≡ out.old.items ++ diy_line steps.now) }
{
    put_text(out, b"In diy's words:")?;
    put_told(out, alloc, steps)?;
    put_text(out, b"\n")
}

/// Adds the line of a cycle, if each of its events has a word.
pub(crate) fn put_diy(
    out: &mut Vec<u8>,
    alloc: Global,
    recording: &Recording,
    places: &Places<'_>,
    cycle: &[EventId],
) -> Result<(), OutOfMemory>
    requires { places.now ≡ recording.now }
    ensures { OnOk result ((line : List ℕ) × IsDiyLine recording.now cycle.now line
        × (out.new.items ≡ out.old.items ++ line)) }
{
    if !have_words(recording, cycle) {
        return Ok(());
    }
    let accesses = accesses(alloc, recording, cycle)?;
    let steps = steps(alloc, recording, places, &accesses)?;
    put_line(out, alloc, &steps)
}

/// The end of the line of a load that overlooks a store, with the name of the classic test where both are plain.
fn overlook_end(load: Access, store: Access) -> &'static str
    ensures { result.now ≡ overlook_end load store }
{
    match load {
        Access::Load => match store {
            Access::Store => " (CoWR)\n",
            Access::Load | Access::Atomic => "\n",
        },
        Access::Store | Access::Atomic => "\n",
    }
}

/// Adds the line of a load that overlooks a store, if both have words.
#[tactic(auto, unfolding(crate::specs::Diy::diy_overlook_line))]
pub(crate) fn put_overlook_line(
    out: &mut Vec<u8>,
    load: &Event,
    store: &Event,
) -> Result<(), OutOfMemory>
    ensures { OnOk result (out.new.items ≡ out.old.items ++ diy_overlook_line load.now store.now) }
{
    if !has_word(load) || !has_word(store) {
        return Ok(());
    }
    let (load, store) = (access_of(load), access_of(store));
    let (second, first, end) = (letters(load), letters(store), overlook_end(load, store));
    write!(out, "In diy's words: Pos{first}{second} Fri{end}")
}
